//! The errors of a conversion to a WAV file.
ghost use Rattle.std.specs.Prelude.{◌≡◌, IfErr};
ghost use Rattle.claxon.specs.Error.{IsIo};
ghost use Rattle.claxon.specs.Errors.TheVariants.{OutOfMemory};
ghost use Rattle.claxon_wav.specs.WavError.{IsFrameError, IsOutputResult};
ghost use Rattle.claxon_wav.specs.declared.error.Error.TheVariants.{Claxon, Output};

use claxon_blocks::frames::{FrameError, UNSUPPORTED_32_BIT};
use std::alloc::AllocError;
use std::{fmt, io, result};

/// An error of a conversion to a WAV file.
#[derive(Debug, Drop)]
pub enum Error {
    /// An error of the decoder, of the input or of memory.
    Claxon(claxon::Error),

    /// A failed call of the output.
    Output(io::Error),

    /// The samples are more than a WAV file holds.
    TooLong,

    /// A block has another number of channels than the streaminfo says.
    OtherChannels,

    /// A sample has more bits than the streaminfo says.
    WideSample,

    /// A frame is refused because of the bit depth code for 32 bits, which was reserved in earlier editions of the format.
    Unsupported32Bit,

    /// The output is the input, and creating it would empty the input.
    SameFile,

    /// The output exists, and isn't to be replaced.
    Exists,
}

/// A result of a conversion.
pub type Result<T> = result::Result<T, Error>;

// The result of a call of an output, whose error is `Output`.
pub(crate) fn of_output<T>(answer: claxon::Result<T>) -> Result<T>
    requires { IfErr answer IsIo }
    ensures is_output_result { IsOutputResult answer result }
{
    match answer {
        Ok(value) => Ok(value),
        Err(claxon::Error::IoError(cause)) => Err(Error::Output(cause)),
        Err(error) => Err(Error::Claxon(error)),
    }
}

impl fmt::Display for Error {
    fn fmt<W: fmt::Write>(&self, f: &mut fmt::Formatter<W>) -> fmt::Result {
        match self {
            Error::Claxon(error) => write!(f, "{error}"),
            Error::Output(error) => write!(f, "{error}"),
            Error::TooLong => write!(f, "the samples are more than a WAV file holds, 4 GiB"),
            Error::OtherChannels => write!(f, "the number of channels changes within the stream"),
            Error::WideSample => write!(f, "a sample has more bits than the streaminfo says"),
            Error::Unsupported32Bit => write!(f, "{UNSUPPORTED_32_BIT}"),
            Error::SameFile => write!(f, "the output is the input"),
            Error::Exists => write!(f, "the output exists; -f replaces it"),
        }
    }
}

impl From<claxon::Error> for Error {
    ghost from_gives = { λ cause e. e ≡ Claxon cause };

    fn from(cause: claxon::Error) -> Error {
        Error::Claxon(cause)
    }
}

impl From<FrameError> for Error {
    ghost from_gives = { IsFrameError };

    fn from(cause: FrameError) -> Error {
        if cause.is_32_bit {
            Error::Unsupported32Bit
        } else {
            Error::Claxon(cause.error)
        }
    }
}

impl From<io::Error> for Error {
    ghost from_gives = { λ cause e. e ≡ Output cause };

    fn from(cause: io::Error) -> Error {
        Error::Output(cause)
    }
}

impl From<AllocError> for Error {
    ghost from_gives = { λ _ e. e ≡ Claxon OutOfMemory };

    fn from(_cause: AllocError) -> Error {
        Error::Claxon(claxon::Error::OutOfMemory)
    }
}
