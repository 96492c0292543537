//! Errors and values as `Display` and `Debug` print them.
use claxon::{Error, FlacReader, FlacReaderOptions};
use claxon_command_line::messages::{Part, error_text};
use claxon_testing::answers::two_frames;
use claxon_wav as wav;
use std::alloc::{AllocError, Global};
use std::fmt::{Debug, Display};
use std::io::{self, Cursor, ErrorKind};
use std::test::Fail;

fn says<T: Display>(alloc: Global, value: &T, want: &str) -> Result<bool, AllocError> {
    Ok(format!(in alloc; "{value}")?.as_str() == want)
}

#[rattlefmt::skip]
const ERRORS: [(Error, &str); 6] = [
    (Error::FormatError("frame CRC mismatch"), "Ill-formed FLAC stream: frame CRC mismatch"),
    (Error::FormatError(""), "Ill-formed FLAC stream: "),
    (
        Error::Unsupported("side channels of 33 bits are not supported"),
        "A currently unsupported feature of the FLAC format was encountered: side channels of 33 bits are not supported",
    ),
    (
        Error::Unsupported("more than 18446744073709551615 samples are not supported"),
        "A currently unsupported feature of the FLAC format was encountered: more than 18446744073709551615 samples are not supported",
    ),
    (
        Error::Unsupported("more than 65536 metadata blocks are not supported"),
        "A currently unsupported feature of the FLAC format was encountered: more than 65536 metadata blocks are not supported",
    ),
    (Error::OutOfMemory, "out of memory"),
];

#[test]
fn of_the_decoder(rt: HostRuntime) -> Result<(), Fail> {
    for (error, want) in &ERRORS {
        assert!(rt; says(rt.alloc(), error, *want)?, "{want}");
    }
    Ok(())
}

#[rattlefmt::skip]
const WAV_ERRORS: [(wav::Error, &str); 8] = [
    (wav::Error::Claxon(Error::FormatError("invalid residual")), "Ill-formed FLAC stream: invalid residual"),
    (
        wav::Error::Claxon(Error::Unsupported("application blocks larger than 10 MiB are not supported")),
        "A currently unsupported feature of the FLAC format was encountered: application blocks larger than 10 MiB are not supported",
    ),
    (wav::Error::Claxon(Error::OutOfMemory), "out of memory"),
    (wav::Error::TooLong, "the samples are more than a WAV file holds, 4 GiB"),
    (wav::Error::OtherChannels, "the number of channels changes within the stream"),
    (wav::Error::WideSample, "a sample has more bits than the streaminfo says"),
    (wav::Error::Unsupported32Bit, "32-bit samples are not supported"),
    (wav::Error::SameFile, "the output is the input"),
];

#[test]
fn of_the_converter(rt: HostRuntime) -> Result<(), Fail> {
    for (error, want) in &WAV_ERRORS {
        assert!(rt; says(rt.alloc(), error, *want)?, "{want}");
    }
    Ok(())
}

// Whether that is what is said of an input whose read fails in this way.
fn says_of_read(alloc: Global, kind: ErrorKind) -> Result<bool, AllocError> {
    let want = format!(in alloc; "{}", io::Error::from(kind))?;
    let head = error_text(alloc, Part::Head, &Error::IoError(io::Error::from(kind)))?;
    let frame = error_text(alloc, Part::Frame, &Error::IoError(io::Error::from(kind)))?;
    Ok(head.as_str() == want.as_str() && frame.as_str() == want.as_str())
}

// A failed read isn't called an end.
#[test]
fn of_failed_reads(rt: HostRuntime) -> Result<(), Fail> {
    assert!(rt; says_of_read(rt.alloc(), ErrorKind::Interrupted)?);
    assert!(rt; says_of_read(rt.alloc(), ErrorKind::TimedOut)?);
    assert!(rt; says_of_read(rt.alloc(), ErrorKind::InvalidData)?);
    Ok(())
}

// An `IoError` prints its cause.
#[test]
fn of_the_source(rt: HostRuntime) -> Result<(), Fail> {
    for kind in [
        ErrorKind::UnexpectedEof,
        ErrorKind::InvalidData,
        ErrorKind::NotFound,
    ] {
        let cause = io::Error::from(kind);
        let text = format!(in rt.alloc(); "{cause}")?;
        let error = Error::IoError(cause);
        assert!(rt; says(rt.alloc(), &error, text.as_str())?, "{text}");
        let error = wav::Error::Claxon(error);
        assert!(rt; says(rt.alloc(), &error, text.as_str())?, "{text}");
    }
    Ok(())
}

fn is_written_as<T: Debug>(alloc: Global, value: &T, want: &str) -> Result<bool, AllocError> {
    Ok(format!(in alloc; "{value:?}")?.as_str() == want)
}

#[rattlefmt::skip]
const FORMS: [(Error, &str); 3] = [
    (Error::FormatError("frame CRC mismatch"), "FormatError(\"frame CRC mismatch\")"),
    (Error::Unsupported("header without bits per sample info"), "Unsupported(\"header without bits per sample info\")"),
    (Error::OutOfMemory, "OutOfMemory"),
];

#[test]
fn errors_in_programs(rt: HostRuntime) -> Result<(), Fail> {
    for (error, want) in &FORMS {
        assert!(rt; is_written_as(rt.alloc(), error, *want)?, "{want}");
    }
    let cause = io::Error::from(ErrorKind::UnexpectedEof);
    let text = format!(in rt.alloc(); "IoError({cause:?})")?;
    assert!(rt;
        is_written_as(rt.alloc(), &Error::IoError(cause), text.as_str())?,
        "{text}"
    );
    Ok(())
}

const STREAMINFO: &str =
    "StreamInfo { min_block_size: 16, max_block_size: 16, min_frame_size: None, max_frame_size: None, \
sample_rate: 44100, channels: 1, bits_per_sample: 8, samples: Some(1), md5sum: [0, 0, 0, 0, 0, 0, 0, 0, 0, 0, 0, 0, 0, 0, 0, 0] }";

#[test]
fn values_in_programs(rt: HostRuntime) -> Result<(), Fail> {
    let flac = FlacReader::new(rt.alloc(), Cursor::new(two_frames(0x58)))?;
    assert!(rt; is_written_as(rt.alloc(), &flac.streaminfo(), STREAMINFO)?);
    let options = FlacReaderOptions::default();
    let want = "FlacReaderOptions { metadata_only: false, read_vorbis_comment: true }";
    assert!(rt; is_written_as(rt.alloc(), &options, want)?);
    Ok(())
}
