//! Reading frames: their blocks, what their headers say, and whether one is refused because its samples have 32 bits.
ghost use Rattle.std.specs.Prelude.{◌≡◌, ◌≤◌, ◌↔◌, IsTrue, Some, vec_capacity};
ghost use Rattle.claxon.specs.DecodedFrame.{FrameWithHeader, decoded_view, frame_answer};
ghost use Rattle.claxon.specs.Error.{IsFault};
ghost use Rattle.claxon.specs.Fault.{BitDepthReserved};
ghost use Rattle.claxon.specs.FrameReader.{
  BlockHasSamples,
  BlockKeepsCapacity,
  OutOfMemoryBeyondCapacity,
  ReadsFrame,
  stream_with,
};
ghost use Rattle.claxon.specs.Header.{says_32_bits};
ghost use Rattle.claxon.specs.Promises.{FoundIsSound};
ghost use Rattle.claxon.specs.State.{bytes_in};
ghost use Rattle.claxon_blocks.specs.Frames.{
  IsOf32Bits,
  KeepsFirstBytes,
  StreamBlockIsRead,
  StreamBlockOutOfMemoryAfterHeader,
  StreamFrameHasHeader,
  StreamFrameIsRead,
  StreamFrameOutOfMemoryAfterHeader,
  TellsOf32Bits,
  answer_of,
  decoder_answer,
  frame_block,
};

use claxon::fault_texts::RESERVED_HEADER_VALUE;
use claxon::frame::{DecodedFrame, DecodedFrameResult, FrameReader};
use claxon::input::ReadBytes;
use claxon::metadata::StreamInfo;
use claxon::running::RunningReader;
use claxon::{Block, Error};
use std::alloc::Allocator;
use std::result;

mod first_bytes;

pub use first_bytes::FirstBytes;

/// What is said of a frame whose samples have 32 bits.
pub const UNSUPPORTED_32_BIT: &str = "32-bit samples are not supported";

/// Why a frame isn't decoded.
#[derive(Debug, Drop)]
pub struct FrameError {
    /// The decoder's error.
    pub error: Error,
    /// It is refused because of the bit depth code for 32 bits, which was reserved in earlier editions of the format.
    pub is_32_bit: bool,
    /// The first bytes that the decoder read.
    pub first: FirstBytes,
}

/// Reads the next frame of the stream with this streaminfo, as `FrameReader::read_next_with_info_or_eof` does.
pub fn read_frame<R: ReadBytes, A: Allocator>(
    input: &mut R,
    info: StreamInfo,
    buffer: Vec<i32, A>,
) -> result::Result<Option<DecodedFrame<A>>, FrameError>
    requires min_bit_depth { 1 ≤ info.bits_per_sample }
    requires max_bit_depth { info.bits_per_sample ≤ 32 }
    ensures is_read { StreamFrameIsRead R.source info input.old result input.new }
    ensures has_header { StreamFrameHasHeader R.source info input.old result input.new }
    ensures tells_of_32_bits { TellsOf32Bits result (bytes_in R.source input.old) }
    ensures keeps_first_bytes { KeepsFirstBytes result
        (bytes_in R.source input.old) (bytes_in R.source input.new) }
    ensures has_samples { BlockHasSamples (decoder_answer frame_block result) }
    ensures out_of_memory_after_header { StreamFrameOutOfMemoryAfterHeader R.source info
        input.old (vec_capacity buffer) result input.new }
    ensures keeps_capacity { BlockKeepsCapacity (vec_capacity buffer)
        (decoder_answer frame_block result) }
{
    let mut input = RunningReader::new(input);
    let found = read_from(&mut input, info, buffer);
    let first = input.value();
    match found {
        Ok(frame) => Ok(frame),
        Err(error) => {
            let is_32_bit = is_32_bit_fault(&error, first);
            Err(FrameError {
                error,
                is_32_bit,
                first,
            })
        }
    }
}

/// Reads the next block of the stream with this streaminfo, as `FrameReader::read_next_or_eof` does.
pub fn read_block<R: ReadBytes, A: Allocator>(
    input: &mut R,
    info: StreamInfo,
    buffer: Vec<i32, A>,
) -> result::Result<Option<Block<A>>, FrameError>
    requires min_bit_depth { 1 ≤ info.bits_per_sample }
    requires max_bit_depth { info.bits_per_sample ≤ 32 }
    ensures is_read { StreamBlockIsRead R.source info input.old result input.new }
    ensures tells_of_32_bits { TellsOf32Bits result (bytes_in R.source input.old) }
    ensures keeps_first_bytes { KeepsFirstBytes result
        (bytes_in R.source input.old) (bytes_in R.source input.new) }
    ensures has_samples { BlockHasSamples (answer_of result) }
    ensures out_of_memory_after_header { StreamBlockOutOfMemoryAfterHeader R.source info
        input.old (vec_capacity buffer) result input.new }
    ensures keeps_capacity { BlockKeepsCapacity (vec_capacity buffer) (answer_of result) }
{
    match read_frame(input, info, buffer)? {
        Some(frame) => Ok(Some(frame.block)),
        None => Ok(None),
    }
}

// The next frame of this input.
//
// The `FrameReader` is made here: the prover loses the shape of a wrapper around another one that is made in the same function.
fn read_from<R: ReadBytes, A: Allocator>(
    input: &mut R,
    info: StreamInfo,
    buffer: Vec<i32, A>,
) -> DecodedFrameResult<A>
    requires min_bit_depth { 1 ≤ info.bits_per_sample }
    requires max_bit_depth { info.bits_per_sample ≤ 32 }
    ensures reads_frame { ReadsFrame (Some (stream_with info)) (frame_answer result)
        (bytes_in R.source input.old) (bytes_in R.source input.new) }
    ensures is_sound { FoundIsSound decoded_view result (FrameWithHeader (Some (stream_with info)))
        (bytes_in R.source input.old) (bytes_in R.source input.new) }
    ensures has_samples { BlockHasSamples (frame_answer result) }
    ensures out_of_memory_after_header { OutOfMemoryBeyondCapacity (Some (stream_with info))
        (vec_capacity buffer) (frame_answer result)
        (bytes_in R.source input.old) (bytes_in R.source input.new) }
    ensures keeps_capacity { BlockKeepsCapacity (vec_capacity buffer) (frame_answer result) }
{
    let mut frames = FrameReader::with_streaminfo(input, info);
    frames.read_next_with_info_or_eof(buffer)
}

/// Whether a frame with this error and these first bytes is refused because of the bit depth code for 32 bits.
pub fn is_32_bit_fault(error: &Error, first: FirstBytes) -> bool
    ensures is_of_32_bits { IsTrue result ↔ IsOf32Bits error.now first }
{
    is_reserved_value(error) && first.has_four() && says_32_bits(first.first_four())
}

// Whether the error says of a frame's header that a value in it is reserved.
fn is_reserved_value(error: &Error) -> bool
    ensures { IsTrue result ↔ IsFault BitDepthReserved error.now }
{
    matches!(error, Error::FormatError(RESERVED_HEADER_VALUE))
}

// Whether four bytes, as a number, begin such a header, and nothing in them before that code is reserved.
fn says_32_bits(header: u32) -> bool
    ensures { result ≡ says_32_bits header }
{
    header >> 17 == 0x7ffc
        && header >> 12 & 0b1111 != 0
        && header >> 8 & 0b1111 != 15
        && (header >> 4 & 0b1111) < 11
        && header >> 1 & 0b111 == 7
}
