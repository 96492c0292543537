//! Frames: blocks of samples, one after another.
ghost use Rattle.std.specs.Prelude.{
  ◌≡◌,
  ◌*◌,
  ◌<◌,
  ◌≤◌,
  true,
  IfOk,
  IfErr,
  Some,
  None,
  length,
  vec_len,
  vec_capacity,
};
ghost use Rattle.claxon_format.specs.read.Frame.{block_from, frame_bytes_at};
ghost use Rattle.claxon_frame.specs.Block.{max_block_samples};
ghost use Rattle.claxon_format.specs.Streams.{duration_of};
ghost use Rattle.claxon_input.specs.Error.{is_out_of_memory};
ghost use Rattle.claxon_format.specs.Fault.{FrameCrc};
ghost use Rattle.claxon_format.specs.read.Bytes.{crc_at};
ghost use Rattle.claxon_input.specs.RunningReader.{running_value};
ghost use Rattle.claxon_input.specs.State.{bytes_in};
ghost use Rattle.claxon_input.specs.Gives.{Gives, GivesOrEofOrOutOfMemory, GivesOrOutOfMemory};
ghost use Rattle.claxon_input.specs.Promises.{IfOutOfMemory};
ghost use Rattle.claxon_frame.specs.BlockInfo.{HasBlockBounds, SaysBlock, info_of_header};
ghost use Rattle.claxon_frame.specs.DecodedFrame.{
  DecodedSaysBlock,
  InfoIsRead,
  frame_answer,
  header_answer,
};
ghost use Rattle.claxon_frame.specs.FrameCrc.{crc16_bytes};
ghost use Rattle.claxon_frame.specs.FrameStart.{stream_format_view, start_view};
ghost use Rattle.claxon_frame.specs.FrameReader.{
  BlockHasSamples,
  BlockKeepsCapacity,
  BufferTooSmall,
  block_view,
};
ghost use Rattle.claxon_frame.specs.StartedFrame.{
  RestHasSamples,
  RestIsSaid,
  RestKeepsCapacity,
  RestTooSmall,
  rest_at,
  started_view,
};
ghost use Rattle.claxon_frame.specs.Subframes.{SubframesAreRead, channels_in, sample_count};

mod block;
mod decoded;
mod header;
mod info;
mod started;
mod stereo;

pub use block::{Block, StereoSamples};
use claxon_input::crc::Crc16Reader;
use claxon_input::error::{Error, Result};
use claxon_input::input::{Bitstream, ReadBytes};
use claxon_metadata::metadata::StreamInfo;
use claxon_subframe::subframe;
pub use decoded::{DecodedFrame, DecodedFrameResult};
pub use header::{RESERVED_HEADER_VALUE, SIDE_TOO_WIDE, SYNC_CODE_MISSING};
use header::{FrameHeader, KnownStreamFormat};
pub use info::BlockInfo;
use info::read_block_info_or_eof;
pub use started::StartedFrame;
use started::read_started_or_eof;
use std::alloc::{Allocator, Global};
use stereo::undo_decorrelation;

/// The text of the error for a frame whose CRC-16 is another than that of its bytes.
pub const FRAME_CRC_MISMATCH: &str = "frame CRC mismatch";

/// Reads frames one after another.
///
/// Each call starts at the current position of the input, where a frame header is to be: no sync code is searched for. A
/// container with a packet for each frame, such as Ogg or MP4, has a reader over each packet.
#[derive(Drop)]
pub struct FrameReader<R> {
    input: R,
    stream: Option<KnownStreamFormat>,
}

/// A block, None at the end of the input, or an error.
pub type FrameResult<A = Global> = Result<Option<Block<A>>>;

impl<R: ReadBytes> FrameReader<R> {
    ghost use Rattle.claxon_frame.specs.BlockInfo.{
      HasBlockBounds,
      HeaderElseIoError,
      HeaderEofIsNone,
      HeaderFailureIsErr,
      HeaderFaultIsComplete,
      HeaderFaultIsSound,
      HeaderIsComplete,
      HeaderIsRead,
      HeaderIsSound,
      HeaderIsUnambiguous,
      HeaderLeavesRest,
      HeaderNoneIsEof,
    };
    ghost use Rattle.claxon_frame.specs.DecodedFrame.{
      DecodedIsComplete,
      DecodedIsSound,
      DecodedIsUnambiguous,
      DecodedOutOfMemoryAfterHeader,
      DecodedReadsFrame,
      DecodedSaysBlock,
      frame_answer,
      header_answer,
    };
    ghost use Rattle.claxon_subframe.specs.Decode.{NeverOutOfMemory};
    ghost use Rattle.claxon_frame.specs.StartedFrame.{
      RestElseIoError,
      RestFailureIsErr,
      RestFaultIsComplete,
      RestFaultIsSound,
      RestHasSamples,
      RestIsComplete,
      RestIsRead,
      RestIsSaid,
      RestIsSound,
      RestKeepsCapacity,
      RestLeavesRest,
      RestMaxCapacityIsEnough,
      RestOutOfMemoryKeepsBytes,
      RestReadsFrame,
      StartElseIoError,
      StartEofIsNone,
      StartFailureIsErr,
      StartFaultIsComplete,
      StartFaultIsSound,
      StartIsComplete,
      StartIsRead,
      StartIsSound,
      StartIsUnambiguous,
      StartLeavesRest,
      StartNoneIsEof,
    };
    ghost use Rattle.claxon_frame.specs.FrameReader.{
      BlockHasSamples,
      BlockKeepsCapacity,
      FrameFaultIsComplete,
      FrameIsComplete,
      FailureIsErr,
      FrameFaultIsSound,
      FrameIsRead,
      FrameIsUnambiguous,
      FrameLeavesRest,
      FrameIsSound,
      FrameElseIoError,
      FrameNoneIsEof,
      PlansHaveBytes,
      PlansWriteFrames,
      FrameOutOfMemoryAfterHeader,
      MaxCapacityIsEnough,
      FrameEofIsNone,
      frame_input,
      frame_stream,
      stream_with,
    };

    /// A reader that knows nothing of the stream: each frame header has to give the bit depth.
    pub fn new(input: R) -> FrameReader<R>
        ensures input { frame_input result ≡ input }
        ensures stream { frame_stream result ≡ None }
    {
        FrameReader {
            input,
            stream: None,
        }
    }

    /// A reader of the frames of the stream with this streaminfo, which has 1 to 32 bits per sample.
    pub fn with_streaminfo(input: R, info: StreamInfo) -> FrameReader<R>
        requires min_bit_depth { 1 ≤ info.bits_per_sample }
        requires max_bit_depth { info.bits_per_sample ≤ 32 }
        ensures input { frame_input result ≡ input }
        ensures stream { frame_stream result ≡ Some (stream_with info) }
    {
        FrameReader {
            input,
            stream: Some(KnownStreamFormat {
                bit_depth: info.bits_per_sample,
                min_block_size: info.min_block_size,
                max_block_size: info.max_block_size,
            }),
        }
    }

    /// Reads the next block, into the buffer's memory if it is large enough.
    ///
    /// None if fewer than two bytes are left, which are consumed. The samples don't depend on the buffer's contents, length and
    /// capacity. Nothing is allocated if the capacity is at least channels times block size. (RFC 9639, section 9.)
    ///
    /// ```
    /// while let Some(block) = frames.read_next_or_eof(buffer)? {
    ///     // block.channel(0), block.time() ..
    ///     buffer = block.into_buffer();
    /// }
    /// ```
    ///
    /// # Errors
    ///
    /// `FormatError` if the bytes aren't a frame, also if a CRC is wrong; `Unsupported` for a frame that isn't decoded: a bit
    /// depth that neither header nor streaminfo gives, a side channel of 33 bits, a negative shift. `IoError` if the source
    /// fails or ends inside the frame. `OutOfMemory`, after the header was consumed, if the buffer is too small and memory for
    /// a larger one is refused. After an error the next call starts at the first byte that wasn't consumed.
    pub fn read_next_or_eof<A: Allocator>(&mut self, buffer: Vec<i32, A>) -> FrameResult<A>
        // What it returns, and consumes.
        ensures is_sound { FrameIsSound R.source self.old result self.new }
        ensures is_complete { FrameIsComplete R.source self.old result self.new }
        ensures none_is_eof { FrameNoneIsEof R.source self.old result self.new }
        ensures eof_is_none { FrameEofIsNone R.source self.old result self.new }
        ensures failure_is_err { FailureIsErr R.source self.old result self.new }
        ensures fault_is_sound { FrameFaultIsSound R.source self.old result self.new }
        ensures fault_is_complete { FrameFaultIsComplete R.source self.old result self.new }
        ensures else_io_error { FrameElseIoError R.source self.old result self.new }
        ensures leaves_rest { FrameLeavesRest R.source self.old result self.new }
        // What the definitions say.
        ensures is_unambiguous { FrameIsUnambiguous (frame_stream self.old) }
        ensures plans_write_frames { PlansWriteFrames (frame_stream self.old) }
        ensures plans_have_bytes { PlansHaveBytes (frame_stream self.old) }
        // Memory.
        ensures out_of_memory_after_header { FrameOutOfMemoryAfterHeader R.source
            (vec_capacity buffer) self.old result self.new }
        ensures max_capacity_is_enough { MaxCapacityIsEnough (vec_capacity buffer) result }
        ensures keeps_capacity { BlockKeepsCapacity (vec_capacity buffer) result }
        // What callers' proofs need.
        ensures stream { frame_stream self.new ≡ frame_stream self.old }
        ensures has_samples { BlockHasSamples result }
        ensures is_read { FrameIsRead R.source self.old result self.new }
    {
        without_info(read_frame_exact(&mut self.input, self.stream, buffer))
    }

    /// Reads the next block as `read_next_or_eof` does, and gives what its header says with it.
    ///
    /// So the header is read once, where both are needed. (RFC 9639, section 9.)
    ///
    /// # Errors
    ///
    /// Those of `read_next_or_eof`.
    pub fn read_next_with_info_or_eof<A: Allocator>(
        &mut self,
        buffer: Vec<i32, A>,
    ) -> DecodedFrameResult<A>
        // What it returns, and consumes.
        ensures is_sound { DecodedIsSound R.source self.old result self.new }
        ensures is_complete { DecodedIsComplete R.source self.old result self.new }
        ensures none_is_eof { FrameNoneIsEof R.source self.old (frame_answer result) self.new }
        ensures eof_is_none { FrameEofIsNone R.source self.old (frame_answer result) self.new }
        ensures failure_is_err { FailureIsErr R.source self.old (frame_answer result) self.new }
        ensures fault_is_sound { FrameFaultIsSound R.source self.old (frame_answer result)
            self.new }
        ensures fault_is_complete { FrameFaultIsComplete R.source self.old (frame_answer result)
            self.new }
        ensures else_io_error { FrameElseIoError R.source self.old (frame_answer result) self.new }
        ensures leaves_rest { FrameLeavesRest R.source self.old (frame_answer result) self.new }
        // What the definitions say.
        ensures is_unambiguous { DecodedIsUnambiguous (frame_stream self.old) }
        // Memory.
        ensures out_of_memory_after_header { DecodedOutOfMemoryAfterHeader R.source
            (vec_capacity buffer) self.old result self.new }
        ensures max_capacity_is_enough { MaxCapacityIsEnough (vec_capacity buffer)
            (frame_answer result) }
        ensures keeps_capacity { BlockKeepsCapacity (vec_capacity buffer) (frame_answer result) }
        // What callers' proofs need.
        ensures stream { frame_stream self.new ≡ frame_stream self.old }
        ensures has_samples { BlockHasSamples (frame_answer result) }
        ensures has_block_bounds { HasBlockBounds (header_answer result) }
        ensures says_block { DecodedSaysBlock result }
        ensures reads_frame { DecodedReadsFrame R.source self.old result self.new }
    {
        read_frame_exact(&mut self.input, self.stream, buffer)
    }

    /// Reads the header of the next frame alone, with its CRC-8, and says what it says of the block.
    ///
    /// So the size of a block is known before its samples are decoded. The subframes aren't read: the next call starts after
    /// the header. To decode the frame, read it from its first byte. None if fewer than two bytes are left, which are consumed.
    /// (RFC 9639, section 9.1.)
    ///
    /// # Errors
    ///
    /// `FormatError` if the bytes aren't a header, also if the CRC is wrong; `Unsupported` for a bit depth that neither header
    /// nor streaminfo gives, or a side channel of 33 bits. `IoError` if the source fails or ends inside the header. Never
    /// `OutOfMemory`. After an error the next call starts at the first byte that wasn't consumed.
    pub fn read_header_or_eof(&mut self) -> Result<Option<BlockInfo>>
        ensures stream { frame_stream self.new ≡ frame_stream self.old }
        ensures has_block_bounds { HasBlockBounds result }
        ensures is_sound { HeaderIsSound R.source self.old result self.new }
        ensures is_complete { HeaderIsComplete R.source self.old result self.new }
        ensures is_unambiguous { HeaderIsUnambiguous (frame_stream self.old) }
        ensures none_is_eof { HeaderNoneIsEof R.source self.old result self.new }
        ensures eof_is_none { HeaderEofIsNone R.source self.old result self.new }
        ensures failure_is_err { HeaderFailureIsErr R.source self.old result self.new }
        ensures fault_is_sound { HeaderFaultIsSound R.source self.old result self.new }
        ensures fault_is_complete { HeaderFaultIsComplete R.source self.old result self.new }
        ensures else_io_error { HeaderElseIoError R.source self.old result self.new }
        ensures leaves_rest { HeaderLeavesRest R.source self.old result self.new }
        ensures never_out_of_memory { NeverOutOfMemory result }
        ensures is_read { HeaderIsRead R.source self.old result self.new }
    {
        read_block_info_or_eof(&mut self.input, self.stream)
    }

    /// Reads the header of the next frame, with its CRC-8. `read_rest` decodes the rest.
    ///
    /// So a caller sees what the header says before it decodes the frame, and the header is read once. None if fewer than two
    /// bytes are left, which are consumed. (RFC 9639, section 9.1.)
    ///
    /// # Errors
    ///
    /// Those of `read_header_or_eof`.
    pub fn read_start_or_eof(&mut self) -> Result<Option<StartedFrame>>
        ensures stream { frame_stream self.new ≡ frame_stream self.old }
        ensures is_sound { StartIsSound R.source self.old result self.new }
        ensures is_complete { StartIsComplete R.source self.old result self.new }
        ensures is_unambiguous { StartIsUnambiguous (frame_stream self.old) }
        ensures none_is_eof { StartNoneIsEof R.source self.old result self.new }
        ensures eof_is_none { StartEofIsNone R.source self.old result self.new }
        ensures failure_is_err { StartFailureIsErr R.source self.old result self.new }
        ensures fault_is_sound { StartFaultIsSound R.source self.old result self.new }
        ensures fault_is_complete { StartFaultIsComplete R.source self.old result self.new }
        ensures else_io_error { StartElseIoError R.source self.old result self.new }
        ensures leaves_rest { StartLeavesRest R.source self.old result self.new }
        ensures never_out_of_memory { NeverOutOfMemory result }
        ensures is_read { StartIsRead R.source self.old result self.new }
    {
        read_started_or_eof(&mut self.input, self.stream)
    }

    /// Reads the rest of the frame whose header `read_start_or_eof` has read last, into the buffer's memory if it is large
    /// enough.
    ///
    /// The block is that of `read_next_or_eof`: the CRC-16 is that of the header and the bytes after it. (RFC 9639, section 9.)
    ///
    /// # Errors
    ///
    /// Those of `read_next_or_eof` after a header. `OutOfMemory` consumes nothing, so the call can be made once more, with a
    /// larger buffer.
    pub fn read_rest<A: Allocator>(
        &mut self,
        started: StartedFrame,
        buffer: Vec<i32, A>,
    ) -> Result<Block<A>>
        // What it returns, and consumes.
        ensures is_sound { RestIsSound R.source self.old started result self.new }
        ensures is_complete { RestIsComplete R.source self.old started result self.new }
        ensures failure_is_err { RestFailureIsErr R.source self.old started result self.new }
        ensures fault_is_sound { RestFaultIsSound R.source self.old started result self.new }
        ensures fault_is_complete { RestFaultIsComplete R.source self.old started result self.new }
        ensures else_io_error { RestElseIoError R.source self.old started result self.new }
        ensures leaves_rest { RestLeavesRest R.source self.old started result self.new }
        // What the definitions say.
        ensures reads_frame { RestReadsFrame (frame_stream self.old) started }
        // Memory.
        ensures out_of_memory_keeps_bytes { RestOutOfMemoryKeepsBytes R.source
            (vec_capacity buffer) self.old started result self.new }
        ensures max_capacity_is_enough { RestMaxCapacityIsEnough (vec_capacity buffer) result }
        ensures keeps_capacity { RestKeepsCapacity (vec_capacity buffer) result }
        // What callers' proofs need.
        ensures stream { frame_stream self.new ≡ frame_stream self.old }
        ensures has_samples { RestHasSamples result }
        ensures is_said { RestIsSaid started result }
        ensures is_read { RestIsRead R.source self.old started result self.new }
    {
        read_rest_exact(&mut self.input, started, buffer)
    }

    /// The wrapped reader.
    pub fn into_inner(self) -> R
        ensures { result ≡ frame_input self }
    {
        let FrameReader { input, stream: _ } = self;
        input
    }
}

// `read_next_with_info_or_eof`, with its exact clauses.
fn read_frame_exact<R: ReadBytes, A: Allocator>(
    input: &mut R,
    stream: Option<KnownStreamFormat>,
    buffer: Vec<i32, A>,
) -> DecodedFrameResult<A>
    ensures gives { GivesOrEofOrOutOfMemory 2 block_view (frame_answer result)
        (frame_bytes_at (stream_format_view stream))
        (bytes_in R.source input.old) (bytes_in R.source input.new) }
    ensures info_is_read { InfoIsRead (stream_format_view stream) result
        (bytes_in R.source input.old) (bytes_in R.source input.new) }
    ensures has_samples { BlockHasSamples (frame_answer result) }
    ensures has_block_bounds { HasBlockBounds (header_answer result) }
    ensures says_block { DecodedSaysBlock result }
    ensures keeps_capacity { BlockKeepsCapacity (vec_capacity buffer) (frame_answer result) }
    ensures buffer_too_small { IfOutOfMemory (frame_answer result)
        (BufferTooSmall (stream_format_view stream) (vec_capacity buffer)
        (bytes_in R.source input.old) (bytes_in R.source input.new)) }
    ensures max_capacity { IfOutOfMemory (frame_answer result)
        (vec_capacity buffer < max_block_samples) }
{
    let Some(started) = read_started_or_eof(input, stream)? else {
        return Ok(None);
    };
    let block = read_rest_exact(input, started, buffer)?;
    let info = started.info();
    Ok(Some(DecodedFrame { info, block }))
}

// `read_rest`, with its exact clauses.
fn read_rest_exact<R: ReadBytes, A: Allocator>(
    input: &mut R,
    started: StartedFrame,
    buffer: Vec<i32, A>,
) -> Result<Block<A>>
    ensures gives { GivesOrOutOfMemory block_view result (rest_at (started_view started))
        (bytes_in R.source input.old) (bytes_in R.source input.new) }
    ensures has_samples { RestHasSamples result }
    ensures is_said { RestIsSaid started result }
    ensures keeps_capacity { RestKeepsCapacity (vec_capacity buffer) result }
    ensures too_small { IfOutOfMemory result
        (RestTooSmall (started_view started) (vec_capacity buffer)
        (bytes_in R.source input.old) (bytes_in R.source input.new)) }
    ensures max_capacity { IfOutOfMemory result (vec_capacity buffer < max_block_samples) }
{
    let mut input = Crc16Reader::resume(input, started.crc);
    let header = started.header;
    let samples = usize::from(header.channel_assignment.channels())
        * usize::from(header.block_size);
    let mut buffer = ensure_buffer_len(buffer, samples)?;
    decode_subframes(&mut input, &header, buffer.as_mut_slice())?;
    check_footer(&mut input)?;
    Ok(to_block(header, buffer))
}

// The block alone.
fn without_info<A: Allocator>(found: DecodedFrameResult<A>) -> FrameResult<A>
    ensures { result ≡ frame_answer found }
{
    match found {
        Ok(Some(frame)) => Ok(Some(frame.block)),
        Ok(None) => Ok(None),
        Err(error) => Err(error),
    }
}

// The block of the decoded subframes in the buffer: decorrelation is still to be undone.
fn to_block<A: Allocator>(header: FrameHeader, buffer: Vec<i32, A>) -> Block<A>
    requires { vec_len buffer ≡ sample_count header }
    ensures some { (1 ≤ length result.channels) × (1 ≤ duration_of result.channels) }
    ensures fits { length result.channels * duration_of result.channels ≤ result.capacity }
    ensures kept_capacity { result.capacity ≡ vec_capacity buffer }
    ensures says_block { SaysBlock (info_of_header header) (block_view result) }
    ensures value { block_view result
        ≡ block_from (start_view header) (channels_in header buffer.items) }
{
    let mut buffer = buffer;
    undo_decorrelation(header.channel_assignment, buffer.as_mut_slice());
    let channels = u32::from(header.channel_assignment.channels());
    Block::new(header.time, channels, u32::from(header.block_size), buffer)
}

// The buffer with `new_len` samples of any value. It grows only if its capacity is smaller.
fn ensure_buffer_len<A: Allocator>(buffer: Vec<i32, A>, new_len: usize) -> Result<Vec<i32, A>>
    ensures len { IfOk result (λ filled. vec_len filled ≡ new_len) }
    ensures kept_capacity { IfOk result (λ filled. vec_capacity buffer ≤ vec_capacity filled) }
    ensures refused { IfErr result (λ error. is_out_of_memory error ≡ true) }
    ensures small { IfErr result (λ error. vec_capacity buffer < new_len) }
{
    let mut buffer = buffer;
    if buffer.len() < new_len {
        buffer.resize(new_len, 0)?;
    } else {
        buffer.truncate(new_len);
    }
    Ok(buffer)
}

// The subframes of all channels, decoded into the buffer one after another, and the padding up to the next byte boundary, whose
// bits may have any value.
//
// The `Bitstream` is made here: the prover loses the shape of a wrapper around another one that is made in the same function, and
// the other one is the frame's CRC-16 reader.
#[tactic(auto, using(crate::proofs::SubframesInBuffer::channels_fit))]
fn decode_subframes<R: ReadBytes>(
    input: &mut R,
    header: &FrameHeader,
    buffer: &mut [i32],
) -> Result<()>
    requires { length buffer.old ≡ sample_count header.now }
    ensures are_read { SubframesAreRead R.source header.now input.old result input.new buffer.new }
{
    let mut bits = Bitstream::new(input);
    let assignment = header.channel_assignment;
    let size = usize::from(header.block_size);
    let mut start = 0;
    for ch in 0..assignment.channels() {
        let bit_depth = assignment.bit_depth(header.bit_depth, ch);
        subframe::decode(&mut bits, bit_depth, &mut buffer[start..start + size])?;
        start += size;
    }
    Ok(())
}

// The frame footer: the CRC-16 of all bytes of the frame before it.
#[tactic(auto, using(claxon_input::proofs::ByteFields::first_number), unfolding(claxon_format::specs::read::Bytes::crc_at, claxon_format::specs::Fault::fault_text))]
fn check_footer<R: ReadBytes>(input: &mut Crc16Reader<R>) -> Result<()>
    ensures fits { running_value input.old < 65536 }
    ensures gives { Gives (λ x. tt) result (crc_at 2 (running_value input.old) FrameCrc)
        (crc16_bytes R.source input.old) (crc16_bytes R.source input.new) }
{
    let computed = input.value();
    let stored = input.read_be_u16()?;
    if stored == computed {
        Ok(())
    } else {
        Err(Error::FormatError(FRAME_CRC_MISMATCH))
    }
}
