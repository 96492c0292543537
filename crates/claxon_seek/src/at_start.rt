//! What bytes in memory begin with: a head, a frame's header, a frame.
ghost use Rattle.std.specs.Prelude.{◌≡◌, IfSome};
ghost use Rattle.std.specs.Option.{option_map};
ghost use Rattle.std.specs.Io.Cursor.{cursor_inner, cursor_position};
ghost use Rattle.claxon.specs.Cursor.{cursor_left};
ghost use Rattle.claxon.specs.ReadHead.{head_view};
ghost use Rattle.claxon.specs.ShownHead.{HasBitDepth};
ghost use Rattle.claxon.specs.FrameReader.{frame_input, frame_stream, stream_with};
ghost use Rattle.claxon.specs.Promises.{IsOutOfMemory};
ghost use Rattle.claxon.specs.StartedFrame.{whole_answer};
ghost use Rattle.claxon_seek.specs.BlockMemory.{MemoryIsCounted};
ghost use Rattle.claxon_seek.specs.AtStart.{
  FaultIsTaken,
  FoundHeaderIsThere,
  FrameAtStart,
  HeadAtStart,
  HeaderAtStart,
  HeaderIsThere,
  header_of_length,
  header_said,
  said_by,
};

use crate::memory::BlockMemory;
use claxon::frame::{Block, BlockInfo, FrameReader, FrameResult, StartedFrame};
use claxon::metadata::{StreamInfo, VorbisComment};
use claxon::{Error, FlacReaderOptions, Result, read_head};
use std::alloc::Global;
use std::io::Cursor;

/// The head that the bytes begin with, and in `taken` its number of bytes.
///
/// # Errors
///
/// Those of `read_head`.
pub fn head_at_start(
    alloc: Global,
    bytes: &[u8],
    taken: &mut usize,
) -> Result<(StreamInfo, Option<VorbisComment>)>
    ensures at_start { HeadAtStart head_view bytes.now result taken.new }
{
    let options = FlacReaderOptions {
        metadata_only: false,
        read_vorbis_comment: true,
    };
    let mut input = Cursor::new(bytes);
    let head = read_head(alloc, &mut input, options);
    *taken = bytes.len().saturating_sub(left_in(&input));
    head
}

/// The block of the frame that the bytes begin with, and in `taken` the frame's number of bytes.
///
/// # Errors
///
/// Those of `FrameReader::read_next_or_eof`.
pub fn block_at_start(
    alloc: Global,
    bytes: &[u8],
    known: Option<StreamInfo>,
    taken: &mut usize,
) -> FrameResult
    requires { IfSome known (λ info. HasBitDepth info) }
    ensures at_start { FrameAtStart (option_map stream_with known) bytes.now result taken.new }
{
    let mut frames = frames_of(bytes, known);
    let found = frames.read_next_or_eof(Vec::new(alloc));
    *taken = bytes.len().saturating_sub(left_in(&frames.into_inner()));
    found
}

/// The header of a frame that bytes begin with.
#[derive(Clone, Copy)]
pub struct HeaderInBytes {
    started: StartedFrame,

    // The number of its bytes.
    len: usize,
}

impl HeaderInBytes {
    /// What it says of the block.
    pub fn info(self) -> BlockInfo
        ensures { result ≡ said_by self }
    {
        self.started.info()
    }
}

/// The frame header that the bytes begin with. `rest_at_start` decodes the frame.
///
/// # Errors
///
/// Those of `FrameReader::read_start_or_eof`.
pub fn header_at_start(bytes: &[u8], known: Option<StreamInfo>) -> Result<Option<HeaderInBytes>>
    requires { IfSome known (λ info. HasBitDepth info) }
    ensures at_start { HeaderAtStart (option_map stream_with known) bytes.now (header_said result) }
    ensures is_there { FoundHeaderIsThere (option_map stream_with known) bytes.now result }
    ensures never_out_of_memory { IsOutOfMemory result → ⊥ }
{
    let mut frames = frames_of(bytes, known);
    let found = frames.read_start_or_eof();
    let len = bytes.len().saturating_sub(left_in(&frames.into_inner()));
    with_length(found, len)
}

// With the number of bytes of the header.
fn with_length(found: Result<Option<StartedFrame>>, len: usize) -> Result<Option<HeaderInBytes>>
    ensures { result ≡ header_of_length found len }
{
    match found {
        Ok(Some(started)) => Ok(Some(HeaderInBytes { started, len })),
        Ok(None) => Ok(None),
        Err(error) => Err(error),
    }
}

/// The block of the frame whose header the bytes begin with, and in `taken` the number of bytes of the frame or of its fault. The
/// header isn't read again.
///
/// # Errors
///
/// Those of `FrameReader::read_rest`.
pub fn rest_at_start(
    memory: &mut BlockMemory,
    bytes: &[u8],
    known: Option<StreamInfo>,
    header: HeaderInBytes,
    taken: &mut usize,
) -> Result<Block>
    requires depth { IfSome known (λ info. HasBitDepth info) }
    requires is_there { HeaderIsThere (option_map stream_with known) bytes.now header }
    ensures at_start { FrameAtStart (option_map stream_with known) bytes.now
        (whole_answer result) taken.new }
    ensures fault_is_taken { FaultIsTaken (option_map stream_with known) bytes.now result
        taken.new }
    ensures memory_is_counted { MemoryIsCounted result memory.old memory.new }
{
    let mut frames = frames_of(&bytes[header.len..], known);
    let info = header.started.info();
    let Some(buffer) = memory.request(info.channels as usize * info.duration as usize) else {
        return Err(Error::OutOfMemory);
    };
    let block = frames.read_rest(header.started, buffer);
    let left = left_in(&frames.into_inner());
    *taken = bytes.len().saturating_sub(left);
    block
}

// A reader of the frames in the bytes.
fn frames_of(bytes: &[u8], known: Option<StreamInfo>) -> FrameReader<Cursor<&[u8]>>
    requires { IfSome known (λ info. HasBitDepth info) }
    ensures position { cursor_position (frame_input result) ≡ 0 }
    ensures inner { cursor_inner (frame_input result) ≡ bytes.entry }
    ensures stream { frame_stream result ≡ option_map stream_with known }
{
    let input = Cursor::new(bytes);
    match known {
        Some(info) => FrameReader::with_streaminfo(input, info),
        None => FrameReader::new(input),
    }
}

// The number of bytes that it hasn't given.
fn left_in(input: &Cursor<&[u8]>) -> usize
    ensures { result ≡ cursor_left (λ slice. slice.now) input.now }
{
    input
        .get_ref()
        .len()
        .saturating_sub(input.position() as usize)
}
