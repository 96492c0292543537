//! Frames in memory.
ghost use Rattle.std.specs.Prelude.{◌≤◌, None, Some};
ghost use Rattle.claxon.specs.FrameReader.{stream_with};
ghost use Rattle.claxon.specs.FramesInMemory.{
  SliceFrameIsSound,
  SliceFrameIsComplete,
  SliceFrameFaultIsComplete,
  SliceFrameFaultIsSound,
  SliceFrameNoneIffEof,
  SliceFrameOutOfMemoryAfterHeader,
};
ghost use Rattle.claxon_uses.specs.Packets.{
  PacketFaultIsComplete,
  PacketIsComplete,
  PacketIsSound,
  PacketFaultIsSound,
  PacketOutOfMemoryAfterHeader,
};

use claxon::frame::{FrameReader, FrameResult};
use claxon::metadata::StreamInfo;
use claxon::{Block, Error, Result};
use std::alloc::Allocator;
use std::io::Cursor;

/// The block of the frame that the bytes begin with; None where they are fewer than two.
///
/// The header has to give the bit depth, since nothing is known of the stream. What follows the frame is ignored. An
/// error names the fault that the bytes begin with; it is an `IoError` where they end within the frame.
pub fn decode_one<A: Allocator>(alloc: A, bytes: &[u8]) -> FrameResult<A>
    ensures is_sound { SliceFrameIsSound None bytes.now result }
    ensures is_complete { SliceFrameIsComplete None bytes.now result }
    ensures none_iff_eof { SliceFrameNoneIffEof bytes.now result }
    ensures fault_is_sound { SliceFrameFaultIsSound None bytes.now result }
    ensures fault_is_complete { SliceFrameFaultIsComplete None bytes.now result }
    ensures out_of_memory_after_header { SliceFrameOutOfMemoryAfterHeader None bytes.now result }
{
    let mut frames = FrameReader::new(Cursor::new(bytes));
    frames.read_next_or_eof(Vec::new(alloc))
}

/// The block of a packet, as of Ogg or MP4, that is a whole frame of the stream with this streaminfo, in the buffer's
/// memory where it suffices.
///
/// An error names the fault that the packet begins with, or says that it holds less or more than a frame.
pub fn decode_packet<A: Allocator>(
    info: StreamInfo,
    packet: &[u8],
    buffer: Vec<i32, A>,
) -> Result<Block<A>>
    requires min_bit_depth { 1 ≤ info.bits_per_sample }
    requires max_bit_depth { info.bits_per_sample ≤ 32 }
    ensures is_sound { PacketIsSound (Some (stream_with info)) packet.now result }
    ensures is_complete { PacketIsComplete (Some (stream_with info)) packet.now result }
    ensures fault_is_sound { PacketFaultIsSound (Some (stream_with info)) packet.now result }
    ensures fault_is_complete { PacketFaultIsComplete (Some (stream_with info)) packet.now result }
    ensures out_of_memory_after_header { PacketOutOfMemoryAfterHeader (Some (stream_with info))
        packet.now result }
{
    let mut frames = FrameReader::with_streaminfo(Cursor::new(packet), info);
    let Some(block) = frames.read_next_or_eof(buffer)? else {
        return Err(Error::FormatError("packet without a frame"));
    };
    let cursor = frames.into_inner();
    let slice = *cursor.get_ref();
    if cursor.position() < slice.len() as u64 {
        return Err(Error::FormatError("packet of more than a frame"));
    }
    Ok(block)
}
