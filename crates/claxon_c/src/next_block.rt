//! Blocks, one after another.
ghost use Rattle.std.specs.Prelude.{◌↔◌, IsTrue, Some, length};
ghost use Rattle.claxon_c.specs.NextBlock.{
  BlockIsKept,
  BlockMemoryIsCounted,
  CBlockElseIoError,
  CBlockFaultIsComplete,
  CBlockFaultIsSound,
  CBlockIsComplete,
  CBlockIsShown,
  CBlockIsSound,
  CBlockNoMoreIffEof,
  CBlockOutOfMemoryAfterHeader,
  CFrameHeaderFaultIsComplete,
  CHeaderIsShown,
  CSamplesAreInterleaved,
  CSamplesArePlanar,
  CTooSmallIffLarger,
  HasLarger,
  NextBlock,
  PositionIsKept,
  ShowsInfo,
  TextIsKept,
};
ghost use Rattle.claxon_c.specs.Status.{TextIsReported};

use crate::heads::ClaxonInfo;
use crate::interleave::put_interleaved;
use crate::planar::put_planar;
use crate::status::{BUFFER_TOO_SMALL, NO_MORE, OK, report};
use claxon::Block;
use claxon::frame::BlockInfo;
use claxon_seek::{BlockMemory, header_at_start, rest_at_start};
use std::alloc::Global;

/// The properties of a block.
#[repr(C)]
#[derive(Clone, Copy)]
pub struct ClaxonBlock {
    /// The number of samples of each channel before it.
    pub time: u64,
    /// The number of channels.
    pub channels: u32,
    /// The number of samples of each channel.
    pub duration: u32,
    /// The sample rate in Hz, or 0 where the frame header leaves it to the streaminfo.
    pub sample_rate: u32,
    /// The bit depth, or 0 where the frame header leaves it to the streaminfo.
    pub bits_per_sample: u32,
}

impl ClaxonBlock {
    // What the header says.
    pub(crate) fn from_header(info: &BlockInfo) -> ClaxonBlock
        ensures shows_info { ShowsInfo info.now result }
    {
        ClaxonBlock {
            time: info.time,
            channels: info.channels,
            duration: info.duration,
            sample_rate: info.sample_rate.unwrap_or(0),
            bits_per_sample: info.header_bit_depth.unwrap_or(0),
        }
    }
}

/// Decodes the frame at the position into interleaved samples, and moves the position after it. Where the samples don't fit, no
/// more than the header is read.
#[unsafe(no_mangle)]
pub extern "C" fn claxon_next_block(
    alloc: Global,
    bytes: &[u8],
    at: &mut usize,
    info: &ClaxonInfo,
    samples: &mut [i32],
    block: &mut ClaxonBlock,
    error: &mut [u8],
) -> u32
    // What it returns, shows and stores.
    ensures is_sound { CBlockIsSound info.now bytes.now at.old result at.new }
    ensures is_complete { CBlockIsComplete info.now bytes.now at.old result }
    ensures no_more_iff_eof { CBlockNoMoreIffEof bytes.now at.old result }
    ensures too_small_iff_larger { CTooSmallIffLarger info.now bytes.now at.old result
        (length samples.old) }
    ensures is_shown { CBlockIsShown info.now bytes.now at.old result block.new }
    ensures header_is_shown { CHeaderIsShown info.now bytes.now at.old result block.new }
    ensures are_interleaved { CSamplesAreInterleaved info.now bytes.now at.old result
        samples.old samples.new }
    // Faults, and their texts.
    ensures fault_is_sound { CBlockFaultIsSound info.now bytes.now at.old result
        error.old error.new }
    ensures fault_is_complete { CBlockFaultIsComplete info.now bytes.now at.old result
        (length samples.old) error.old error.new }
    ensures header_fault_is_complete { CFrameHeaderFaultIsComplete info.now bytes.now at.old result
        error.old error.new }
    ensures else_io_error { CBlockElseIoError info.now bytes.now at.old result
        (length samples.old) }
    ensures text_is_reported { TextIsReported result error.old error.new }
    // Memory.
    ensures out_of_memory_after_header { CBlockOutOfMemoryAfterHeader info.now bytes.now at.old
        result }
    // What stays as it was.
    ensures position_is_kept { PositionIsKept result at.old at.new samples.old samples.new }
    ensures block_is_kept { BlockIsKept result block.old block.new }
    ensures text_is_kept { TextIsKept result error.old error.new }
{
    let mut memory = BlockMemory::new(alloc);
    match next_block(&mut memory, bytes, at, info, samples.len(), block, error) {
        Ok(found) => {
            put_interleaved(&found, samples);
            OK
        }
        Err(status) => status,
    }
}

/// As `claxon_next_block`, with the samples of one channel after those of another.
#[unsafe(no_mangle)]
pub extern "C" fn claxon_next_block_planar(
    alloc: Global,
    bytes: &[u8],
    at: &mut usize,
    info: &ClaxonInfo,
    samples: &mut [i32],
    block: &mut ClaxonBlock,
    error: &mut [u8],
) -> u32
    // What it returns, shows and stores.
    ensures is_sound { CBlockIsSound info.now bytes.now at.old result at.new }
    ensures is_complete { CBlockIsComplete info.now bytes.now at.old result }
    ensures no_more_iff_eof { CBlockNoMoreIffEof bytes.now at.old result }
    ensures too_small_iff_larger { CTooSmallIffLarger info.now bytes.now at.old result
        (length samples.old) }
    ensures is_shown { CBlockIsShown info.now bytes.now at.old result block.new }
    ensures header_is_shown { CHeaderIsShown info.now bytes.now at.old result block.new }
    ensures are_planar { CSamplesArePlanar info.now bytes.now at.old result
        samples.old samples.new }
    // Faults, and their texts.
    ensures fault_is_sound { CBlockFaultIsSound info.now bytes.now at.old result
        error.old error.new }
    ensures fault_is_complete { CBlockFaultIsComplete info.now bytes.now at.old result
        (length samples.old) error.old error.new }
    ensures header_fault_is_complete { CFrameHeaderFaultIsComplete info.now bytes.now at.old result
        error.old error.new }
    ensures else_io_error { CBlockElseIoError info.now bytes.now at.old result
        (length samples.old) }
    ensures text_is_reported { TextIsReported result error.old error.new }
    // Memory.
    ensures out_of_memory_after_header { CBlockOutOfMemoryAfterHeader info.now bytes.now at.old
        result }
    // What stays as it was.
    ensures position_is_kept { PositionIsKept result at.old at.new samples.old samples.new }
    ensures block_is_kept { BlockIsKept result block.old block.new }
    ensures text_is_kept { TextIsKept result error.old error.new }
{
    let mut memory = BlockMemory::new(alloc);
    match next_block(&mut memory, bytes, at, info, samples.len(), block, error) {
        Ok(found) => {
            put_planar(found, samples);
            OK
        }
        Err(status) => status,
    }
}

// The block of the frame at the position, which is moved after it, if the capacity suffices for its samples. Else the status.
fn next_block(
    memory: &mut BlockMemory,
    bytes: &[u8],
    at: &mut usize,
    info: &ClaxonInfo,
    capacity: usize,
    block: &mut ClaxonBlock,
    error: &mut [u8],
) -> Result<Block, u32>
    ensures next_block { NextBlock info.now bytes.now at.old capacity result at.new
        block.old block.new error.old error.new }
    ensures memory_is_counted { BlockMemoryIsCounted result memory.old memory.new }
{
    let start = bytes.len().min(*at);
    let rest = &bytes[start..];
    let known = info.known_stream();
    let header = match header_at_start(rest, known) {
        Ok(Some(header)) => header,
        Ok(None) => return Err(NO_MORE),
        Err(fault) => return Err(report(&fault, error)),
    };
    let said = header.info();
    if has_larger(&said, capacity) {
        *block = ClaxonBlock::from_header(&said);
        return Err(BUFFER_TOO_SMALL);
    }
    let mut count = 0;
    let decoded = rest_at_start(memory, rest, known, header, &mut count);
    match decoded {
        Ok(found) => {
            *block = ClaxonBlock::from_header(&said);
            *at = start + count;
            Ok(found)
        }
        Err(fault) => Err(report(&fault, error)),
    }
}

// Whether the block has more samples than this capacity.
pub(crate) fn has_larger(info: &BlockInfo, capacity: usize) -> bool
    ensures { IsTrue result ↔ HasLarger capacity (Some info.now) }
{
    info.channels as usize * info.duration as usize > capacity
}
