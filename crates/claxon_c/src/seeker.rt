//! A seek to a sample, by bytes of a stream that the caller holds and hands in.
ghost use Rattle.std.specs.Prelude.{◌↔◌, ◌+◌, ◌*◌, ◌<◌, IsTrue, length};
ghost use Rattle.claxon.specs.Streams.{duration_of};
ghost use Rattle.claxon_stream.specs.HeadDecoder.{PositionFits};
ghost use Rattle.claxon_stream_seek.specs.Kept.{kept_clock};
ghost use Rattle.claxon_c.specs.NextBlock.{InterleavedArePut, PlanarArePut, ShowsInfo};
ghost use Rattle.claxon_c.specs.Seeker.{
  CSeekIsAnswered,
  CSeekTooFarIsUnsupported,
  KeepsSeeker,
  NextSought,
  SeekBegins,
  info_at,
};

use crate::frame::ClaxonFrame;
use crate::heads::ClaxonInfo;
use crate::held::{MAX_FRAME_BYTES, position_fits};
use crate::interleave::put_interleaved;
use crate::next_block::ClaxonBlock;
use crate::planar::put_planar;
use crate::status::{
    BUFFER_TOO_SMALL, NEED_MORE, NO_MORE, OK, OUT_OF_MEMORY, OVER_BUDGET, UNSUPPORTED,
};
use claxon::Block;
use claxon::frame::BlockInfo;
use claxon_stream_seek::{KeptClock, KeptSeeker, SeekEvent, Seeker, SoughtFrame};
use std::alloc::Global;

/// A seek to a sample.
#[repr(C)]
#[derive(Clone, Copy)]
pub struct ClaxonSeeker {
    kept: KeptSeeker,
    /// After `NEED_MORE` the position from which on bytes are needed.
    pub position: u64,
    /// After `NEED_MORE` how many bytes are needed at least, from the position on; else 0.
    pub needed: usize,
    /// The frame that was found.
    pub found: ClaxonFrame,
}

/// Begins a seek to this sample of each channel. `u64::MAX` says that the length of the stream in bytes isn't known.
#[unsafe(no_mangle)]
pub extern "C" fn claxon_seeker_start(
    seeker: &mut ClaxonSeeker,
    info: &ClaxonInfo,
    length: u64,
    sample: u64,
    clock: &KeptClock,
)
    ensures begins { SeekBegins info.now sample (kept_clock clock.now) seeker.new }
{
    let first_frame = info.first_frame as u64;
    let known = if length == u64::MAX {
        None
    } else {
        Some(length)
    };
    let told = clock.clock();
    let begun = Seeker::new(first_frame, known, info.known_stream(), sample, told);
    *seeker = seeker_with(begun, first_frame, 0, ClaxonFrame::none());
}

/// Seeks, by the bytes that are held: from the position `at` of the stream on, and up to its end if `is_end` isn't 0. The samples of
/// the frame that is found are interleaved. No more bytes are asked for than a streaminfo can give of a frame.
#[unsafe(no_mangle)]
pub extern "C" fn claxon_seeker_next(
    alloc: Global,
    seeker: &mut ClaxonSeeker,
    bytes: &[u8],
    at: u64,
    is_end: u32,
    info: &ClaxonInfo,
    samples: &mut [i32],
    block: &mut ClaxonBlock,
) -> u32
    ensures is_answered { CSeekIsAnswered info.now at bytes.now is_end InterleavedArePut
        seeker.old result seeker.new samples.old samples.new block.old block.new }
    ensures too_far_is_unsupported { CSeekTooFarIsUnsupported at bytes.now seeker.old result
        seeker.new samples.old samples.new block.old block.new }
{
    if !position_fits(at, bytes) {
        return UNSUPPORTED;
    }
    let capacity = samples.len();
    match next_sought(alloc, seeker, bytes, at, is_end, info, capacity, block) {
        Ok(found) => {
            put_interleaved(&found, samples);
            OK
        }
        Err(status) => status,
    }
}

/// As `claxon_seeker_next`, with the samples of one channel after those of another.
#[unsafe(no_mangle)]
pub extern "C" fn claxon_seeker_next_planar(
    alloc: Global,
    seeker: &mut ClaxonSeeker,
    bytes: &[u8],
    at: u64,
    is_end: u32,
    info: &ClaxonInfo,
    samples: &mut [i32],
    block: &mut ClaxonBlock,
) -> u32
    ensures is_answered { CSeekIsAnswered info.now at bytes.now is_end PlanarArePut
        seeker.old result seeker.new samples.old samples.new block.old block.new }
    ensures too_far_is_unsupported { CSeekTooFarIsUnsupported at bytes.now seeker.old result
        seeker.new samples.old samples.new block.old block.new }
{
    if !position_fits(at, bytes) {
        return UNSUPPORTED;
    }
    let capacity = samples.len();
    match next_sought(alloc, seeker, bytes, at, is_end, info, capacity, block) {
        Ok(found) => {
            put_planar(found, samples);
            OK
        }
        Err(status) => status,
    }
}

// The block that has the sample, if the capacity suffices for its samples. Else the status.
fn next_sought(
    alloc: Global,
    seeker: &mut ClaxonSeeker,
    bytes: &[u8],
    at: u64,
    is_end: u32,
    info: &ClaxonInfo,
    capacity: usize,
    block: &mut ClaxonBlock,
) -> Result<Block, u32>
    requires fits { PositionFits (at + length bytes.now) }
    ensures next_sought { NextSought info.now at bytes.now is_end capacity
        seeker.old result seeker.new block.old block.new }
{
    let (position, last) = (seeker.position, seeker.found);
    let mut next = seeker.kept.seeker();
    match next.seek_next(alloc, bytes, at, is_end != 0, info.known_stream()) {
        Ok(SeekEvent::Found(found)) => {
            *block = sought_block(&found);
            if is_larger(&found.frame.block, capacity) {
                return Err(BUFFER_TOO_SMALL);
            }
            let shown = ClaxonFrame::new(found.position, found.end, &found.frame.info);
            *seeker = seeker_with(next, found.position, 0, shown);
            Ok(found.frame.block)
        }
        Ok(SeekEvent::NotFound) => {
            *seeker = seeker_with(next, position, 0, last);
            Err(NO_MORE)
        }
        Ok(SeekEvent::OverBudget) => {
            *seeker = seeker_with(next, position, 0, last);
            Err(OVER_BUDGET)
        }
        Ok(SeekEvent::ReadOn(needed)) => {
            if needed.count > MAX_FRAME_BYTES {
                *seeker = seeker_with(next, position, 0, last);
                return Err(OVER_BUDGET);
            }
            *seeker = seeker_with(next, needed.position, needed.count, last);
            Err(NEED_MORE)
        }
        Err(_) => {
            *seeker = seeker_with(next, position, 0, last);
            Err(OUT_OF_MEMORY)
        }
    }
}

// Whether the block has more samples than this capacity.
fn is_larger(block: &Block, capacity: usize) -> bool
    ensures { IsTrue result
        ↔ (capacity < length block.now.channels * duration_of block.now.channels) }
{
    block.channels() as usize * block.duration() as usize > capacity
}

fn seeker_with(seeker: Seeker, position: u64, needed: usize, found: ClaxonFrame) -> ClaxonSeeker
    ensures { KeepsSeeker seeker position needed found result }
{
    ClaxonSeeker {
        kept: KeptSeeker::new(seeker),
        position,
        needed,
        found,
    }
}

// What the header says, with the time at which the block begins.
fn sought_block(found: &SoughtFrame) -> ClaxonBlock
    ensures { ShowsInfo (info_at found.now.time found.now.frame.info) result }
{
    ClaxonBlock::from_header(&BlockInfo {
        time: found.time,
        ..found.frame.info
    })
}
