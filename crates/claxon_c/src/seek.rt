//! The next frame in bytes, and a frame whose block has a sample.
ghost use Rattle.std.specs.Prelude.{◌≡◌, ◌+◌, ◌^◌, ◌<◌, length};
ghost use Rattle.claxon.specs.Streams.{duration_of};
ghost use Rattle.claxon_c.specs.Seek.{
  CBudgetIsSpent,
  CFindOutOfMemoryAfterHeader,
  CFirstIsFound,
  CFoundIsFirst,
  CNoMoreIsNone,
  CNoneIsNoMore,
  CSeekBlockIsComplete,
  CSeekBlockIsSound,
  CSeekBlockIsTooLarge,
  CSeekIsComplete,
  CSeekIsSound,
  CSeekNoMoreFitsBudget,
  CSeekNoMoreIsNone,
  CSeekNoneIsNoMore,
  CSeekOutOfMemoryAfterHeader,
  CSeekStopsOverBudget,
  CStopsOverBudget,
  CUndecidedIsFirst,
  FoundBlockIsKept,
  IsGiven,
  IsSearchStatus,
  IsSeekBlockStatus,
  SearchIsKept,
  SeekBlockIsKept,
  SeekIsKept,
};

use crate::heads::ClaxonInfo;
use crate::interleave::put_interleaved;
use crate::next_block::{ClaxonBlock, has_larger};
use crate::status::{BUFFER_TOO_SMALL, NO_MORE, OK, OUT_OF_MEMORY, OVER_BUDGET};
use claxon_seek::{BlockMemory, BlockSearch, FoundBlock, Search, find_frame, seek, seek_block};
use std::alloc::Global;

/// Finds the first frame of the stream from the position on, and moves the position to it. Where there is none, it is moved to
/// where a search goes on: before it none begins, whatever follows.
#[unsafe(no_mangle)]
pub extern "C" fn claxon_find_frame(
    alloc: Global,
    bytes: &[u8],
    at: &mut usize,
    info: &ClaxonInfo,
    budget: &mut u64,
    block: &mut ClaxonBlock,
) -> u32
    // What it returns, shows and where it stops.
    ensures found_is_first { CFoundIsFirst info.now bytes.now at.old result at.new block.new }
    ensures first_is_found { CFirstIsFound info.now bytes.now at.old result at.new block.new }
    ensures no_more_is_none { CNoMoreIsNone info.now bytes.now at.old result }
    ensures none_is_no_more { CNoneIsNoMore info.now bytes.now at.old result }
    ensures undecided_is_first { CUndecidedIsFirst info.now bytes.now at.old result at.new }
    ensures is_search_status { IsSearchStatus result }
    // The budget, and memory.
    ensures stops_over_budget { CStopsOverBudget info.now bytes.now at.old result
        at.new budget.old }
    ensures budget_is_spent { CBudgetIsSpent info.now bytes.now at.old result
        at.new budget.old budget.new }
    ensures out_of_memory_after_header { CFindOutOfMemoryAfterHeader info.now bytes.now at.old
        result }
    // What stays as it was.
    ensures block_is_kept { FoundBlockIsKept result block.old block.new }
    ensures search_is_kept { SearchIsKept result at.old at.new budget.old budget.new }
{
    let mut left = *budget;
    let mut memory = BlockMemory::new(alloc);
    let Ok(found) = find_frame(&mut memory, bytes, *at, info.known_stream(), &mut left) else {
        return OUT_OF_MEMORY;
    };
    *budget = left;
    match found {
        Search::Found(frame) => {
            *at = frame.position;
            *block = ClaxonBlock::from_header(&frame.block);
            OK
        }
        Search::NotFound(undecided) => {
            *at = undecided;
            NO_MORE
        }
        Search::OverBudget(position) => {
            *at = position;
            OVER_BUDGET
        }
    }
}

/// Finds a frame from the first frame on whose block has the sample, and moves the position to it.
#[unsafe(no_mangle)]
pub extern "C" fn claxon_seek(
    alloc: Global,
    bytes: &[u8],
    info: &ClaxonInfo,
    sample: u64,
    budget: u64,
    at: &mut usize,
    block: &mut ClaxonBlock,
) -> u32
    ensures is_sound { CSeekIsSound info.now bytes.now sample result at.new block.new }
    ensures is_complete { CSeekIsComplete info.now bytes.now sample result }
    ensures no_more_is_none { CSeekNoMoreIsNone info.now bytes.now sample result }
    ensures none_is_no_more { CSeekNoneIsNoMore info.now bytes.now sample result }
    ensures is_search_status { IsSearchStatus result }
    ensures stops_over_budget { CSeekStopsOverBudget info.now bytes.now sample result budget }
    ensures no_more_fits_budget { CSeekNoMoreFitsBudget info.now bytes.now sample result budget }
    ensures out_of_memory_after_header { CSeekOutOfMemoryAfterHeader info.now bytes.now sample
        result }
    ensures is_kept { SeekIsKept result at.old at.new block.old block.new }
{
    let known = info.known_stream();
    let mut memory = BlockMemory::new(alloc);
    match seek(&mut memory, bytes, known, info.first_frame, sample, budget) {
        Ok(Search::Found(found)) => {
            *at = found.position;
            *block = ClaxonBlock::from_header(&found.block);
            OK
        }
        Ok(Search::NotFound(_)) => NO_MORE,
        Ok(Search::OverBudget(_)) => OVER_BUDGET,
        Err(_) => OUT_OF_MEMORY,
    }
}

/// As `claxon_seek`, and decodes the frame as `claxon_next_block`: its samples are interleaved, and the position is moved after it.
/// Where the samples don't fit, the position is moved to the frame.
#[unsafe(no_mangle)]
pub extern "C" fn claxon_seek_block(
    alloc: Global,
    bytes: &[u8],
    info: &ClaxonInfo,
    sample: u64,
    budget: u64,
    at: &mut usize,
    samples: &mut [i32],
    block: &mut ClaxonBlock,
) -> u32
    // What it returns, shows and stores.
    ensures is_sound { CSeekBlockIsSound info.now bytes.now sample result at.new block.new
        samples.old samples.new }
    ensures is_too_large { CSeekBlockIsTooLarge info.now bytes.now sample result at.new block.new
        (length samples.old) }
    ensures is_complete { CSeekBlockIsComplete info.now bytes.now sample result }
    ensures no_more_is_none { CSeekNoMoreIsNone info.now bytes.now sample result }
    ensures none_is_no_more { CSeekNoneIsNoMore info.now bytes.now sample result }
    ensures is_seek_block_status { IsSeekBlockStatus result }
    // The budget, and memory.
    ensures stops_over_budget { CSeekStopsOverBudget info.now bytes.now sample result budget }
    ensures no_more_fits_budget { CSeekNoMoreFitsBudget info.now bytes.now sample result budget }
    ensures out_of_memory_after_header { CSeekOutOfMemoryAfterHeader info.now bytes.now sample
        result }
    // What stays as it was.
    ensures is_kept { SeekBlockIsKept result at.old at.new block.old block.new
        samples.old samples.new }
{
    let mut memory = BlockMemory::new(alloc);
    match seek_block(
        &mut memory,
        bytes,
        info.known_stream(),
        info.first_frame,
        sample,
        budget,
    ) {
        Ok(BlockSearch::Found(found)) => give(found, at, samples, block),
        Ok(BlockSearch::NotFound(_)) => NO_MORE,
        Ok(BlockSearch::OverBudget(_)) => OVER_BUDGET,
        Err(_) => OUT_OF_MEMORY,
    }
}

// Shows the block and stores its samples, if they fit.
fn give(found: FoundBlock, at: &mut usize, samples: &mut [i32], block: &mut ClaxonBlock) -> u32
    requires channels { length found.block.channels ≡ found.frame.block.channels }
    requires duration { duration_of found.block.channels ≡ found.frame.block.duration }
    requires inside { found.frame.position + found.len < 2 ^ 64 }
    ensures is_given { IsGiven found result at.new block.new samples.old samples.new }
{
    let FoundBlock {
        frame,
        len,
        block: decoded,
    } = found;
    *block = ClaxonBlock::from_header(&frame.block);
    if has_larger(&frame.block, samples.len()) {
        *at = frame.position;
        return BUFFER_TOO_SMALL;
    }
    put_interleaved(&decoded, samples);
    *at = frame.position + len;
    OK
}
