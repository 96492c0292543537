//! The frame with a sample.
ghost use Rattle.std.specs.Prelude.{◌≤◌, IfSome, length};
ghost use Rattle.claxon.specs.ShownHead.{HasBitDepth};
ghost use Rattle.claxon_seek.specs.BlockMemory.{MemoryIsCounted};
ghost use Rattle.claxon_seek.specs.Seek.{
  SeekGives,
  SeekIsComplete,
  SeekIsSound,
  SeekNoneIsNotFound,
  SeekNotFoundFitsBudget,
  SeekNotFoundIsNone,
  SeekOutOfMemoryAfterHeader,
  SeekStopsOverBudget,
  SeekUndecidedIsFirst,
};
ghost use Rattle.claxon_seek.specs.SeekBlock.{BlockIsDecoded, BlockThere, searched};

use crate::find::{FrameThere, HeaderThere, find, frame_at_start, wanted_header, without_block};
use crate::likely::likely_position;
use crate::memory::BlockMemory;
use crate::search::{BlockSearch, FoundBlock, FoundFrame, Search};
use claxon::Result;
use claxon::metadata::StreamInfo;

/// Finds a frame whose block has the sample: `time <= sample < time + duration`.
///
/// It is one of the frames from the position `first_frame` on, with the number of channels and the bit depth of the streaminfo
/// where that is known. Headers between the known times lead there, and only the frame that is returned is decoded. Where
/// they don't lead to one, as in a damaged stream, all bytes are searched, and a frame is decoded where its header says that its
/// block has the sample.
///
/// `OverBudget` is returned where such headers, in that search, pass the budget as in `find_frame`, and no frame with the sample
/// begins up to the last of them. With `u64::MAX` it never is, but for bytes that were made on purpose the time can then be the
/// square of their number.
///
/// # Errors
///
/// `OutOfMemory` alone, exactly where a request for the memory of a block was refused.
pub fn seek(
    memory: &mut BlockMemory,
    bytes: &[u8],
    known: Option<StreamInfo>,
    first_frame: usize,
    sample: u64,
    budget: u64,
) -> Result<Search>
    requires { IfSome known (λ info. HasBitDepth info) }
    ensures is_sound { SeekIsSound known bytes.now first_frame sample budget result }
    ensures is_complete { SeekIsComplete known bytes.now first_frame sample budget result }
    ensures not_found_is_none { SeekNotFoundIsNone known bytes.now first_frame sample budget
        result }
    ensures none_is_not_found { SeekNoneIsNotFound known bytes.now first_frame sample budget
        result }
    ensures undecided_is_first { SeekUndecidedIsFirst known bytes.now first_frame sample budget
        result }
    ensures not_found_fits_budget { SeekNotFoundFitsBudget known bytes.now first_frame sample
        budget result }
    ensures stops_over_budget { SeekStopsOverBudget known bytes.now first_frame sample budget
        result }
    ensures out_of_memory_after_header { SeekOutOfMemoryAfterHeader known bytes.now first_frame
        sample budget result }
    ensures memory_is_counted { MemoryIsCounted result memory.old memory.new }
{
    without_block(seek_exact(memory, bytes, known, first_frame, sample, budget))
}

/// As `seek`, and the block of the frame, which is decoded once.
///
/// # Errors
///
/// `OutOfMemory` alone, exactly where a request for the memory of a block was refused.
pub fn seek_block(
    memory: &mut BlockMemory,
    bytes: &[u8],
    known: Option<StreamInfo>,
    first_frame: usize,
    sample: u64,
    budget: u64,
) -> Result<BlockSearch>
    requires { IfSome known (λ info. HasBitDepth info) }
    ensures is_decoded { BlockIsDecoded known bytes.now result }
    ensures is_sound { SeekIsSound known bytes.now first_frame sample budget (searched result) }
    ensures is_complete { SeekIsComplete known bytes.now first_frame sample budget
        (searched result) }
    ensures not_found_is_none { SeekNotFoundIsNone known bytes.now first_frame sample budget
        (searched result) }
    ensures none_is_not_found { SeekNoneIsNotFound known bytes.now first_frame sample budget
        (searched result) }
    ensures undecided_is_first { SeekUndecidedIsFirst known bytes.now first_frame sample budget
        (searched result) }
    ensures not_found_fits_budget { SeekNotFoundFitsBudget known bytes.now first_frame sample
        budget (searched result) }
    ensures stops_over_budget { SeekStopsOverBudget known bytes.now first_frame sample budget
        (searched result) }
    ensures out_of_memory_after_header { SeekOutOfMemoryAfterHeader known bytes.now first_frame
        sample budget (searched result) }
    ensures memory_is_counted { MemoryIsCounted result memory.old memory.new }
{
    seek_exact(memory, bytes, known, first_frame, sample, budget)
}

// `seek_block`, with its exact clauses.
fn seek_exact(
    memory: &mut BlockMemory,
    bytes: &[u8],
    known: Option<StreamInfo>,
    first_frame: usize,
    sample: u64,
    budget: u64,
) -> Result<BlockSearch>
    requires { IfSome known (λ info. HasBitDepth info) }
    ensures gives { SeekGives known bytes.now first_frame sample budget (searched result) }
    ensures is_decoded { BlockIsDecoded known bytes.now result }
    ensures memory_is_counted { MemoryIsCounted result memory.old memory.new }
{
    if let Some(position) = likely_position(bytes, known, first_frame, sample) {
        if let Some(found) = block_there(memory, bytes, known, position, sample)? {
            return Ok(BlockSearch::Found(found));
        }
    }
    search_all(memory, bytes, known, first_frame, sample, budget)
}

// The first frame with the sample from the first frame on. That of the header that is over budget is tried too, so that the budget
// is of headers that begin no frame.
fn search_all(
    memory: &mut BlockMemory,
    bytes: &[u8],
    known: Option<StreamInfo>,
    first_frame: usize,
    sample: u64,
    budget: u64,
) -> Result<BlockSearch>
    requires { IfSome known (λ info. HasBitDepth info) }
    ensures gives { SeekGives known bytes.now first_frame sample budget (searched result) }
    ensures is_decoded { BlockIsDecoded known bytes.now result }
    ensures memory_is_counted { MemoryIsCounted result memory.old memory.new }
{
    let mut left = budget;
    match find(memory, bytes, first_frame, known, Some(sample), &mut left)? {
        BlockSearch::OverBudget(position) => {
            match block_there(memory, bytes, known, position, sample)? {
                Some(found) => Ok(BlockSearch::Found(found)),
                None => Ok(BlockSearch::OverBudget(position)),
            }
        }
        found => Ok(found),
    }
}

// The frame that begins at the position, if its block has the sample.
fn block_there(
    memory: &mut BlockMemory,
    bytes: &[u8],
    known: Option<StreamInfo>,
    position: usize,
    sample: u64,
) -> Result<Option<FoundBlock>>
    requires depth { IfSome known (λ info. HasBitDepth info) }
    requires inside { position ≤ length bytes.now }
    ensures there { BlockThere known bytes.now position sample result }
    ensures memory_is_counted { MemoryIsCounted result memory.old memory.new }
{
    let rest = &bytes[position..];
    let HeaderThere::Wanted(header) = wanted_header(rest, &known, Some(sample)) else {
        return Ok(None);
    };
    match frame_at_start(memory, rest, known, header)? {
        FrameThere::Whole(len, block) => {
            let frame = FoundFrame {
                position,
                block: header.info(),
            };
            Ok(Some(FoundBlock { frame, len, block }))
        }
        FrameThere::Faulty(_) => Ok(None),
        FrameThere::CutFrame => Ok(None),
    }
}
