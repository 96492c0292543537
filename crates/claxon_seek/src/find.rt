//! The next position at which a frame begins.
ghost use Rattle.std.specs.Prelude.{◌≡◌, ◌↔◌, IfSome, IsTrue};
ghost use Rattle.claxon.specs.ShownHead.{HasBitDepth};
ghost use Rattle.claxon_seek.specs.AtStart.{HeaderIsThere, NoHeaderAtStart};
ghost use Rattle.claxon_seek.specs.BlockMemory.{MemoryIsCounted};
ghost use Rattle.claxon_seek.specs.Find.{
  BudgetIsSpent,
  FindGives,
  FindOutOfMemoryAfterHeader,
  FirstIsFound,
  FoundIsFirst,
  FrameIsAtStart,
  HasFormat,
  HoldsSample,
  NoneIsNotFound,
  NotFoundIsNone,
  StopsOverBudget,
  UndecidedIsFirst,
  WantedHeaderAtStart,
  known_format,
  wasted_by,
};
ghost use Rattle.claxon_seek.specs.SeekBlock.{BlockIsDecoded, decoded_at, searched};

use crate::at_start::{HeaderInBytes, header_at_start, rest_at_start};
use crate::memory::BlockMemory;
use crate::search::{BlockSearch, FoundBlock, FoundFrame, Search};
use claxon::frame::BlockInfo;
use claxon::metadata::StreamInfo;
use claxon::{Block, Error, Result};

/// Finds the first frame from the position `from` on, and what its header says of its block.
///
/// The frame has the number of channels and the bit depth of the streaminfo where that is known. Its header is read first, with its
/// CRC-8, so samples are decoded only where a header is. (RFC 9639, section 9.)
///
/// The samples of the blocks whose headers are found are taken from the budget, and the bytes of each frame that was read in vain: up
/// to its fault, or all where they end within it. `OverBudget` is returned at the position of a header whose block has more samples
/// than are left. Bytes that were made on purpose can have a header of a large block every few bytes, or of one that reads them all.
/// So the time is linear in the bytes and the budget. A search from that position on, with a budget of at least 524,280, goes on.
///
/// # Errors
///
/// `OutOfMemory` alone, exactly where a request for the memory of a block was refused.
pub fn find_frame(
    memory: &mut BlockMemory,
    bytes: &[u8],
    from: usize,
    known: Option<StreamInfo>,
    budget: &mut u64,
) -> Result<Search>
    requires { IfSome known (λ info. HasBitDepth info) }
    ensures found_is_first { FoundIsFirst known bytes.now from budget.old result budget.new }
    ensures first_is_found { FirstIsFound known bytes.now from budget.old result budget.new }
    ensures not_found_is_none { NotFoundIsNone known bytes.now from budget.old result budget.new }
    ensures none_is_not_found { NoneIsNotFound known bytes.now from budget.old result budget.new }
    ensures stops_over_budget { StopsOverBudget known bytes.now from budget.old result budget.new }
    ensures undecided_is_first { UndecidedIsFirst known bytes.now from
        budget.old result budget.new }
    ensures budget_is_spent { BudgetIsSpent known bytes.now from budget.old result budget.new }
    ensures out_of_memory_after_header { FindOutOfMemoryAfterHeader known bytes.now from
        budget.old result budget.new }
    ensures memory_is_counted { MemoryIsCounted result memory.old memory.new }
{
    without_block(find(memory, bytes, from, known, None, budget))
}

// The same answer without the block.
pub(crate) fn without_block(answer: Result<BlockSearch>) -> Result<Search>
    ensures { result ≡ searched answer }
{
    match answer {
        Ok(BlockSearch::Found(found)) => Ok(Search::Found(found.frame)),
        Ok(BlockSearch::NotFound(undecided)) => Ok(Search::NotFound(undecided)),
        Ok(BlockSearch::OverBudget(position)) => Ok(Search::OverBudget(position)),
        Err(error) => Err(error),
    }
}

// What a search knows of the header that bytes begin with.
#[derive(Clone, Copy)]
pub(crate) enum HeaderThere {
    // Its frame is one that is searched for.
    Wanted(HeaderInBytes),
    // There is none of such a frame, whatever follows.
    NotWanted,
    // The bytes end within it.
    CutHeader,
}

// What a search knows of the frame that bytes begin with.
#[derive(Drop)]
pub(crate) enum FrameThere {
    // The number of its bytes, and its block.
    Whole(usize, Block),
    // There is none, whatever follows. The number of the bytes up to its fault.
    Faulty(usize),
    // The bytes end within it.
    CutFrame,
}

// The first frame from this position on that has the streaminfo's format and, if one is asked for, this sample.
pub(crate) fn find(
    memory: &mut BlockMemory,
    bytes: &[u8],
    from: usize,
    known: Option<StreamInfo>,
    sample: Option<u64>,
    budget: &mut u64,
) -> Result<BlockSearch>
    requires { IfSome known (λ info. HasBitDepth info) }
    ensures gives { FindGives known sample bytes.now from budget.old (searched result) budget.new }
    ensures is_decoded { BlockIsDecoded known bytes.now result }
    ensures memory_is_counted { MemoryIsCounted result memory.old memory.new }
{
    let mut undecided = from.max(bytes.len());
    for position in from..bytes.len() {
        let rest = &bytes[position..];
        let header = match wanted_header(rest, &known, sample) {
            HeaderThere::Wanted(header) => header,
            HeaderThere::NotWanted => continue,
            HeaderThere::CutHeader => {
                undecided = undecided.min(position);
                continue;
            }
        };
        let info = header.info();
        let samples = u64::from(info.channels) * u64::from(info.duration);
        if samples > *budget {
            return Ok(BlockSearch::OverBudget(position));
        }
        *budget -= samples;
        let frame = frame_at_start(memory, rest, known, header)?;
        *budget = (*budget).saturating_sub(wasted_bytes(&frame, rest.len()) as u64);
        match frame {
            FrameThere::Whole(len, block) => return Ok(found_block(position, info, len, block)),
            FrameThere::Faulty(_) => continue,
            FrameThere::CutFrame => undecided = undecided.min(position),
        }
    }
    Ok(BlockSearch::NotFound(undecided))
}

// How many of so many bytes were read in vain.
fn wasted_bytes(frame: &FrameThere, count: usize) -> usize
    ensures { result ≡ wasted_by frame.now count }
{
    match frame {
        FrameThere::Whole(_, _) => 0,
        FrameThere::Faulty(len) => *len,
        FrameThere::CutFrame => count,
    }
}

fn found_block(position: usize, info: BlockInfo, len: usize, block: Block) -> BlockSearch
    ensures { result ≡ decoded_at position info len block }
{
    let frame = FoundFrame {
        position,
        block: info,
    };
    BlockSearch::Found(FoundBlock { frame, len, block })
}

// The header that the bytes begin with, if its frame is one that is searched for. The streaminfo is lent, as it is asked for at
// each position.
#[inline(always)]
pub(crate) fn wanted_header(
    bytes: &[u8],
    known: &Option<StreamInfo>,
    sample: Option<u64>,
) -> HeaderThere
    requires { IfSome known.now (λ info. HasBitDepth info) }
    ensures at_start { WantedHeaderAtStart known.now sample bytes.now result }
{
    if shows_no_header(bytes) {
        return HeaderThere::NotWanted;
    }
    read_wanted_header(bytes, known, sample)
}

#[inline(never)]
fn read_wanted_header(bytes: &[u8], known: &Option<StreamInfo>, sample: Option<u64>) -> HeaderThere
    requires { IfSome known.now (λ info. HasBitDepth info) }
    ensures at_start { WantedHeaderAtStart known.now sample bytes.now result }
{
    match header_at_start(bytes, *known) {
        Ok(Some(header)) => {
            let block = header.info();
            if has_format(&block, *known) && holds_sample(&block, sample) {
                HeaderThere::Wanted(header)
            } else {
                HeaderThere::NotWanted
            }
        }
        Ok(None) => HeaderThere::CutHeader,
        Err(Error::IoError(_)) => HeaderThere::CutHeader,
        Err(Error::FormatError(_)) => HeaderThere::NotWanted,
        Err(Error::Unsupported(_)) => HeaderThere::NotWanted,
        Err(Error::OutOfMemory) => HeaderThere::NotWanted,
    }
}

/// Whether the first bytes show that no frame header begins there, whatever follows. Where they don't, there may be none all the same.
/// (RFC 9639, section 9.1.)
#[inline(always)]
pub fn shows_no_header(bytes: &[u8]) -> bool
    ensures no_header { IsTrue result → NoHeaderAtStart bytes.now }
{
    lacks_sync_code(bytes) || has_invalid_rate(bytes)
}

// Whether the bytes have two bytes that aren't a sync code and a reserved bit of 0, with which each frame header begins.
#[inline(always)]
fn lacks_sync_code(bytes: &[u8]) -> bool
    ensures { IsTrue result → NoHeaderAtStart bytes.now }
{
    bytes.len() >= 2 && (bytes[0] != 0xff || bytes[1] / 2 != 0x7c)
}

// Whether the third byte of a header has the invalid code of the sample rate, as it has in bytes that are sync codes alone.
#[inline(always)]
fn has_invalid_rate(bytes: &[u8]) -> bool
    ensures { IsTrue result → NoHeaderAtStart bytes.now }
{
    bytes.len() >= 3 && bytes[2] % 16 == 15
}

fn has_format(block: &BlockInfo, known: Option<StreamInfo>) -> bool
    ensures { IsTrue result ↔ HasFormat known block.now }
{
    match known {
        Some(info) => { block.channels == info.channels && block.bit_depth == info.bits_per_sample }
        None => true,
    }
}

pub(crate) fn holds_sample(block: &BlockInfo, sample: Option<u64>) -> bool
    ensures { IsTrue result ↔ HoldsSample sample block.now }
{
    match sample {
        Some(sample) => block.time <= sample && sample - block.time < u64::from(block.duration),
        None => true,
    }
}

// The frame whose header the bytes begin with.
pub(crate) fn frame_at_start(
    memory: &mut BlockMemory,
    bytes: &[u8],
    known: Option<StreamInfo>,
    header: HeaderInBytes,
) -> Result<FrameThere>
    requires depth { IfSome known (λ info. HasBitDepth info) }
    requires is_there { HeaderIsThere (known_format known) bytes.now header }
    ensures is_at_start { FrameIsAtStart known bytes.now result }
    ensures memory_is_counted { MemoryIsCounted result memory.old memory.new }
{
    let mut len = 0;
    match rest_at_start(memory, bytes, known, header, &mut len) {
        Ok(block) => Ok(FrameThere::Whole(len, block)),
        Err(Error::IoError(_)) => Ok(FrameThere::CutFrame),
        Err(Error::FormatError(_)) => Ok(FrameThere::Faulty(len)),
        Err(Error::Unsupported(_)) => Ok(FrameThere::Faulty(len)),
        Err(Error::OutOfMemory) => Err(Error::OutOfMemory),
    }
}
