//! The next frame of a stream after damage, by bytes that the caller holds and hands in.
ghost use Rattle.std.specs.Prelude.{◌≡◌, ◌+◌, IfSome, length};
ghost use Rattle.claxon.specs.ShownHead.{HasBitDepth};
ghost use Rattle.claxon_stream.specs.Event.{needed_after};
ghost use Rattle.claxon_stream.specs.FrameFinder.{GoesOn};
ghost use Rattle.claxon_stream.specs.Held.{held_from};
ghost use Rattle.claxon_stream.specs.HeadDecoder.{PositionFits};
ghost use Rattle.claxon_c.specs.Search.{
  CFindIsAnswered,
  CFindTooFarIsUnsupported,
  IsFindOfHeld,
  SearchBegins,
  charged_frames,
  finds_none,
  lacks_end,
  needed_search,
};

use crate::frames::ClaxonFrames;
use crate::heads::ClaxonInfo;
use crate::held::{is_full, position_fits};
use crate::next_block::ClaxonBlock;
use crate::status::{NEED_MORE, NO_MORE, OK, OUT_OF_MEMORY, UNSUPPORTED};
use claxon::Result;
use claxon::metadata::StreamInfo;
use claxon_stream::{FindEvent, FrameDecoder, FrameFinder, NeededBytes, held_from};
use std::alloc::Global;

// Half of the bytes that a frame may have: those that begin before it, and don't end in as many, have more.
const HALF_OF_A_FRAME: u64 = 1 << 23;

/// A search for frames.
#[repr(C)]
#[derive(Clone, Copy)]
pub struct ClaxonSearch {
    finder: FrameFinder,
    /// After `NEED_MORE` how many bytes are needed at least, from the finder's position on; else 0.
    pub needed: usize,
}

/// Begins a search at this position of the stream.
#[unsafe(no_mangle)]
pub extern "C" fn claxon_search_start(search: &mut ClaxonSearch, position: u64)
    ensures begins { SearchBegins position search.new }
{
    *search = needed_search(FrameFinder::new(position), 0);
}

/// Goes on from another position, as after frames that were decoded. What the search and the faults of these frames cost is kept, so
/// that the time stays linear.
#[unsafe(no_mangle)]
pub extern "C" fn claxon_search_go_on(
    search: &mut ClaxonSearch,
    frames: &mut ClaxonFrames,
    position: u64,
)
    ensures goes_on { GoesOn position frames.old.decoder search.old.finder search.new.finder }
    ensures needed { search.new.needed ≡ 0 }
    ensures taken { frames.new ≡ charged_frames frames.old }
{
    let mut finder = search.finder;
    finder.go_on(position, &mut frames.decoder);
    *search = needed_search(finder, 0);
}

/// Finds the next frame of the stream, by the bytes that are held: from the position `at` of the stream on, and up to its end if
/// `is_end` isn't 0. Where a frame doesn't end in as many bytes as a streaminfo can give, they are searched as if the stream ended
/// with them; if no other is whole there, the search goes on in their second half.
#[unsafe(no_mangle)]
pub extern "C" fn claxon_search_next(
    alloc: Global,
    search: &mut ClaxonSearch,
    bytes: &[u8],
    at: u64,
    is_end: u32,
    info: &ClaxonInfo,
    found: &mut u64,
    block: &mut ClaxonBlock,
) -> u32
    ensures is_answered { CFindIsAnswered info.now at bytes.now is_end search.old result search.new
        found.old found.new block.old block.new }
    ensures too_far_is_unsupported { CFindTooFarIsUnsupported at bytes.now search.old result
        search.new found.old found.new block.old block.new }
{
    if !position_fits(at, bytes) {
        return UNSUPPORTED;
    }
    let mut finder = search.finder;
    match next_find(alloc, &mut finder, bytes, at, is_end, info.known_stream()) {
        Ok(FindEvent::Found(position, frame)) => {
            *search = needed_search(finder, 0);
            *found = position;
            *block = ClaxonBlock::from_header(&frame.info);
            OK
        }
        Ok(FindEvent::NotFound) => {
            *search = needed_search(finder, 0);
            NO_MORE
        }
        Ok(FindEvent::ReadOn(needed)) => {
            *search = needed_search(finder, needed.count);
            NEED_MORE
        }
        Err(_) => {
            *search = needed_search(finder, 0);
            OUT_OF_MEMORY
        }
    }
}

// What is found in the bytes that are held. A frame that would be longer than one may be isn't waited for.
fn next_find(
    alloc: Global,
    finder: &mut FrameFinder,
    bytes: &[u8],
    at: u64,
    is_end: u32,
    known: Option<StreamInfo>,
) -> Result<FindEvent>
    requires depth { IfSome known (λ info. HasBitDepth info) }
    requires fits { PositionFits (at + length bytes.now) }
    ensures { IsFindOfHeld known at bytes.now is_end finder.old result finder.new }
{
    let event = finder.find_next(alloc, bytes, at, is_end != 0, known);
    let position = finder.position();
    if !lacks_end(&event, is_full(bytes, at, position)) {
        return event;
    }
    let within = finder.find_next(alloc, bytes, at, true, known);
    if !finds_none(&within) {
        return within;
    }
    let next = position + HALF_OF_A_FRAME;
    finder.go_on(next, &mut FrameDecoder::new(position));
    Ok(FindEvent::ReadOn(needed_from(bytes, at, next)))
}

// Whether bytes are needed, though as many are held as a frame may have.
fn lacks_end(event: &Result<FindEvent>, is_full: bool) -> bool
    ensures { result ≡ lacks_end event.now is_full }
{
    match event {
        Ok(FindEvent::ReadOn(_)) => is_full,
        _ => false,
    }
}

fn finds_none(event: &Result<FindEvent>) -> bool
    ensures { result ≡ finds_none event.now }
{
    matches!(event, Ok(FindEvent::NotFound))
}

// More bytes than are held from this position on.
fn needed_from(bytes: &[u8], at: u64, position: u64) -> NeededBytes
    ensures { result ≡ needed_after position (length (held_from at position bytes.now)) }
{
    let held = held_from(bytes, at, position).len();
    NeededBytes {
        position,
        count: (held + 1).max(2),
    }
}

fn needed_search(finder: FrameFinder, needed: usize) -> ClaxonSearch
    ensures { result ≡ needed_search finder needed }
{
    ClaxonSearch { finder, needed }
}
