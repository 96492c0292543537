//! A search for the next frame in bytes that are in memory.
ghost use Rattle.std.specs.Prelude.{IfSome, ◌≡◌, IfOk};
ghost use Rattle.claxon.specs.ShownHead.{HasBitDepth};
ghost use Rattle.claxon_seek.specs.BlockMemory.{MemoryIsCounted};
ghost use Rattle.claxon_recovery.specs.Budget.{wasted_work};
ghost use Rattle.claxon_recovery.specs.Charges.{NextIsCounted, TriedIsCounted, tried_of};
ghost use Rattle.claxon_recovery.specs.Search.{NextIsThere, TriedIsThere};

use crate::at_start::{NoHeader, RestHere, charged_rest, header_here};
use crate::budget::Budget;
use claxon::Result;
use claxon::metadata::StreamInfo;
use claxon_seek::{BlockMemory, shows_no_header};

// How a search ends. No frame begins before the position, whatever follows.
#[derive(Clone, Copy)]
pub(crate) enum Next {
    // A frame begins there.
    Frame(usize),
    // The bytes end within what may be one.
    Undecided(usize),
    // A header stands there, whose block has more samples than the budget.
    OverBudget(usize),
}

// What is known of a position.
#[derive(Clone, Copy)]
pub(crate) enum Tried {
    // A frame begins there.
    Whole,
    // None does, whatever follows.
    NoFrame,
    // The bytes end within what may be one.
    Cut,
    // A header stands there, whose block has more samples than the budget.
    Unpaid,
}

// The first position at which a frame begins, or it isn't known.
pub(crate) fn next_frame(
    memory: &mut BlockMemory,
    bytes: &[u8],
    known: Option<StreamInfo>,
    budget: &mut Budget,
) -> Result<Next>
    requires { IfSome known (λ info. HasBitDepth info) }
    ensures is_there { NextIsThere known bytes.now result }
    ensures memory_is_counted { MemoryIsCounted result memory.old memory.new }
    ensures is_counted { IfOk result (λ next. NextIsCounted next budget.old budget.new) }
{
    for position in 0..bytes.len() {
        let rest = &bytes[position..];
        if shows_no_header(rest) {
            continue;
        }
        match try_frame(memory, rest, known, budget)? {
            Tried::Whole => return Ok(Next::Frame(position)),
            Tried::NoFrame => continue,
            Tried::Cut => return Ok(Next::Undecided(position)),
            Tried::Unpaid => return Ok(Next::OverBudget(position)),
        }
    }
    Ok(Next::Undecided(bytes.len()))
}

// What the bytes begin with. It is tried within the budget.
#[inline(never)]
fn try_frame(
    memory: &mut BlockMemory,
    bytes: &[u8],
    known: Option<StreamInfo>,
    budget: &mut Budget,
) -> Result<Tried>
    requires { IfSome known (λ info. HasBitDepth info) }
    ensures is_there { TriedIsThere known bytes.now (wasted_work budget.old) result }
    ensures memory_is_counted { MemoryIsCounted result memory.old memory.new }
    ensures is_counted { IfOk result (λ tried. TriedIsCounted tried budget.old budget.new) }
{
    let header = match header_here(bytes, known) {
        Ok(header) => header,
        Err(NoHeader::Other(_)) => return Ok(Tried::NoFrame),
        Err(NoHeader::Faulty(_)) => return Ok(Tried::NoFrame),
        Err(NoHeader::CutHeader) => return Ok(Tried::Cut),
    };
    if !budget.request(header) {
        return Ok(Tried::Unpaid);
    }
    let rest = charged_rest(memory, bytes, known, header, budget)?;
    Ok(tried_of(&rest))
}

// What is known of a position with this rest of a frame.
fn tried_of(rest: &RestHere) -> Tried
    ensures { result ≡ tried_of rest.now }
{
    match rest {
        RestHere::Whole(_, _) => Tried::Whole,
        RestHere::Broken(_, _) => Tried::NoFrame,
        RestHere::CutFrame => Tried::Cut,
    }
}
