//! What bytes in memory begin with: a frame of the stream, or none.
ghost use Rattle.std.specs.Prelude.{IfSome, ◌↔◌, IfOk, IsTrue, Some, length};
ghost use Rattle.claxon.specs.ShownHead.{HasBitDepth};
ghost use Rattle.claxon_seek.specs.AtStart.{HeaderIsThere, said_by};
ghost use Rattle.claxon_seek.specs.BlockMemory.{MemoryIsCounted};
ghost use Rattle.claxon_seek.specs.Find.{HasFormat, known_format};
ghost use Rattle.claxon_recovery.specs.AtStart.{AnswerIsThere, FrameStands, HeaderStands};
ghost use Rattle.claxon_recovery.specs.Budget.{CountsUnsearched, block_samples};
ghost use Rattle.claxon_recovery.specs.Charges.{RestIsCharged};

use crate::budget::Budget;
use crate::part::Cause;
use claxon::frame::{Block, BlockInfo, DecodedFrame};
use claxon::metadata::StreamInfo;
use claxon::{Error, Result};
use claxon_seek::{BlockMemory, HeaderInBytes, header_at_start, rest_at_start};
use std::result;

// Why bytes begin with no header of the stream.
#[derive(Drop)]
pub(crate) enum NoHeader {
    // The header has another number of channels or another bit depth.
    Other(BlockInfo),
    // There is none, whatever follows.
    Faulty(Error),
    // The bytes end within it.
    CutHeader,
}

// The frame whose header bytes begin with.
#[derive(Drop)]
pub(crate) enum RestHere {
    // Its number of bytes, and its block.
    Whole(usize, Block),
    // There is none, whatever follows: the number of bytes of its fault.
    Broken(usize, Error),
    // The bytes end within it.
    CutFrame,
}

// What bytes begin with.
#[derive(Drop)]
pub(crate) enum Answer {
    // A frame of the stream, and its number of bytes.
    Found(usize, DecodedFrame),
    // None, whatever follows.
    NoFrame(Cause),
    // The bytes end within what may be one.
    Undecided,
}

// What the bytes begin with. It is tried whatever is left of the budget.
#[tactic(auto, using(crate::proofs::Charges::rest_searched))]
pub(crate) fn frame_at_start(
    memory: &mut BlockMemory,
    bytes: &[u8],
    known: Option<StreamInfo>,
    budget: &mut Budget,
) -> Result<Answer>
    requires { IfSome known (λ info. HasBitDepth info) }
    ensures is_there { AnswerIsThere known bytes.now result }
    ensures memory_is_counted { MemoryIsCounted result memory.old memory.new }
    ensures searched { IfOk result (λ _. CountsUnsearched 0 budget.old budget.new) }
{
    let header = match header_here(bytes, known) {
        Ok(header) => header,
        Err(NoHeader::Other(block)) => return Ok(Answer::NoFrame(Cause::OtherFormat(block))),
        Err(NoHeader::Faulty(error)) => return Ok(Answer::NoFrame(Cause::Fault(error))),
        Err(NoHeader::CutHeader) => return Ok(Answer::Undecided),
    };
    match charged_rest(memory, bytes, known, header, budget)? {
        RestHere::Whole(len, block) => {
            let info = header.info();
            Ok(Answer::Found(len, DecodedFrame { info, block }))
        }
        RestHere::Broken(_, error) => Ok(Answer::NoFrame(Cause::Fault(error))),
        RestHere::CutFrame => Ok(Answer::Undecided),
    }
}

// The header that the bytes begin with.
pub(crate) fn header_here(
    bytes: &[u8],
    known: Option<StreamInfo>,
) -> result::Result<HeaderInBytes, NoHeader>
    requires { IfSome known (λ info. HasBitDepth info) }
    ensures stands { HeaderStands known bytes.now result }
{
    match header_at_start(bytes, known) {
        Ok(Some(header)) => {
            let block = header.info();
            if has_format(&block, known) {
                Ok(header)
            } else {
                Err(NoHeader::Other(block))
            }
        }
        Ok(None) => Err(NoHeader::CutHeader),
        Err(Error::IoError(_)) => Err(NoHeader::CutHeader),
        Err(Error::FormatError(text)) => Err(NoHeader::Faulty(Error::FormatError(text))),
        Err(Error::Unsupported(text)) => Err(NoHeader::Faulty(Error::Unsupported(text))),
        Err(Error::OutOfMemory) => Err(NoHeader::CutHeader),
    }
}

fn has_format(block: &BlockInfo, known: Option<StreamInfo>) -> bool
    ensures { IsTrue result ↔ HasFormat known block.now }
{
    match known {
        Some(info) => block.channels == info.channels && block.bit_depth == info.bits_per_sample,
        None => true,
    }
}

// The frame whose header the bytes begin with. A try that leads to none is charged.
pub(crate) fn charged_rest(
    memory: &mut BlockMemory,
    bytes: &[u8],
    known: Option<StreamInfo>,
    header: HeaderInBytes,
    budget: &mut Budget,
) -> Result<RestHere>
    requires depth { IfSome known (λ info. HasBitDepth info) }
    requires is_there { HeaderIsThere (known_format known) bytes.now header }
    ensures stands { FrameStands known bytes.now result }
    ensures memory_is_counted { MemoryIsCounted result memory.old memory.new }
    ensures is_charged { IfOk result (λ rest. RestIsCharged (block_samples (said_by header))
        (length bytes.now) rest budget.old budget.new) }
{
    let rest = rest_here(memory, bytes, known, header)?;
    charge(budget, header, bytes.len(), &rest);
    Ok(rest)
}

// Charges a try among so many bytes, if it led to no frame: the bytes of the fault, or all.
fn charge(budget: &mut Budget, header: HeaderInBytes, size: usize, rest: &RestHere)
    ensures is_charged { RestIsCharged (block_samples (said_by header)) size rest.now
        budget.old budget.new }
{
    match rest {
        RestHere::Whole(_, _) => {}
        RestHere::Broken(len, _) => budget.charge(header, *len),
        RestHere::CutFrame => budget.charge(header, size),
    }
}

// The frame whose header the bytes begin with.
fn rest_here(
    memory: &mut BlockMemory,
    bytes: &[u8],
    known: Option<StreamInfo>,
    header: HeaderInBytes,
) -> Result<RestHere>
    requires depth { IfSome known (λ info. HasBitDepth info) }
    requires is_there { HeaderIsThere (known_format known) bytes.now header }
    ensures stands { FrameStands known bytes.now result }
    ensures memory_is_counted { MemoryIsCounted result memory.old memory.new }
{
    let mut len = 0;
    match rest_at_start(memory, bytes, known, header, &mut len) {
        Ok(block) => Ok(RestHere::Whole(len, block)),
        Err(Error::IoError(_)) => Ok(RestHere::CutFrame),
        Err(Error::FormatError(text)) => Ok(RestHere::Broken(len, Error::FormatError(text))),
        Err(Error::Unsupported(text)) => Ok(RestHere::Broken(len, Error::Unsupported(text))),
        Err(Error::OutOfMemory) => Err(Error::OutOfMemory),
    }
}
