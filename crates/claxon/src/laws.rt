//! Laws on consecutive calls for samples, each the contract of a function without a body.
ghost use Rattle.claxon.specs.SampleRuns.{SamplesInTurn, SamplesToTheEnd, WholeStreams};

use crate::input::ReadBytes;
use std::alloc::Allocator;
use std::io::Read;

/// The samples given are those of blocks whose frames follow one another.
pub fn samples_in_turn<R: ReadBytes, A: Allocator>()
    ensures samples_in_turn { SamplesInTurn R.row A.row R.source }
{}

/// Where the next call gives no sample, all samples of these blocks were given.
pub fn samples_to_the_end<R: ReadBytes, A: Allocator>()
    ensures samples_to_the_end { SamplesToTheEnd R.row A.row R.source }
{}

/// A stream that was opened and gave its samples up to None was read whole.
pub fn whole_streams<R: Read, A: Allocator>()
    ensures whole_streams { WholeStreams R.row A.row R.remaining }
{}
