//! The samples of a stream, one by one.
ghost use Rattle.std.specs.Prelude.{◌≡◌, false, IfErr, IfOk};
ghost use Rattle.claxon.specs.FlacSamples.{have_failed};
ghost use Rattle.claxon_uses.specs.FirstSamples.{
  FirstFaultIsComplete,
  FirstFaultIsSound,
  FirstSamplesAreComplete,
  FirstSamplesAreSound,
  GivesFirstSamples,
  ErrBeforeCount,
};

use claxon::input::ReadBytes;
use claxon::{FlacReader, FlacSamples, Result};
use std::alloc::Allocator;
use std::io::Read;

/// The first samples of a stream, interleaved: this many, or all where it has fewer.
///
/// An error names the first fault of the stream; it is an `IoError` where its bytes end within the head or a frame.
pub fn first_samples<R: Read + Drop, A: Allocator + Copy>(
    alloc: A,
    reader: R,
    count: usize,
) -> Result<Vec<i32, A>>
    ensures are_sound { FirstSamplesAreSound count R.remaining reader result }
    ensures are_complete { FirstSamplesAreComplete count R.remaining reader result }
    ensures fault_is_sound { FirstFaultIsSound count R.remaining reader result }
    ensures fault_is_complete { FirstFaultIsComplete count R.remaining reader result }
{
    let mut flac = FlacReader::new(alloc, reader)?;
    first_of(alloc, flac.samples(), count)
}

// For any source of bytes, since a loop over a borrowed reader is costly to prove.
fn first_of<R: ReadBytes + Drop, A: Allocator + Copy>(
    alloc: A,
    samples: FlacSamples<R, A>,
    count: usize,
) -> Result<Vec<i32, A>>
    requires { have_failed samples ≡ false }
    ensures ok { IfOk result (λ first. GivesFirstSamples R.source count samples first.items) }
    ensures err { IfErr result (ErrBeforeCount R.source count samples) }
{
    let mut first = Vec::new(alloc);
    for sample in samples.take(count) {
        first.push(sample?)?;
    }
    Ok(first)
}
