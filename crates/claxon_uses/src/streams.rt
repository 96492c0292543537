//! Whole streams in memory.
ghost use Rattle.std.specs.Prelude.{◌≡◌, ◌≤◌, ◌+◌, IfOk, IfErr, IsTrue, Some, None, false, vec_len};
ghost use Rattle.claxon.specs.FrameReader.{stream_with};
ghost use Rattle.claxon_uses.specs.Collecting.{
  Collects,
  NoneIsAdded,
  SampleIsAdded,
  StopsAdding,
  StopsCollecting,
};
ghost use Rattle.claxon_uses.specs.StreamsInMemory.{
  SliceStreamFaultIsComplete,
  SliceStreamIsComplete,
  SliceStreamOutOfMemoryAfterHeader,
  SliceStreamFaultIsSound,
  SliceStreamIsSound,
};

use claxon::input::ReadBytes;
use claxon::metadata::StreamInfo;
use claxon::{FlacReaderOptions, FlacSamples, Result, read_head};
use std::alloc::Allocator;
use std::io::Cursor;

/// The samples of a stream, interleaved.
///
/// One byte more than the stream is ignored. An error names the first fault, of the head or of a frame; it is an
/// `IoError` where the bytes end within one.
pub fn decode_all<A: Allocator + Copy>(alloc: A, bytes: &[u8]) -> Result<Vec<i32, A>>
    ensures is_sound { SliceStreamIsSound (λ all. all.items) bytes.now result }
    ensures is_complete { SliceStreamIsComplete (λ all. all.items) bytes.now result }
    ensures fault_is_sound { SliceStreamFaultIsSound bytes.now result }
    ensures fault_is_complete { SliceStreamFaultIsComplete bytes.now result }
    ensures out_of_memory_after_header { SliceStreamOutOfMemoryAfterHeader bytes.now result }
{
    let options = FlacReaderOptions {
        metadata_only: false,
        read_vorbis_comment: true,
    };
    let mut input = Cursor::new(bytes);
    let (info, _comment) = read_head(alloc, &mut input, options)?;
    collect_samples(alloc, input, info)
}

// The samples of all frames in the input, of the stream with this streaminfo.
fn collect_samples<R: ReadBytes + Drop, A: Allocator + Copy>(
    alloc: A,
    input: R,
    info: StreamInfo,
) -> Result<Vec<i32, A>>
    requires min_bit_depth { 1 ≤ info.bits_per_sample }
    requires max_bit_depth { info.bits_per_sample ≤ 32 }
    ensures ok { IfOk result (λ all.
        Collects R.source (Some (stream_with info)) input None all.items) }
    ensures err { IfErr result (λ error.
        StopsCollecting R.source (Some (stream_with info)) input error) }
{
    let mut samples = FlacSamples::new(alloc, input, info);
    let mut all = Vec::new(alloc);
    while push_next(&mut samples, &mut all)? {}
    Ok(all)
}

// Adds the next sample, and returns whether there was one.
fn push_next<R: ReadBytes + Drop, A: Allocator + Copy>(
    samples: &mut FlacSamples<R, A>,
    all: &mut Vec<i32, A>,
) -> Result<bool>
    ensures some { IfOk result (λ more. IsTrue more
        → SampleIsAdded R.source samples.old samples.new all.old.items all.new.items) }
    ensures len { IfOk result (λ more. IsTrue more → vec_len all.new ≡ vec_len all.old + 1) }
    ensures none { IfOk result (λ more. more ≡ false
        → NoneIsAdded R.source samples.old samples.new all.old.items all.new.items) }
    ensures err { IfErr result (λ error. StopsAdding R.source samples.old samples.new error) }
{
    match samples.next() {
        Some(sample) => {
            all.push(sample?)?;
            Ok(true)
        }
        None => Ok(false),
    }
}
