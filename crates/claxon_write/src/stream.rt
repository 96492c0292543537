//! The samples of a stream, written as bytes.
ghost use Rattle.std.specs.Prelude.{◌≡◌, ◌≤◌, false, Some};
ghost use Rattle.claxon.specs.Frame.{IsBitDepth};
ghost use Rattle.claxon.specs.FlacReader.{flac_metadata_only, flac_streaminfo};
ghost use Rattle.claxon.specs.FrameReader.{frame_bytes};
ghost use Rattle.claxon_write.specs.InnerWriter.{SameWriter};
ghost use Rattle.claxon_write.specs.Run.{
  RunFaultIsComplete,
  RunIsComplete,
  RunFaultIsSound,
  RunWritesPrefix,
  RunIsSound,
};
ghost use Rattle.claxon_write.specs.WriteBlocks.{
  GatherBlocksFaultIsSound,
  WriteBlocksFaultIsSound,
  GatherBlocksIsSound,
  GatherOutOfMemoryForLargerBlock,
  WriteBlocksIsSound,
  WriteOutOfMemoryForLargerBlock,
};
ghost use Rattle.claxon_write.specs.WriteSamples.{
  StreamFaultIsComplete,
  StreamIsComplete,
  StreamLeavesRest,
  KeepsHead,
  StreamIsSound,
  StreamFaultIsSound,
  StreamOutOfMemoryForLargerBlock,
};
ghost use Rattle.claxon_write.specs.Written.{IsUnflushed};

use crate::output::Output;
use claxon::frame::FrameReader;
use claxon::input::ReadBytes;
use claxon::metadata::StreamInfo;
use claxon::{Error, FlacReader, Result};
use std::alloc::Allocator;
use std::io::{Read, Write};

const TOO_MANY_SAMPLES: &str = "more than 18446744073709551615 samples are not supported";

/// Writes each sample of the input as four little-endian bytes, and returns the number of samples.
///
/// It does not count how often the writer failed: for that use `write_samples`.
///
/// # Errors
///
/// The error of `FlacReader::new`, and then nothing was written; else those of `write_samples`. Whatever the error, only a
/// prefix of the samples of the blocks that follow the head was written.
pub fn run<R: Read + Drop, W: Write, A: Allocator + Copy>(
    alloc: A,
    input: R,
    output: &mut W,
) -> Result<u64>
    // The input is a head, frames and fewer than two bytes, and exactly the samples of these frames were written.
    ensures is_sound { RunIsSound W.contents result (R.remaining input) output.old output.new }
    // The input has that fault, and exactly the samples before it were written; else it is an `IoError` or `OutOfMemory`.
    ensures fault_is_sound { RunFaultIsSound W.contents result (R.remaining input) output.old
        output.new }
    // Holds after an `IoError` or `OutOfMemory` too.
    ensures writes_prefix { RunWritesPrefix W.contents result (R.remaining input) output.old
        output.new }
    ensures is_complete { RunIsComplete result (R.remaining input) }
    ensures fault_is_complete { RunFaultIsComplete result (R.remaining input) }
{
    let mut flac = FlacReader::new(alloc, input)?;
    let mut output = Output::new(output);
    let outcome = write_samples(alloc, &mut flac, &mut output);
    let _ = output.into_inner();
    outcome
}

/// Writes each remaining sample as four little-endian bytes, flushes, and returns the number of samples.
///
/// # Errors
///
/// The first error of the decoder, or an `IoError` of the writer. After a decoder's error all samples before it were written,
/// and the output was flushed; a flush that fails then is ignored. After a failed write a prefix of the samples so far was
/// written, and there is no flush. `Unsupported` if there are 2^64 samples or more.
///
/// Blocks are read into the same memory, so `OutOfMemory` is returned only at one with more samples than each before it.
///
/// Only the frames of the blocks that were handed on are consumed, or also the end or the fault after them, so the reader
/// can go on with what follows.
pub fn write_samples<R: Read + Drop, W: Write, A: Allocator + Copy>(
    alloc: A,
    flac: &mut FlacReader<R, A>,
    output: &mut Output<'_, W>,
) -> Result<u64>
    requires { flac_metadata_only flac.old ≡ false }
    ensures same_writer { SameWriter output.old output.new }
    ensures keeps_head { KeepsHead flac.old flac.new }
    ensures leaves_rest { StreamLeavesRest R.remaining flac.old flac.new }
    // Exactly the samples up to the end of the stream were written, and then flushed.
    ensures is_sound { StreamIsSound W.contents R.remaining result
        flac.old flac.new output.old output.new }
    // All samples before a decoder's error were written, and then flushed, or the writer failed.
    ensures fault_is_sound { StreamFaultIsSound W.contents R.remaining result
        flac.old flac.new output.old output.new }
    // Blocks that are no larger than earlier ones need no more memory.
    ensures out_of_memory_for_larger_block { StreamOutOfMemoryForLargerBlock R.remaining result
        flac.old flac.new }
    ensures is_complete { StreamIsComplete R.remaining result flac.old flac.new output.old
        output.new }
    ensures fault_is_complete { StreamFaultIsComplete R.remaining result
        flac.old flac.new output.old output.new }
{
    write_samples_exact(alloc, flac, output)
}

// Writes all samples, and then flushes, after a decoder's error too, so that no sample before it stays in the writer. The
// decoder's error came first, so a flush that fails then is ignored.
fn write_samples_exact<R: Read + Drop, W: Write, A: Allocator + Copy>(
    alloc: A,
    flac: &mut FlacReader<R, A>,
    output: &mut Output<'_, W>,
) -> Result<u64>
    requires { flac_metadata_only flac.old ≡ false }
    ensures same_writer { SameWriter output.old output.new }
    ensures keeps_head { KeepsHead flac.old flac.new }
    ensures bit_depth { IsBitDepth (Some (flac_streaminfo flac.old).bits_per_sample) }
    ensures is_sound { StreamIsSound W.contents R.remaining result
        flac.old flac.new output.old output.new }
    ensures fault_is_sound { StreamFaultIsSound W.contents R.remaining result
        flac.old flac.new output.old output.new }
    ensures out_of_memory_for_larger_block { StreamOutOfMemoryForLargerBlock R.remaining result
        flac.old flac.new }
{
    let info = flac.streaminfo();
    let end = write_blocks(alloc, flac.input(), info, output)?;
    let flushed = output.flush_writer();
    if let Some(fault) = end.fault {
        return Err(fault);
    }
    flushed.and(Ok(end.count))
}

/// The number of samples, and the decoder's error that ended them.
#[derive(Drop)]
struct End {
    count: u64,
    fault: Option<Error>,
}

// Writes block after block of the stream with this streaminfo. An error is the writer's.
//
// It makes its own `FrameReader` instead of `flac.blocks()`: the prover loses what was read through a lending method once
// that is called again. The gathered bytes are written after a decoder's error too, so that no sample before it is lost.
fn write_blocks<R: ReadBytes, W: Write, A: Allocator + Copy>(
    alloc: A,
    input: &mut R,
    info: StreamInfo,
    output: &mut Output<'_, W>,
) -> Result<End>
    requires min_bit_depth { 1 ≤ info.bits_per_sample }
    requires max_bit_depth { info.bits_per_sample ≤ 32 }
    ensures same_writer { SameWriter output.old output.new }
    ensures is_sound { WriteBlocksIsSound W.contents R.source info result
        input.old input.new output.old output.new }
    ensures is_unflushed { IsUnflushed output.old output.new }
    ensures fault_is_sound { WriteBlocksFaultIsSound W.contents R.source info result
        input.old input.new output.old output.new }
    ensures out_of_memory_for_larger_block { WriteOutOfMemoryForLargerBlock R.source info result
        input.old input.new }
{
    let mut frames = FrameReader::with_streaminfo(input, info);
    let end = gather_blocks(alloc, &mut frames, output)?;
    let written = output.write_gathered();
    written.and(Ok(end))
}

// Gathers block after block. An error is the writer's.
fn gather_blocks<R: ReadBytes, W: Write, A: Allocator + Copy>(
    alloc: A,
    frames: &mut FrameReader<R>,
    output: &mut Output<'_, W>,
) -> Result<End>
    ensures same_writer { SameWriter output.old output.new }
    ensures loans { (frame_bytes R.source frames.new).source.loans
        ≡ (frame_bytes R.source frames.old).source.loans }
    ensures is_sound { GatherBlocksIsSound W.contents R.source result
        frames.old frames.new output.old output.new }
    ensures is_unflushed { IsUnflushed output.old output.new }
    ensures fault_is_sound { GatherBlocksFaultIsSound W.contents R.source result
        frames.old frames.new output.old output.new }
    ensures out_of_memory_for_larger_block { GatherOutOfMemoryForLargerBlock R.source result
        frames.old frames.new }
{
    let mut count = 0u64;
    let mut buffer = Vec::new(alloc);
    loop {
        let block = match frames.read_next_or_eof(buffer) {
            Ok(Some(block)) => block,
            Ok(None) => return Ok(End { count, fault: None }),
            Err(fault) => {
                let fault = Some(fault);
                return Ok(End { count, fault });
            }
        };
        let Some(more) = count.checked_add(u64::from(block.len())) else {
            let fault = Some(Error::Unsupported(TOO_MANY_SAMPLES));
            return Ok(End { count, fault });
        };
        output.put_block(&block)?;
        count = more;
        buffer = block.into_buffer();
    }
}
