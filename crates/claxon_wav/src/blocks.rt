//! The blocks of a stream, written to a WAV file.
ghost use Rattle.std.specs.Prelude.{◌≡◌, ◌≤◌, false, Some};
ghost use Rattle.claxon.specs.FlacReader.{flac_metadata_only};
ghost use Rattle.claxon.specs.FrameReader.{stream_with};
ghost use Rattle.claxon.specs.State.{bytes_in};
ghost use Rattle.claxon_wav.specs.Convert.{
  ConvertFaultEnds,
  ConvertFaultFinishes,
  ConvertFaultIsComplete,
  ConvertFaultIsSound,
  ConvertIsComplete,
  ConvertOutOfMemoryForLargerBlock,
  ConvertToStreamIsSound,
  IsSound,
  PutOutOfMemoryForLargerBlock,
  PutBlocksFaultIsSound,
  PutBlocksIsSound,
};
ghost use Rattle.claxon_command_line.specs.Progress.{SameErrors, StaysQuiet};
ghost use Rattle.claxon_blocks.specs.HashBlock.{HashesToo};
ghost use Rattle.claxon_wav.specs.Writer.{SameOutput};

use crate::error::Result;
use crate::writer::WavWriter;
use claxon::input::ReadBytes;
use claxon::metadata::StreamInfo;
use claxon::{Block, FlacReader};
use claxon_blocks::frames::read_block;
use claxon_blocks::hashing::hash_block;
use claxon_command_line::progress::Progress;
use claxon_md5::Md5;
use std::alloc::{Allocator, Global};
use std::io::{Read, Seek, Write};

/// Writes all samples of the stream, and finishes the file. After an error of the input the samples before it are in a valid file
/// too, unless a call of the output fails. The samples are hashed too, as the MD5 sum of a stream has them, if there is a hasher.
///
/// # Errors
///
/// The first one: the decoder's, or that of `WavWriter::put_block` or `WavWriter::finish`.
pub fn convert<R: Read + Drop, W: Write + Seek, E: Write>(
    alloc: Global,
    flac: &mut FlacReader<R>,
    wav: &mut WavWriter<'_, W>,
    md5: &mut Option<Md5>,
    progress: &mut Progress<'_, '_, E>,
) -> Result<()>
    requires { flac_metadata_only flac.old ≡ false }
    ensures same_output { SameOutput wav.old wav.new }
    ensures is_sound { IsSound W.contents W.stream_position R.remaining flac.old result
        wav.old wav.new md5.old md5.new }
    ensures fault_is_sound { ConvertFaultIsSound R.remaining result flac.old flac.new wav.old
        wav.new }
    ensures is_complete { ConvertIsComplete R.remaining result flac.old flac.new wav.old wav.new }
    ensures fault_is_complete { ConvertFaultIsComplete R.remaining result flac.old flac.new wav.old
        wav.new }
    ensures fault_finishes { ConvertFaultFinishes R.remaining result flac.old flac.new wav.old
        wav.new W.contents }
    ensures out_of_memory_for_larger_block { ConvertOutOfMemoryForLargerBlock R.remaining result
        flac.old flac.new wav.old wav.new }
    ensures same_errors { SameErrors progress.old progress.new }
    ensures stays_quiet { StaysQuiet progress.old progress.new }
{
    let info = flac.streaminfo();
    let outcome = put_blocks(alloc, flac.input(), info, wav, md5, progress);
    let finished = wav.finish();
    outcome?;
    finished
}

/// Writes all samples of the stream to an output that can't seek, after a header that stays as it is. After an error of the input
/// the samples before it are written too, and the end of the file. The samples are hashed as by `convert`.
///
/// # Errors
///
/// The first one: the decoder's, or that of `WavWriter::put_block` or `WavWriter::finish_stream`.
pub fn convert_to_stream<R: Read + Drop, W: Write, E: Write>(
    alloc: Global,
    flac: &mut FlacReader<R>,
    wav: &mut WavWriter<'_, W>,
    md5: &mut Option<Md5>,
    progress: &mut Progress<'_, '_, E>,
) -> Result<()>
    requires { flac_metadata_only flac.old ≡ false }
    ensures same_output { SameOutput wav.old wav.new }
    ensures is_sound { ConvertToStreamIsSound W.contents R.remaining flac.old result wav.old wav.new
        md5.old md5.new }
    ensures fault_is_sound { ConvertFaultIsSound R.remaining result flac.old flac.new wav.old
        wav.new }
    ensures is_complete { ConvertIsComplete R.remaining result flac.old flac.new wav.old wav.new }
    ensures fault_is_complete { ConvertFaultIsComplete R.remaining result flac.old flac.new wav.old
        wav.new }
    ensures fault_ends { ConvertFaultEnds R.remaining result flac.old flac.new wav.old wav.new
        W.contents }
    ensures out_of_memory_for_larger_block { ConvertOutOfMemoryForLargerBlock R.remaining result
        flac.old flac.new wav.old wav.new }
    ensures same_errors { SameErrors progress.old progress.new }
    ensures stays_quiet { StaysQuiet progress.old progress.new }
{
    let info = flac.streaminfo();
    let outcome = put_blocks(alloc, flac.input(), info, wav, md5, progress);
    let ended = wav.finish_stream();
    outcome?;
    ended
}

// Writes and hashes block after block of the stream with this streaminfo. Each block has samples, so the size of a WAV file
// bounds their number.
fn put_blocks<R: ReadBytes, W: Write, E: Write>(
    alloc: Global,
    input: &mut R,
    info: StreamInfo,
    wav: &mut WavWriter<'_, W>,
    md5: &mut Option<Md5>,
    progress: &mut Progress<'_, '_, E>,
) -> Result<()>
    requires min_bit_depth { 1 ≤ info.bits_per_sample }
    requires max_bit_depth { info.bits_per_sample ≤ 32 }
    ensures same_output { SameOutput wav.old wav.new }
    ensures is_sound { PutBlocksIsSound W.contents (Some (stream_with info)) result
        (bytes_in R.source input.old) (bytes_in R.source input.new) wav.old wav.new
        info.bits_per_sample md5.old md5.new }
    ensures fault_is_sound { PutBlocksFaultIsSound W.contents (Some (stream_with info)) result
        (bytes_in R.source input.old) (bytes_in R.source input.new) wav.old wav.new }
    ensures out_of_memory_for_larger_block { PutOutOfMemoryForLargerBlock (Some (stream_with info))
        result (bytes_in R.source input.old) (bytes_in R.source input.new) }
    ensures same_errors { SameErrors progress.old progress.new }
    ensures stays_quiet { StaysQuiet progress.old progress.new }
{
    let mut buffer = Vec::new(alloc);
    let mut done = 0u64;
    while let Some(block) = read_block(input, info, buffer)? {
        wav.put_block(&block)?;
        hash(md5, &block, info.bits_per_sample);
        done = done.saturating_add(u64::from(block.duration()));
        progress.show(done);
        buffer = block.into_buffer();
    }
    Ok(())
}

// Hashes the samples of this block too, if there is a hasher.
fn hash<A: Allocator>(md5: &mut Option<Md5>, block: &Block<A>, bit_depth: u32)
    requires min_bit_depth { 1 ≤ bit_depth }
    requires max_bit_depth { bit_depth ≤ 32 }
    ensures hashes_too { HashesToo bit_depth block.now md5.old md5.new }
{
    if let Some(hasher) = md5 {
        hash_block(hasher, block, bit_depth);
    }
}
