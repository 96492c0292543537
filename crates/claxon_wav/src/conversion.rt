//! A whole stream, converted.
ghost use Rattle.std.specs.Prelude.{◌≡◌, ◌≤◌, [], OnOk, false};
ghost use Rattle.std.specs.Option.{ForSome};
ghost use Rattle.claxon.specs.FlacReader.{flac_metadata_only};
ghost use Rattle.claxon_blocks.specs.Md5Verdict.{HasHashedBytes};
ghost use Rattle.claxon_wav.specs.Conversion.{
  ConversionFaultIsSound,
  ConversionIsSound,
  WritesFile,
  WritesStream,
  plan_computes_md5,
};
ghost use Rattle.claxon_wav.specs.DataSize.{max_data_size};
ghost use Rattle.claxon_wav.specs.Writer.{BeginsAs, SameOutput, StartFaultIsSound};

use crate::blocks::{convert, convert_to_stream};
use crate::error::Result;
use crate::header::MAX_HEADER_SIZE;
use crate::plan::Plan;
use crate::writer::WavWriter;
use claxon::FlacReader;
use claxon::metadata::StreamInfo;
use claxon_blocks::md5_verdict::{Md5Verdict, judge_md5};
use claxon_command_line::progress::Progress;
use claxon_md5::Md5;
use std::alloc::Global;
use std::io::{Read, Seek, Write};

/// What was converted.
#[derive(Clone, Copy)]
pub struct Conversion {
    /// The number of samples per channel.
    pub samples: u32,
    /// What became of their MD5 sum.
    pub md5: Md5Verdict,
}

/// What the streaminfo says otherwise than a conversion found.
#[derive(Clone, Copy)]
pub enum Mismatch {
    /// The number of samples per channel: this one.
    Samples(u64),
    /// The MD5 sum of the samples.
    Md5,
}

impl Conversion {
    ghost use Rattle.claxon_wav.specs.Mismatch.{md5_mismatch, mismatch_of};

    /// What the streaminfo says otherwise. Another number of samples goes before another MD5 sum.
    pub fn mismatch(&self, info: &StreamInfo) -> Option<Mismatch>
        ensures { result ≡ mismatch_of info.now.samples self.now }
    {
        match info.samples {
            Some(known) if known != u64::from(self.samples) => Some(Mismatch::Samples(known)),
            _ => self.md5_mismatch(),
        }
    }

    fn md5_mismatch(&self) -> Option<Mismatch>
        ensures { result ≡ md5_mismatch self.now.md5 }
    {
        match self.md5 {
            Md5Verdict::Wrong => Some(Mismatch::Md5),
            _ => None,
        }
    }
}

/// Writes a stream to a file, whose header is corrected at the end where it isn't right.
///
/// # Errors
///
/// Those of `convert`, and of a write of the header.
pub fn write_file<R: Read + Drop, W: Write + Seek, E: Write>(
    alloc: Global,
    flac: &mut FlacReader<R>,
    file: &mut W,
    plan: Plan,
    progress: &mut Progress<'_, '_, E>,
) -> Result<Conversion>
    requires reads_frames { flac_metadata_only flac.old ≡ false }
    ensures is_sound { ConversionIsSound (plan_computes_md5 plan) R.remaining flac.old result }
    ensures fault_is_sound { ConversionFaultIsSound plan.layout R.remaining result flac.old
        flac.new }
    ensures writes_file { WritesFile plan W.contents W.stream_position R.remaining flac.old result
        file.old file.new }
{
    let info = flac.streaminfo();
    let mut md5 = new_hasher(plan.computes_md5);
    let header = Vec::with_capacity(alloc, MAX_HEADER_SIZE)?;
    let mut wav = WavWriter::new(alloc, header, file, plan.layout);
    wav.start(plan.announced.unwrap_or(0))?;
    convert(alloc, flac, &mut wav, &mut md5, progress)?;
    let samples = wav.samples();
    let _ = wav.into_output();
    Ok(Conversion {
        samples,
        md5: judge_md5(&info, md5),
    })
}

/// Writes a stream to an output that can't seek.
///
/// # Errors
///
/// Those of `convert_to_stream`, and of a write of the header.
pub fn write_stream<R: Read + Drop, W: Write, E: Write>(
    alloc: Global,
    flac: &mut FlacReader<R>,
    output: &mut W,
    plan: Plan,
    progress: &mut Progress<'_, '_, E>,
) -> Result<Conversion>
    requires reads_frames { flac_metadata_only flac.old ≡ false }
    ensures is_sound { ConversionIsSound (plan_computes_md5 plan) R.remaining flac.old result }
    ensures fault_is_sound { ConversionFaultIsSound plan.layout R.remaining result flac.old
        flac.new }
    ensures writes_stream { WritesStream plan R.remaining flac.old result (W.contents output.old)
        (W.contents output.new) }
{
    let info = flac.streaminfo();
    let mut md5 = new_hasher(plan.computes_md5);
    let header = Vec::with_capacity(alloc, MAX_HEADER_SIZE)?;
    let mut wav = WavWriter::new(alloc, header, output, plan.layout);
    start_planned(&mut wav, plan.announced)?;
    convert_to_stream(alloc, flac, &mut wav, &mut md5, progress)?;
    let written = wav.samples();
    let _ = wav.into_output();
    Ok(Conversion {
        samples: written,
        md5: judge_md5(&info, md5),
    })
}

// Writes the header that announces this number of bytes of samples, or that for an unknown one.
fn start_planned<W: Write>(wav: &mut WavWriter<'_, W>, announced: Option<u32>) -> Result<()>
    requires fits { ForSome announced (λ n. n ≤ max_data_size) }
    ensures same_output { SameOutput wav.old wav.new }
    ensures is_sound { OnOk result (BeginsAs W.contents announced wav.old wav.new) }
    ensures fault_is_sound { StartFaultIsSound result wav.old wav.new }
{
    match announced {
        Some(size) => wav.start(size),
        None => wav.start_unknown(),
    }
}

// A hasher of no samples, if the MD5 sum is computed.
fn new_hasher(computes_md5: bool) -> Option<Md5>
    ensures has_hashed_bytes { HasHashedBytes computes_md5 [] result }
{
    if computes_md5 { Some(Md5::new()) } else { None }
}
