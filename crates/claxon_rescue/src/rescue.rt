//! Damaged streams, written with what is whole of them at its time.
ghost use Rattle.std.specs.Prelude.{◌≡◌, [], IfOk};
ghost use Rattle.claxon.specs.ShownHead.{HasBitDepth};
ghost use Rattle.claxon_blocks.specs.Md5Verdict.{HasHashedBytes};
ghost use Rattle.claxon_recovery.specs.Parts.{parts_known, parts_position};
ghost use Rattle.claxon_command_line.specs.Progress.{SameErrors};
ghost use Rattle.claxon_rescue.specs.RescueFile.{
  BeginsRescue,
  IsPlanFor,
  IsRescued,
  RescuesTo,
  rules_of,
};

use crate::due::{Due, Rules};
use crate::losses::Losses;
use crate::parts::Rescue;
use crate::waiting::Waiting;
use claxon::input::ReadBytes;
use claxon::metadata::StreamInfo;
use claxon_blocks::md5_verdict::judge_md5;
use claxon_command_line::progress::Progress;
use claxon_md5::Md5;
use claxon_recovery::Parts;
use claxon_wav::{Conversion, Layout, MAX_DATA_SIZE, MAX_HEADER_SIZE, Plan, Result, WavWriter};
use std::alloc::Global;
use std::io::{Seek, Write};

/// What is rescued of a damaged stream.
#[derive(Clone, Copy)]
pub struct RescueOptions {
    /// The position of the first byte after the head.
    pub start: u64,
    /// Whether silence is written where samples are lost.
    pub fills_gaps: bool,
    /// How many ranges of lost samples are kept.
    pub max_ranges: usize,
}

/// What was rescued of a damaged stream.
#[derive(Drop)]
pub struct Rescued {
    /// The number of samples that were written, and what became of their MD5 sum: it isn't computed where samples are missing.
    pub conversion: Conversion,
    /// What is lost.
    pub losses: Losses,
}

/// Writes what is whole of a stream to a file, whose header is corrected at the end where it isn't right.
///
/// # Errors
///
/// Those of `Parts::next_part`, of `WavWriter::put_block`, `put_silence` and `finish`, and of a write of the header;
/// `OutOfMemory` where memory for the ranges or the next frames is refused. After an error of the input the samples before
/// it are in a valid file too, unless a call of the output fails.
pub fn rescue_file<R: ReadBytes, W: Write + Seek, E: Write>(
    alloc: Global,
    parts: &mut Parts<R>,
    info: StreamInfo,
    file: &mut W,
    plan: Plan,
    options: RescueOptions,
    progress: &mut Progress<'_, '_, E>,
) -> Result<Rescued>
    requires has_bit_depth { HasBitDepth info }
    requires is_plan_for { IsPlanFor info plan }
    requires same_info { parts_known parts.old ≡ Some info }
    requires at_start { parts_position parts.old ≡ options.start }
    ensures rescues_to { RescuesTo R.source W.contents W.stream_position plan options
        parts.old file.old result file.new }
    ensures same_errors { SameErrors progress.old progress.new }
{
    let rules = rules_of(info, &plan.layout, options);
    let mut rescue = new_rescue(alloc, plan, options)?;
    let header = Vec::with_capacity(alloc, MAX_HEADER_SIZE)?;
    let mut wav = WavWriter::new(alloc, header, file, plan.layout);
    wav.start(plan.announced.unwrap_or(0))?;
    rescue.write(parts, options.start, &rules, &mut wav, progress)?;
    let samples = wav.samples();
    let _ = wav.into_output();
    Ok(rescued_of(rescue, samples, &info))
}

// Where frames stand. Where the streaminfo doesn't say how many samples there are, no more are expected than a WAV file holds.
fn rules_of(info: StreamInfo, layout: &Layout, options: RescueOptions) -> Rules
    ensures { result ≡ rules_of info layout.now options }
{
    let most = u64::from(MAX_DATA_SIZE / layout.block_align());
    Rules {
        info,
        limit: info.samples.unwrap_or(most),
        fills_gaps: options.fills_gaps,
    }
}

// Nothing was rescued so far.
fn new_rescue(alloc: Global, plan: Plan, options: RescueOptions) -> Result<Rescue>
    ensures { IfOk result (BeginsRescue plan options) }
{
    Ok(Rescue {
        due: Due::new(options.start),
        waiting: Waiting::new(alloc)?,
        losses: Losses::new(alloc, options.max_ranges)?,
        md5: new_hasher(plan.computes_md5),
    })
}

// A hasher of no samples, if the MD5 sum is computed.
fn new_hasher(computes_md5: bool) -> Option<Md5>
    ensures has_hashed_bytes { HasHashedBytes computes_md5 [] result }
{
    if computes_md5 { Some(Md5::new()) } else { None }
}

// What was rescued, after so many samples were written.
fn rescued_of(rescue: Rescue, samples: u32, info: &StreamInfo) -> Rescued
    ensures { IsRescued rescue samples info.now result }
{
    let Rescue {
        due: _,
        waiting: _,
        losses,
        md5,
    } = rescue;
    Rescued {
        conversion: Conversion {
            samples,
            md5: judge_md5(info, md5),
        },
        losses,
    }
}
