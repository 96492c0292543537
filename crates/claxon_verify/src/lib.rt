//! Whether a whole stream is right: its frames, their order, and the MD5 sum of their samples.
#![tactic(auto)]

ghost use Rattle.std.specs.Prelude.{◌≡◌, ◌↔◌, ◌≤◌, IfErr, IfOk, IsTrue, List, None, Some, length};
ghost use Rattle.claxon.specs.Error.{is_io};
ghost use Rattle.claxon.specs.FrameReader.{stream_with};
ghost use Rattle.claxon.specs.MetadataBlock.{info_view, or_zero};
ghost use Rattle.claxon.specs.State.{bytes_in};
ghost use Rattle.claxon_command_line.specs.Progress.{StaysQuiet};
ghost use Rattle.claxon_report.specs.Kept.{AreKept, Keeps};
ghost use Rattle.claxon_verify.specs.Notes.{NotesAreExact, WalkIsNoted};
ghost use Rattle.claxon_report.specs.Places.{places_at};
ghost use Rattle.claxon_report.specs.Report.{NothingIsWrong};
ghost use Rattle.claxon_verify.specs.Trailing.{TrailingIsTold, TrailingOf, WalksToTail};
ghost use Rattle.claxon_heads.specs.BytesRead.{counted_bytes, position_of};
ghost use Rattle.claxon_verify.specs.Verify.{
  KeepsAtMost,
  PlacesAreCounted,
  RightIsComplete,
  RightIsSound,
  StopsCounting,
  VerifyFaultIsSound,
  VerifyHeadFaultIsComplete,
  VerifyIsComplete,
  VerifyIsQuiet,
  VerifyIsSound,
  VerifyOutOfMemoryAfterHeader,
  VerifyPromises,
};
ghost use Rattle.claxon_blocks.specs.Md5Verdict.{Md5IsJudged, Md5IsShown};
ghost use Rattle.claxon_verify.specs.Walk.{WalksToEnd};
ghost use Rattle.claxon_report.specs.declared.place.Place.{Place};

use claxon::input::ReadBytes;
use claxon::metadata::StreamInfo;
use claxon::running::RunningReader;
use claxon::{Error, Result};
use claxon_blocks::frames::read_frame;
use claxon_blocks::md5_verdict::{Md5Verdict, computed_md5, judge_md5};
use claxon_command_line::progress::Progress;
use claxon_heads::{BytesRead, UnsupportedBlock, read_head};
use claxon_md5::Md5;
use claxon_report::{Found, Notes, Report, has_nothing_wrong};
use std::alloc::Allocator;
use std::io::Write;
use walk::{ByteRange, Walk, at_end, too_many, trailing, with_fault, with_frame};

mod frames;
mod parts;
mod sizes;
pub mod trailing;
mod walk;

pub use frames::verify_frames;
pub use parts::verify_parts;

/// Decodes all frames of a stream, and goes on after each fault but an `IoError`. The MD5 sum of the samples is computed if
/// `computes_md5` is true. After the first place `more` of them are kept. If the streaminfo says how many samples there are,
/// `progress` shows how many are done.
///
/// # Errors
///
/// That of a head, of which metadata blocks that aren't supported are passed over. `OutOfMemory` if memory for a block is
/// refused. `Unsupported` if there are 2^64 samples or more, or 2^64 - 1 frames and faults or more.
pub fn verify<R: ReadBytes, A: Allocator + Copy, E: Write>(
    alloc: A,
    input: &mut R,
    computes_md5: bool,
    more: usize,
    progress: &mut Progress<'_, '_, E>,
) -> Result<Report<A>>
    ensures is_sound { VerifyIsSound computes_md5 (bytes_in R.source input.old) result
        (bytes_in R.source input.new) }
    ensures is_complete { VerifyIsComplete computes_md5 (bytes_in R.source input.old) result
        (bytes_in R.source input.new) }
    ensures right_is_sound { RightIsSound computes_md5 (bytes_in R.source input.old) result
        (bytes_in R.source input.new) }
    ensures right_is_complete { RightIsComplete computes_md5 (bytes_in R.source input.old) result
        (bytes_in R.source input.new) }
    ensures places_are_counted { PlacesAreCounted computes_md5 (bytes_in R.source input.old) result
        (bytes_in R.source input.new) }
    ensures notes_are_exact { NotesAreExact (bytes_in R.source input.old) result
        (bytes_in R.source input.new) }
    ensures trailing_is_told { TrailingIsTold computes_md5 (bytes_in R.source input.old) result
        (bytes_in R.source input.new) }
    ensures keeps_at_most { KeepsAtMost more result }
    ensures fault_is_sound { VerifyFaultIsSound (bytes_in R.source input.old) result
        (bytes_in R.source input.new) }
    ensures head_fault_is_complete { VerifyHeadFaultIsComplete (bytes_in R.source input.old) result
        (bytes_in R.source input.new) }
    ensures out_of_memory_after_header { VerifyOutOfMemoryAfterHeader (bytes_in R.source input.old)
        result (bytes_in R.source input.new) }
    ensures is_quiet { VerifyIsQuiet result progress.old progress.new }
{
    verify_exact(alloc, input, computes_md5, more, progress)
}

// `verify`, with all its clauses in one.
fn verify_exact<R: ReadBytes, A: Allocator + Copy, E: Write>(
    alloc: A,
    input: &mut R,
    computes_md5: bool,
    more: usize,
    progress: &mut Progress<'_, '_, E>,
) -> Result<Report<A>>
    ensures promises { VerifyPromises computes_md5 (bytes_in R.source input.old) result
        (bytes_in R.source input.new) }
    ensures places_are_counted { PlacesAreCounted computes_md5 (bytes_in R.source input.old) result
        (bytes_in R.source input.new) }
    ensures notes_are_exact { NotesAreExact (bytes_in R.source input.old) result
        (bytes_in R.source input.new) }
    ensures trailing_is_told { TrailingIsTold computes_md5 (bytes_in R.source input.old) result
        (bytes_in R.source input.new) }
    ensures keeps_at_most { KeepsAtMost more result }
    ensures is_quiet { VerifyIsQuiet result progress.old progress.new }
{
    let mut input = RunningReader::new(input);
    verify_counted(alloc, &mut input, computes_md5, more, progress)
}

// Verifies a stream of which nothing was read.
fn verify_counted<R: ReadBytes, A: Allocator + Copy, E: Write>(
    alloc: A,
    input: &mut RunningReader<R, BytesRead>,
    computes_md5: bool,
    more: usize,
    progress: &mut Progress<'_, '_, E>,
) -> Result<Report<A>>
    requires { position_of input.old ≡ 0 }
    ensures promises { VerifyPromises computes_md5 (counted_bytes R.source input.old) result
        (counted_bytes R.source input.new) }
    ensures places_are_counted { PlacesAreCounted computes_md5 (counted_bytes R.source input.old)
        result (counted_bytes R.source input.new) }
    ensures notes_are_exact { NotesAreExact (counted_bytes R.source input.old) result
        (counted_bytes R.source input.new) }
    ensures trailing_is_told { TrailingIsTold computes_md5 (counted_bytes R.source input.old) result
        (counted_bytes R.source input.new) }
    ensures keeps_at_most { KeepsAtMost more result }
    ensures is_quiet { VerifyIsQuiet result progress.old progress.new }
    ensures loans { (counted_bytes R.source input.new).source.loans
        ≡ (counted_bytes R.source input.old).source.loans }
{
    let (info, unsupported) = read_head(alloc, input)?;
    progress.start(info.samples);
    let walk = walk_frames(alloc, input, info, computes_md5, more, progress)?;
    Ok(report_of(info, unsupported, walk))
}

// What was found in a stream with this streaminfo, of whose metadata this isn't supported.
fn report_of<A: Allocator>(
    info: StreamInfo,
    unsupported: Option<UnsupportedBlock>,
    walk: Walk<A>,
) -> Report<A>
    ensures info { result.info ≡ info }
    ensures unsupported { result.unsupported ≡ unsupported }
    ensures frames { result.found.frames ≡ walk.frames }
    ensures samples { result.found.samples ≡ walk.samples }
    ensures kept { (all : List Place) → Keeps all walk.places
        → AreKept (places_at walk.end (or_zero info.samples)
        (record { scan = walk.scan; places = all }))
        result.found.places.first result.found.places.more.items result.found.places.left_out }
    ensures few { length walk.places.places.more.items ≤ walk.places.more
        → length result.found.places.more.items ≤ walk.places.more }
    ensures sizes { result.found.notes.changed_block_size ≡ walk.sizes.changed }
    ensures notes { result.found.notes
        ≡ (record walk.notes { changed_block_size = walk.sizes.changed }) }
    ensures trailing { TrailingOf info.samples walk result.trailing }
    ensures md5_is_judged { Md5IsJudged (info_view info) walk.md5 result.md5 }
    ensures md5_is_shown { Md5IsShown walk.md5 result.computed_md5 }
    ensures is_right { IsTrue result.is_right ↔ ((unsupported ≡ None)
        × NothingIsWrong result.found (or_zero info.samples) result.md5) }
{
    let trailing = trailing(&walk, &info);
    let Walk {
        frames,
        samples,
        scan,
        places,
        notes,
        sizes,
        md5,
        end,
        ..
    } = walk;
    let (ended, last) = scan.finish(end, info.samples.unwrap_or(0));
    let found = Found {
        frames,
        samples,
        places: places.with(ended).with(last).places,
        notes: Notes {
            changed_block_size: sizes.changed,
            ..notes
        },
    };
    let computed_md5 = computed_md5(md5);
    let md5 = judge_md5(&info, md5);
    let is_right = unsupported.is_none() && has_nothing_wrong(&found, info.samples, md5);
    Report {
        info,
        unsupported,
        found,
        md5,
        computed_md5,
        trailing,
        is_right,
    }
}

// Finds frames and faults up to the end, or to an `IoError`.
fn walk_frames<R: ReadBytes, A: Allocator + Copy, E: Write>(
    alloc: A,
    input: &mut RunningReader<R, BytesRead>,
    info: StreamInfo,
    computes_md5: bool,
    more: usize,
    progress: &mut Progress<'_, '_, E>,
) -> Result<Walk<A>>
    requires min_bit_depth { 1 ≤ info.bits_per_sample }
    requires max_bit_depth { info.bits_per_sample ≤ 32 }
    ensures ok { IfOk result (WalksToEnd computes_md5 (Some (stream_with info)) (info_view info)
        (position_of input.old)
        (counted_bytes R.source input.old) (counted_bytes R.source input.new)) }
    ensures tail { IfOk result (WalksToTail computes_md5 (Some (stream_with info)) (info_view info)
        (position_of input.old)
        (counted_bytes R.source input.old) (counted_bytes R.source input.new)) }
    ensures few { IfOk result (λ walk. (walk.places.more ≡ more)
        × (length walk.places.places.more.items ≤ more)) }
    ensures notes { IfOk result (WalkIsNoted (Some (stream_with info)) (info_view info)
        (position_of input.old)
        (counted_bytes R.source input.old) (counted_bytes R.source input.new)) }
    ensures err { IfErr result (StopsCounting (Some (stream_with info))
        (counted_bytes R.source input.old)) }
    ensures stays_quiet { StaysQuiet progress.old progress.new }
    ensures loans { (counted_bytes R.source input.new).source.loans
        ≡ (counted_bytes R.source input.old).source.loans }
{
    let mut walk = Walk::new(alloc, computes_md5, more);
    let mut buffer = Vec::new(alloc);
    for _ in 0..u64::MAX {
        let start = input.value().bytes;
        let read = read_frame(input, info, buffer);
        let end = input.value().bytes;
        match read {
            Ok(Some(frame)) => {
                walk = with_frame(walk, info, &frame, ByteRange { start, end })?;
                progress.show(walk.samples);
                buffer = frame.block.into_buffer();
            }
            Ok(None) => {
                let last = input.value().last;
                return Ok(at_end(walk, ByteRange { start, end }, last));
            }
            Err(fault) => {
                let is_last = is_io_error(&fault.error);
                walk = with_fault(walk, fault, ByteRange { start, end })?;
                if is_last {
                    return Ok(walk);
                }
                buffer = Vec::new(alloc);
            }
        }
    }
    Err(too_many())
}

fn is_io_error(error: &Error) -> bool
    ensures { result ≡ is_io error.now }
{
    matches!(error, Error::IoError(_))
}
