//! Streams that are verified by their parts: frames, and the damage between them.
ghost use Rattle.std.specs.Prelude.{◌≡◌, ◌<◌, ◌≤◌, ◌↔◌, ◌^◌, IfErr, IfOk, false, length};
ghost use Rattle.claxon.specs.MetadataBlock.{info_view};
ghost use Rattle.claxon.specs.ShownHead.{HasBitDepth};
ghost use Rattle.claxon.specs.State.{bytes_in};
ghost use Rattle.claxon_command_line.specs.Progress.{StaysQuiet};
ghost use Rattle.claxon_recovery.specs.Parts.{parts_known, parts_position};
ghost use Rattle.claxon_verify.specs.Trailing.{
  KeepsBytes,
  KeepsPart,
  PartsTrailingIsTold,
  WalksPartsToTail,
};
ghost use Rattle.claxon_verify.specs.VerifiedParts.{
  AddsDamage,
  AddsPart,
  IsWhy,
  NotesDamage,
  PartsReportIsSound,
  WalksParts,
  is_byte_left,
};
ghost use Rattle.claxon_verify.specs.PartFaults.{
  CountedFaultIsSound,
  ExceedsPart,
  PartsFaultIsSound,
  StopsWalk,
};
ghost use Rattle.claxon_heads.specs.BytesRead.{counted_bytes, position_of};
ghost use Rattle.claxon_verify.specs.Verify.{
  KeepsAtMost,
  VerifyIsQuiet,
};

use crate::report_of;
use crate::trailing::BytesAfter;
use crate::walk::{ByteRange, Walk, too_many, with_frame};
use claxon::input::ReadBytes;
use claxon::metadata::StreamInfo;
use claxon::running::RunningReader;
use claxon::{Error, Result};
use claxon_blocks::frames::{FirstBytes, FrameError, is_32_bit_fault};
use claxon_command_line::progress::Progress;
use claxon_heads::{BytesRead, read_head};
use claxon_recovery::{Cause, Damage, Part, Parts};
use claxon_report::{FoundFrame, Notes, Report, Scan, Scanned};
use std::alloc::Global;
use std::io::{self, ErrorKind, Write};
use std::result;

/// Verifies a stream as `verify` does, but by its parts: where no frame of the stream begins, the next one is searched from the
/// second byte on, so that damage ends where that frame begins. Frames of another number of channels or another bit depth than
/// the streaminfo's are damage, and aren't decoded.
///
/// # Errors
///
/// Those of the head, as `verify` has them, and of `Parts::new` and `Parts::next_part`; `Unsupported` if there are 2^64 samples or
/// more, or 2^64 - 1 parts or more.
pub fn verify_parts<R: ReadBytes, E: Write>(
    alloc: Global,
    input: &mut R,
    computes_md5: bool,
    more: usize,
    progress: &mut Progress<'_, '_, E>,
) -> Result<Report>
    ensures is_sound { PartsReportIsSound computes_md5 (bytes_in R.source input.old) result }
    ensures fault_is_sound { PartsFaultIsSound (bytes_in R.source input.old) result
        (bytes_in R.source input.new) }
    ensures trailing_is_told { PartsTrailingIsTold computes_md5 (bytes_in R.source input.old)
        result }
    ensures keeps_at_most { KeepsAtMost more result }
    ensures is_quiet { VerifyIsQuiet result progress.old progress.new }
{
    let mut input = RunningReader::new(input);
    verify_counted_parts(alloc, &mut input, computes_md5, more, progress)
}

// Verifies a stream of which nothing was read.
fn verify_counted_parts<R: ReadBytes, E: Write>(
    alloc: Global,
    input: &mut RunningReader<R, BytesRead>,
    computes_md5: bool,
    more: usize,
    progress: &mut Progress<'_, '_, E>,
) -> Result<Report>
    requires { position_of input.old ≡ 0 }
    ensures is_sound { PartsReportIsSound computes_md5 (counted_bytes R.source input.old) result }
    ensures fault_is_sound { CountedFaultIsSound (counted_bytes R.source input.old) result
        (counted_bytes R.source input.new) }
    ensures trailing_is_told { PartsTrailingIsTold computes_md5 (counted_bytes R.source input.old)
        result }
    ensures keeps_at_most { KeepsAtMost more result }
    ensures is_quiet { VerifyIsQuiet result progress.old progress.new }
{
    let (info, unsupported) = read_head(alloc, input)?;
    progress.start(info.samples);
    let start = input.value().bytes;
    let mut parts = Parts::new(alloc, input, Some(info), start)?;
    let walked = walk_parts(alloc, &mut parts, info, start, computes_md5, more, progress);
    // So it is known what was read of the input, and whether a read failed.
    parts.into_source();
    Ok(report_of(info, unsupported, walked?))
}

/// Finds parts up to the end.
pub(crate) fn walk_parts<R: ReadBytes, E: Write>(
    alloc: Global,
    parts: &mut Parts<R>,
    info: StreamInfo,
    start: u64,
    computes_md5: bool,
    more: usize,
    progress: &mut Progress<'_, '_, E>,
) -> Result<Walk<Global>>
    requires has_bit_depth { HasBitDepth info }
    requires same_info { parts_known parts.old ≡ Some info }
    requires at_start { parts_position parts.old ≡ start }
    ensures fits { start < 2 ^ 64 }
    ensures ok { IfOk result (WalksParts R.source computes_md5 info parts.old) }
    ensures tail { IfOk result (WalksPartsToTail R.source computes_md5 info parts.old) }
    ensures few { IfOk result (λ walk. (walk.places.more ≡ more)
        × (length walk.places.places.more.items ≤ more)) }
    ensures err { IfErr result (StopsWalk R.source info parts.old parts.new) }
    ensures stays_quiet { StaysQuiet progress.old progress.new }
{
    let mut walk = Walk {
        end: start,
        ..Walk::new(alloc, computes_md5, more)
    };
    for _ in 0..u64::MAX {
        let Some(part) = parts.next_part()? else {
            return Ok(walk);
        };
        walk = with_part(walk, info, part)?;
        progress.show(walk.samples);
    }
    Err(too_many())
}

// A part more.
fn with_part(walk: Walk<Global>, info: StreamInfo, part: Part) -> Result<Walk<Global>>
    requires has_bit_depth { HasBitDepth info }
    ensures adds_part { IfOk result (AddsPart (info_view info) part walk) }
    ensures err { IfErr result (ExceedsPart part walk) }
    ensures keeps { IfOk result (λ more. KeepsPart more.scan.begun part walk.after more.after) }
{
    match part {
        Part::Frame(there) => {
            let (start, end) = (there.start, there.end);
            with_frame(walk, info, &there.frame, ByteRange { start, end })
        }
        Part::Damage(damage) => Ok(with_damage(walk, &info, damage)),
    }
}

// Damage more. One byte at the end is noted, if no place goes on.
fn with_damage(walk: Walk<Global>, info: &StreamInfo, damage: Damage) -> Walk<Global>
    ensures adds_damage { AddsDamage (info_view info.now) damage walk result }
    ensures notes { NotesDamage damage walk result }
    ensures keeps { KeepsBytes result.scan.begun damage.first damage.are_zeros walk.after
        result.after }
{
    let is_left = is_byte_left(&damage);
    let Damage {
        start,
        end,
        cause,
        first,
        are_zeros,
        unsearched,
    } = damage;
    let Walk {
        scan,
        places,
        notes,
        after,
        ..
    } = walk;
    let notes = Notes {
        has_byte_left: is_left && scan.begun.is_none(),
        has_unsearched: or_unsearched(notes.has_unsearched, unsearched),
        ..notes
    };
    if is_left {
        return Walk {
            after: after_bytes(after, &scan, first, are_zeros),
            scan,
            places,
            notes,
            end,
            ..walk
        };
    }
    let Scanned { scan, place } = scan.part(info, start, why_none(cause, first));
    Walk {
        after: after_bytes(after, &scan, first, are_zeros),
        scan,
        places: places.with(place),
        notes,
        end,
        ..walk
    }
}

// What is kept of the bytes after damage: they belong to the place that goes on, if one does.
fn after_bytes(after: BytesAfter, scan: &Scan, first: FirstBytes, are_zeros: bool) -> BytesAfter
    ensures keeps { KeepsBytes scan.now.begun first are_zeros after result }
{
    match &scan.begun {
        Some(_) => after.with_bytes(first, are_zeros),
        None => BytesAfter::new(),
    }
}

// Whether it is so, or there are positions that weren't searched.
fn or_unsearched(is_so: bool, unsearched: u64) -> bool
    ensures { (result ≡ false) ↔ ((is_so ≡ false) × (unsearched ≡ 0)) }
{
    is_so || unsearched != 0
}

// Whether it is one byte, at which the stream ends.
fn is_byte_left(damage: &Damage) -> bool
    ensures { result ≡ is_byte_left damage.now }
{
    matches!(damage.cause, Cause::Cut) && damage.end == damage.start.wrapping_add(1)
}

// Why no frame of the stream is decoded: an error, or the frame has another format.
fn why_none(cause: Cause, first: FirstBytes) -> result::Result<FoundFrame, FrameError>
    ensures { IsWhy cause first result }
{
    let (error, is_32_bit) = match cause {
        Cause::Fault(error) => {
            let is_32_bit = is_32_bit_fault(&error, first);
            (error, is_32_bit)
        }
        Cause::OtherFormat(header) => {
            return Ok(FoundFrame {
                header,
                duration: header.duration,
                fits: true,
            });
        }
        Cause::Cut => (
            Error::IoError(io::Error::from(ErrorKind::UnexpectedEof)),
            false,
        ),
        Cause::TooLong => (Error::FormatError(FRAME_TOO_LONG), false),
    };
    Err(FrameError {
        error,
        is_32_bit,
        first,
    })
}

// That the first bytes of a frame, as many as are kept, don't tell whether it is one.
const FRAME_TOO_LONG: &str = "the frame has more bytes than one of the largest block size";
