//! What is found in a stream, frame by frame.
ghost use Rattle.std.specs.Prelude.{◌≡◌, ◌≤◌, ◌+◌, ◌^◌, ◌<◌, ◌↔◌, ◌⊎◌, IfErr, IfOk, IsTrue, [], false};
ghost use Rattle.claxon.specs.Error.{is_out_of_memory};
ghost use Rattle.claxon.specs.MetadataBlock.{info_view};
ghost use Rattle.claxon_verify.specs.Notes.{
  NotesEnd,
  NotesFault,
  NotesFrame,
  NotesSizes,
  NothingNoted,
  is_other_frame_size,
};
ghost use Rattle.claxon_verify.specs.Trailing.{IsOfTail, KeepsFault, KeepsFrame, KeepsLast, TrailingOf};
ghost use Rattle.claxon_verify.specs.Verify.{IsTooMany};
ghost use Rattle.claxon_verify.specs.Walk.{
  AddsFault,
  AddsFrame,
  BeginsWalk,
  EndsWalk,
  ExceedsCount,
  IsFailedRead,
  IsFound,
};
ghost use Rattle.claxon_blocks.specs.HashBlock.{HashesToo};

use crate::sizes::SizesSoFar;
use crate::trailing::{BytesAfter, is_failed_read, is_no_sync_code};
use claxon::frame::DecodedFrame;
use claxon::metadata::StreamInfo;
use claxon::{Block, Error, Result};
use claxon_blocks::fit::samples_fit;
use claxon_blocks::frames::FrameError;
use claxon_blocks::hashing::hash_block;
use claxon_md5::Md5;
use claxon_report::{Damage, FoundFrame, KeptPlaces, Notes, Scan, Scanned, Trailing};
use std::alloc::Allocator;

/// What was found so far.
#[derive(Drop)]
pub(crate) struct Walk<A: Allocator> {
    pub frames: u64,
    pub samples: u64,
    /// What is due, and the places that may go on.
    pub scan: Scan,
    /// The places before them.
    pub places: KeptPlaces<A>,
    pub notes: Notes,
    pub sizes: SizesSoFar,
    /// The last block had fewer samples than the streaminfo says.
    pub is_short: bool,
    /// The hasher of the samples, if they are hashed.
    pub md5: Option<Md5>,
    /// The position after the last bytes that were read.
    pub end: u64,
    /// What is kept of the bytes from the first of the place that goes on.
    pub after: BytesAfter,
}

/// Bytes of a stream: the position of the first one, and that after the last.
#[derive(Clone, Copy)]
pub(crate) struct ByteRange {
    pub start: u64,
    pub end: u64,
}

impl<A: Allocator> Walk<A> {
    /// Nothing was found so far. So many places are kept after the first.
    pub fn new(alloc: A, computes_md5: bool, more: usize) -> Walk<A>
        ensures begins_walk { BeginsWalk computes_md5 more result }
        ensures nothing_noted { NothingNoted result }
        ensures none_kept { IsOfTail [] result.after }
    {
        Walk {
            frames: 0,
            samples: 0,
            scan: Scan::new(),
            places: KeptPlaces::new(alloc, more),
            notes: Notes {
                has_other_block_size: false,
                has_other_frame_size: false,
                has_byte_left: false,
                has_failed_read: false,
                has_unsearched: false,
                changed_block_size: None,
            },
            sizes: SizesSoFar::new(),
            is_short: false,
            md5: if computes_md5 { Some(Md5::new()) } else { None },
            end: 0,
            after: BytesAfter::new(),
        }
    }
}

/// One frame more.
///
/// # Errors
///
/// `Unsupported` if there are 2^64 frames or samples.
pub(crate) fn with_frame<A: Allocator, B: Allocator>(
    walk: Walk<A>,
    info: StreamInfo,
    frame: &DecodedFrame<B>,
    span: ByteRange,
) -> Result<Walk<A>>
    requires min_bit_depth { 1 ≤ info.bits_per_sample }
    requires max_bit_depth { info.bits_per_sample ≤ 32 }
    ensures fits { span.start < 2 ^ 64 }
    ensures ok { IfOk result (AddsFrame (info_view info) frame.now span.start walk) }
    ensures end { IfOk result (λ more. more.end ≡ span.end) }
    ensures notes { IfOk result (NotesFrame (info_view info) frame.now span.start span.end walk) }
    ensures err { IfErr result (ExceedsCount frame.now walk) }
    ensures keeps { IfOk result (λ more. KeepsFrame more.scan.begun walk.after more.after) }
{
    let duration = frame.block.duration();
    let frames = sum(walk.frames, 1)?;
    let samples = sum(walk.samples, u64::from(duration))?;
    let found = found_frame(&info, frame);
    let Walk {
        scan,
        places,
        notes,
        sizes,
        is_short,
        md5,
        after,
        ..
    } = walk;
    let Scanned { scan, place } = scan.frame(&info, span.start, &found);
    Ok(Walk {
        frames,
        samples,
        notes: with_sizes(notes, &info, is_short, duration, span),
        sizes: sizes.with(&frame.info, duration),
        is_short: duration < u32::from(info.min_block_size),
        after: after_frame(after, &scan),
        scan,
        places: places.with(place),
        md5: hashed(md5, &frame.block, info.bits_per_sample),
        end: span.end,
    })
}

// What is known of a frame.
fn found_frame<B: Allocator>(info: &StreamInfo, frame: &DecodedFrame<B>) -> FoundFrame
    requires min_bit_depth { 1 ≤ info.now.bits_per_sample }
    requires max_bit_depth { info.now.bits_per_sample ≤ 32 }
    ensures is_found { IsFound (info_view info.now) frame.now result }
{
    FoundFrame {
        header: frame.info,
        duration: frame.block.duration(),
        fits: samples_fit(&frame.block, info.bits_per_sample),
    }
}

// What is kept of the bytes after a frame: they belong to the place that goes on, if one does.
fn after_frame(after: BytesAfter, scan: &Scan) -> BytesAfter
    ensures keeps { KeepsFrame scan.now.begun after result }
{
    if scan.begun.is_some() {
        after.with_frame()
    } else {
        BytesAfter::new()
    }
}

// The notes after one frame more. A last block may be short, so it is noted when a frame follows. No byte is left before it.
fn with_sizes(
    notes: Notes,
    info: &StreamInfo,
    is_short: bool,
    duration: u32,
    span: ByteRange,
) -> Notes
    ensures { NotesSizes (info_view info.now) is_short duration span.start span.end notes result }
{
    let bytes = span.end.wrapping_sub(span.start);
    Notes {
        has_other_block_size: notes.has_other_block_size
            || is_short
            || u32::from(info.max_block_size) < duration,
        has_other_frame_size: notes.has_other_frame_size || is_other_frame_size(info, bytes),
        has_byte_left: false,
        ..notes
    }
}

// Whether a frame of so many bytes is out of the bounds that the streaminfo says.
fn is_other_frame_size(info: &StreamInfo, bytes: u64) -> bool
    ensures { result ≡ is_other_frame_size (info_view info.now) bytes }
{
    let min = u64::from(info.min_frame_size.unwrap_or(0));
    let max = u64::from(info.max_frame_size.unwrap_or(0));
    bytes < min || (max != 0 && max < bytes)
}

// The hasher, after the samples of this block too.
fn hashed<A: Allocator>(md5: Option<Md5>, block: &Block<A>, bit_depth: u32) -> Option<Md5>
    requires min_bit_depth { 1 ≤ bit_depth }
    requires max_bit_depth { bit_depth ≤ 32 }
    ensures hashes_too { HashesToo bit_depth block.now md5 result }
{
    match md5 {
        Some(hasher) => {
            let mut hasher = hasher;
            hash_block(&mut hasher, block, bit_depth);
            Some(hasher)
        }
        None => None,
    }
}

/// One fault more, unless memory was refused.
pub(crate) fn with_fault<A: Allocator>(
    walk: Walk<A>,
    fault: FrameError,
    span: ByteRange,
) -> Result<Walk<A>>
    ensures fits { span.start < 2 ^ 64 }
    ensures ok { IfOk result (λ more. (is_out_of_memory fault.error ≡ false)
        × AddsFault fault span.start span.end walk more) }
    ensures notes { IfOk result (NotesFault fault.error walk) }
    ensures err { IfErr result
        (λ e. (fault.error ≡ Error.OutOfMemory) × (e ≡ Error.OutOfMemory)) }
    ensures keeps { IfOk result (λ more. KeepsFault fault walk.after more.after) }
{
    if matches!(&fault.error, Error::OutOfMemory) {
        return Err(Error::OutOfMemory);
    }
    let Walk {
        scan,
        after,
        notes,
        ..
    } = walk;
    Ok(Walk {
        after: after_fault(after, &fault),
        end: span.end,
        notes: Notes {
            has_failed_read: or_failed_read(notes.has_failed_read, &fault.error),
            ..notes
        },
        scan: scan.damaged(span.start, Damage::Fault(fault)),
        ..walk
    })
}

// Whether it is so, or the error is that of a failed read.
fn or_failed_read(is_so: bool, error: &Error) -> bool
    ensures { IsTrue result ↔ (IsTrue is_so ⊎ IsFailedRead error.now) }
{
    is_so || is_failed_read(error)
}

// What is kept of the bytes after a fault: two, if it is that there is no sync code; else the first is 0xff, as of a frame.
fn after_fault(after: BytesAfter, fault: &FrameError) -> BytesAfter
    ensures keeps { KeepsFault fault.now after result }
{
    if is_no_sync_code(&fault.error) {
        after.with_two(fault.first)
    } else {
        after.with_frame()
    }
}

/// The walk at the end of the stream. The bytes that are left, fewer than two, are no frame. If there is one, it is `last`.
pub(crate) fn at_end<A: Allocator>(walk: Walk<A>, span: ByteRange, last: u8) -> Walk<A>
    ensures start_fits { span.start < 2 ^ 64 }
    ensures end_fits { span.end < 2 ^ 64 }
    ensures ends_walk { EndsWalk span.end walk result }
    ensures notes { NotesEnd span.start span.end walk result }
    ensures keeps { KeepsLast span last walk.after result.after }
{
    let is_left = span.start != span.end;
    let Walk {
        scan,
        notes,
        after,
        ..
    } = walk;
    Walk {
        notes: Notes {
            has_byte_left: is_left && scan.begun.is_none(),
            ..notes
        },
        end: span.end,
        after: after_last(after, span, last),
        scan,
        ..walk
    }
}

// What is kept of the bytes after the last one, if there is one.
fn after_last(after: BytesAfter, span: ByteRange, last: u8) -> BytesAfter
    ensures keeps { KeepsLast span last after result }
{
    if span.start == span.end {
        after
    } else {
        after.with_byte(last)
    }
}

/// What stands after the last frame, if bytes do that are no frame.
pub(crate) fn trailing<A: Allocator>(walk: &Walk<A>, info: &StreamInfo) -> Option<Trailing>
    ensures trailing_is { TrailingOf info.now.samples walk.now result }
{
    let Some(begun) = &walk.scan.begun else {
        return None;
    };
    let Damage::Fault(fault) = &begun.damage else {
        return None;
    };
    let is_after = match info.samples {
        Some(samples) => walk.scan.due.sample == samples,
        None => is_no_sync_code(&fault.error),
    };
    if !is_after || is_failed_read(&fault.error) {
        return None;
    }
    Some(walk.after.kind(walk.end.wrapping_sub(begun.byte)))
}

fn sum(a: u64, b: u64) -> Result<u64>
    ensures ok { IfOk result (λ all. all ≡ a + b) }
    ensures err { IfErr result (λ e. IsTooMany e × (2 ^ 64 ≤ a + b)) }
{
    match a.checked_add(b) {
        Some(all) => Ok(all),
        None => Err(too_many()),
    }
}

/// That there is more than can be counted.
pub(crate) fn too_many() -> Error
    ensures is_too_many { IsTooMany result }
{
    Error::Unsupported("more than 18446744073709551615 frames, faults or samples")
}
