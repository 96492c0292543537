//! All the places of streams, and their number.
use crate::reports::{report_by_parts, report_of, report_with};
use crate::streams::{FIXED, OTHER_RATE, RATE, VARIABLE, frame};
use crate::verify::{CRC, Found, Wrong, found_of};
use claxon_report::{Places, Report, Trailing};
use claxon_testing::answers::{Fault, fault_of, head};
use linked_list_allocator::LocalHeap;
use std::alloc::{AllocError, Allocator, Global};
use std::io::Cursor;
use std::test::Fail;

// A frame: its blocking strategy, its sample rate, its number and its size, and whether a bit of it is flipped.
type Part = (u8, u8, u8, u8, bool);

// The largest block size of the streaminfo, and how many samples it says.
type Info = (u8, u8);

fn bytes_of(alloc: Global, info: Info, parts: &[Part]) -> Result<Vec<u8>, AllocError> {
    let mut head = head(0x80);
    (head[11], head[25]) = info;
    let mut bytes = Vec::from_slice(alloc, &head)?;
    for (strategy, rate, number, size, is_flipped) in parts {
        let mut one = frame(*strategy, *rate, *number, *size);
        one[10] ^= u8::from(*is_flipped);
        bytes.extend_from_slice(&one)?;
    }
    Ok(bytes)
}

// Frames of 16 samples of a fixed block size: right ones, damaged ones, and ones of another sample rate.
const RIGHT_0: Part = (FIXED, RATE, 0, 16, false);

const RIGHT_1: Part = (FIXED, RATE, 1, 16, false);

const RIGHT_2: Part = (FIXED, RATE, 2, 16, false);

const RIGHT_3: Part = (FIXED, RATE, 3, 16, false);

const RIGHT_4: Part = (FIXED, RATE, 4, 16, false);

const FLIPPED_0: Part = (FIXED, RATE, 0, 16, true);

const FLIPPED_1: Part = (FIXED, RATE, 1, 16, true);

const FLIPPED_2: Part = (FIXED, RATE, 2, 16, true);

const OTHER_0: Part = (FIXED, OTHER_RATE, 0, 16, false);

const OTHER_1: Part = (FIXED, OTHER_RATE, 1, 16, false);

const OTHER_2: Part = (FIXED, OTHER_RATE, 2, 16, false);

const OTHER_3: Part = (FIXED, OTHER_RATE, 3, 16, false);

const OTHER_7: Part = (FIXED, OTHER_RATE, 7, 16, false);

const WRONG_RATE: Wrong = Wrong::SampleRate(48000);

// What the streaminfo says, frames, and the places. The head has 42 bytes, and each frame 11.
#[rattlefmt::skip]
const ROWS: [(Info, &[Part], &[Found]); 29] = [
    ((16, 0), &[RIGHT_0, RIGHT_1], &[]),
    ((16, 32), &[RIGHT_0, RIGHT_1], &[]),
    // Damaged frames, apart and together, and at the end.
    ((16, 0), &[FLIPPED_0, RIGHT_1, FLIPPED_2], &[(42, 53, 0, 16, CRC), (64, 75, 32, 32, CRC)]),
    ((16, 48), &[FLIPPED_0, RIGHT_1, FLIPPED_2], &[(42, 53, 0, 16, CRC), (64, 75, 32, 48, CRC)]),
    ((16, 0), &[FLIPPED_0, FLIPPED_1, RIGHT_2], &[(42, 64, 0, 32, CRC)]),
    // Frames of another stream.
    ((16, 0), &[RIGHT_0, OTHER_1, RIGHT_2], &[(53, 64, 16, 32, WRONG_RATE)]),
    ((16, 0), &[RIGHT_0, OTHER_7, RIGHT_2], &[(53, 64, 16, 32, WRONG_RATE)]),
    ((16, 0), &[RIGHT_0, OTHER_7, RIGHT_1], &[(53, 64, 16, 16, WRONG_RATE)]),
    ((16, 0), &[RIGHT_0, OTHER_1, OTHER_2, RIGHT_3], &[(53, 75, 16, 48, WRONG_RATE)]),
    ((16, 64), &[RIGHT_0, OTHER_1, RIGHT_2, OTHER_3], &[(53, 64, 16, 32, WRONG_RATE), (75, 86, 48, 64, WRONG_RATE)]),
    ((16, 0), &[OTHER_0, RIGHT_1], &[(42, 53, 0, 16, WRONG_RATE)]),
    ((16, 0), &[(VARIABLE, RATE, 0, 16, false), (VARIABLE, OTHER_RATE, 16, 32, false), (VARIABLE, RATE, 48, 16, false)],
        &[(53, 64, 16, 48, WRONG_RATE)]),
    ((16, 0), &[RIGHT_0, (VARIABLE, RATE, 16, 16, false), RIGHT_2], &[(53, 64, 16, 32, Wrong::BlockingStrategy)]),
    ((16, 0), &[(VARIABLE, RATE, 0, 16, false), RIGHT_1, (VARIABLE, RATE, 32, 16, false)],
        &[(53, 64, 16, 32, Wrong::BlockingStrategy)]),
    ((16, 0), &[RIGHT_0, FLIPPED_1, OTHER_2, RIGHT_3], &[(53, 75, 16, 48, CRC)]),
    // Frames that are missing, also the last ones.
    ((32, 0), &[(FIXED, RATE, 0, 32, false), (FIXED, RATE, 2, 32, false)], &[(53, 53, 32, 64, Wrong::Missing(1, false))]),
    ((16, 48), &[RIGHT_0, RIGHT_1], &[(64, 64, 32, 48, Wrong::Missing(16, true))]),
    ((16, 48), &[RIGHT_0, RIGHT_2], &[(53, 53, 16, 32, Wrong::Missing(1, false))]),
    ((16, 64), &[RIGHT_0, RIGHT_2], &[(53, 53, 16, 32, Wrong::Missing(1, false)), (64, 64, 48, 64, Wrong::Missing(16, true))]),
    // Frames that are there once more: one, and two from before. Those of a second stream are after the last sample.
    ((16, 0), &[RIGHT_0, RIGHT_0, RIGHT_1], &[(53, 64, 16, 16, Wrong::Repeated)]),
    ((16, 64), &[RIGHT_0, RIGHT_1, RIGHT_2, RIGHT_0, RIGHT_1, RIGHT_3], &[(75, 97, 48, 48, Wrong::Repeated)]),
    ((16, 32), &[RIGHT_0, RIGHT_1, RIGHT_0, RIGHT_1, RIGHT_2], &[(64, 97, 32, 32, Wrong::Beyond)]),
    // Frames after the last sample.
    ((16, 32), &[RIGHT_0, RIGHT_1, RIGHT_2], &[(64, 75, 32, 32, Wrong::Beyond)]),
    // Swapped frames, the last ones, two others, and one that comes three too early.
    ((16, 0), &[RIGHT_0, RIGHT_2, RIGHT_1], &[(53, 64, 16, 16, Wrong::OutOfOrder)]),
    ((16, 64), &[RIGHT_0, RIGHT_2, RIGHT_1, RIGHT_3], &[(53, 75, 16, 48, Wrong::OutOfOrder)]),
    ((16, 0), &[RIGHT_3, RIGHT_0, RIGHT_1, RIGHT_2, RIGHT_4], &[(42, 86, 0, 64, Wrong::OutOfOrder)]),
    ((16, 0), &[RIGHT_0, RIGHT_3, RIGHT_2, RIGHT_1, RIGHT_4], &[(53, 86, 16, 64, Wrong::OutOfOrder)]),
    // Frames from after and from before in damage, as of a sector of the same stream.
    ((16, 80), &[RIGHT_0, FLIPPED_1, RIGHT_3, FLIPPED_2, RIGHT_2, RIGHT_3, RIGHT_4], &[(53, 86, 16, 32, CRC)]),
    ((16, 80), &[RIGHT_0, RIGHT_1, FLIPPED_2, RIGHT_0, FLIPPED_1, RIGHT_3, RIGHT_4], &[(64, 97, 32, 48, CRC)]),
];

/// Whether these are the places.
pub fn are(places: &Places, wants: &[Found]) -> bool {
    let Some(first) = &places.first else {
        return wants.is_empty();
    };
    let Some((want, others)) = wants.split_first() else {
        return false;
    };
    let mut all = found_of(first) == *want && places.more.len() == others.len();
    for (place, want) in places.more.iter().zip(others) {
        all = all && found_of(place) == *want;
    }
    all && places.left_out == 0
}

fn has(report: claxon::Result<Report>, wants: &[Found]) -> bool {
    match report {
        Ok(report) => are(&report.found.places, wants),
        Err(_) => false,
    }
}

fn has_by_parts(alloc: Global, bytes: &[u8], wants: &[Found]) -> bool {
    has(
        report_by_parts(alloc, &mut Cursor::new(bytes), false),
        wants,
    )
}

// Whether a stream of these parts has these places, also by its parts.
fn has_places(alloc: Global, info: Info, parts: &[Part], wants: &[Found]) -> bool {
    match bytes_of(alloc, info, parts) {
        Ok(bytes) => {
            let bytes = bytes.as_slice();
            has(report_of(alloc, &mut Cursor::new(bytes), false), wants)
                && has_by_parts(alloc, bytes, wants)
        }
        Err(_) => false,
    }
}

#[test]
fn rows(rt: HostRuntime) {
    for (row, (info, parts, wants)) in ROWS.iter().enumerate() {
        assert!(rt; has_places(rt.alloc(), *info, *parts, *wants), "{row}");
    }
}

// Where bytes of four frames are changed, how many are taken out there, and which are put in; and the places. The frame after
// the damaged one is told by the parts alone: the decoder has read its first byte when it finds the fault.
#[rattlefmt::skip]
const CHANGED: [(usize, usize, &[u8], &[Found]); 6] = [
    // The last byte of a frame, the last two, and all but its first.
    (63, 1, &[], &[(53, 63, 16, 32, CRC)]),
    (62, 2, &[], &[(53, 62, 16, 32, CRC)]),
    (54, 10, &[], &[(53, 54, 16, 32, Wrong::Fault(Fault::Format("frame sync code missing")))]),
    // A byte more in a frame, and before one.
    (61, 0, &[0], &[(53, 65, 16, 32, CRC)]),
    (53, 0, &[0], &[(53, 54, 16, 16, Wrong::Fault(Fault::Format("frame sync code missing")))]),
    // The last byte of the last frame.
    (85, 1, &[], &[(75, 85, 48, 48, Wrong::Fault(Fault::Io))]),
];

fn has_changed(alloc: Global, at: usize, count: usize, more: &[u8], wants: &[Found]) -> bool {
    match changed(alloc, at, count, more) {
        Ok(bytes) => has_by_parts(alloc, bytes.as_slice(), wants),
        Err(_) => false,
    }
}

fn changed(alloc: Global, at: usize, count: usize, more: &[u8]) -> Result<Vec<u8>, AllocError> {
    let whole = bytes_of(alloc, (16, 0), &[RIGHT_0, RIGHT_1, RIGHT_2, RIGHT_3])?;
    let whole = whole.as_slice();
    let mut bytes = Vec::from_slice(alloc, whole.get(..at).unwrap_or(whole))?;
    bytes.extend_from_slice(more)?;
    bytes.extend_from_slice(whole.get(at.saturating_add(count)..).unwrap_or(&[]))?;
    Ok(bytes)
}

#[test]
fn damage_up_to_the_next_frame(rt: HostRuntime) {
    for (row, (at, count, more, wants)) in CHANGED.iter().enumerate() {
        assert!(rt;
            has_changed(rt.alloc(), *at, *count, *more, *wants),
            "{row}"
        );
    }
}

// One byte after the last frame is noted, more are a place, and what they are is said.
#[test]
fn bytes_after_the_last_frame(rt: HostRuntime) -> Result<(), Fail> {
    for (more, wants) in [(&[0u8][..], None), (&[0, 0], Some(Trailing::Zeros))] {
        let bytes = changed(rt.alloc(), 86, 0, more)?;
        let report = report_by_parts(rt.alloc(), &mut Cursor::new(bytes.as_slice()), true)?;
        assert!(rt; report.found.notes.has_byte_left == wants.is_none());
        assert!(rt; report.found.places.first.is_none() == wants.is_none());
        assert!(rt;
            matches!(
                (report.trailing, wants),
                (None, None) | (Some(Trailing::Zeros), Some(_))
            )
        );
    }
    Ok(())
}

/// The numbers of places after the first that are kept, where so many are wanted, and that are left out.
pub fn numbers_of<A: Allocator + Copy>(
    heap: A,
    bytes: &[u8],
    more: usize,
) -> Result<(usize, u64), Fault> {
    match report_with(heap, &mut Cursor::new(bytes), false, more) {
        Ok(report) => {
            let places = &report.found.places;
            Ok((places.more.len(), places.left_out))
        }
        Err(error) => Err(fault_of(&error)),
    }
}

// Of 120 frames each second one is damaged. Those that aren't wanted, or for which there is no memory, are counted.
#[test]
fn many(rt: HostRuntime) -> Result<(), Fail> {
    let mut head = head(0x80);
    head[25] = 0;
    let mut bytes = Vec::from_slice(rt.alloc(), &head)?;
    for number in 0..120u8 {
        let mut one = frame(FIXED, RATE, number, 16);
        one[10] ^= number & 1;
        bytes.extend_from_slice(&one)?;
    }
    for (more, want) in [
        (0, (0, 59)),
        (1, (1, 58)),
        (58, (58, 1)),
        (59, (59, 0)),
        (999, (59, 0)),
    ] {
        assert!(rt;
            numbers_of(rt.alloc(), bytes.as_slice(), more) == Ok(want),
            "{more}"
        );
    }
    for size in [1024, 2048, 4096] {
        let heap = LocalHeap::new(rt.alloc(), size)?;
        let is_whole = match numbers_of(&heap, bytes.as_slice(), 999) {
            Ok((kept, left_out)) => left_out > 0 && left_out.checked_add(kept as u64) == Some(59),
            Err(_) => false,
        };
        assert!(rt; is_whole, "{size}");
    }
    Ok(())
}
