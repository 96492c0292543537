//! Bytes that were made to cost time.
use crate::frames::{wide_frame, wide_header, wide_info};
use crate::parts::is_end;
use claxon::input::ReadBytes;
use claxon_recovery::{Part, Parts};
use std::alloc::Global;
use std::io::Cursor;
use std::test::Fail;

// 1,000 headers of 65,535 samples of eight channels, each with a wrong subframe, and a frame.
fn headers_without_frames(alloc: Global) -> claxon::Result<Vec<u8>> {
    let mut bytes = Vec::new(alloc);
    for _ in 0..1000 {
        bytes.extend_from_slice(&wide_header(65_535))?;
        bytes.push(0x80)?;
    }
    bytes.extend_from_slice(wide_frame(alloc, 1, 3)?.as_slice())?;
    Ok(bytes)
}

// How many headers in damage of 9,000 bytes were passed unsearched, if that is the next part.
fn unsearched_in_damage<R: ReadBytes>(parts: &mut Parts<R>) -> Option<u64> {
    match parts.next_part() {
        Ok(Some(Part::Damage(damage))) if damage.start == 0 && damage.end == 9000 => {
            Some(damage.unsearched)
        }
        _ => None,
    }
}

fn is_any_frame<R: ReadBytes>(parts: &mut Parts<R>) -> bool {
    matches!(parts.next_part(), Ok(Some(Part::Frame(_))))
}

// 2^25 samples and bytes are 63 of the headers; each of the 9,000 bytes makes 4 good, less than one more.
#[test]
fn headers_over_budget(rt: HostRuntime) -> Result<(), Fail> {
    let bytes = headers_without_frames(rt.alloc())?;
    let mut parts = Parts::new(
        rt.alloc(),
        Cursor::new(bytes.as_slice()),
        Some(wide_info(16)),
        0,
    )?;
    let unsearched = unsearched_in_damage(&mut parts);
    assert!(rt; matches!(unsearched, Some(935..=937)), "{unsearched:?}");
    assert!(rt; is_any_frame(&mut parts) && is_end(&mut parts));
    Ok(())
}

// A frame of one sample, and the header and first subframe of one of 65,535 samples, 2,000 times.
fn frames_and_headers(alloc: Global) -> claxon::Result<Vec<u8>> {
    let frame = wide_frame(alloc, 1, 3)?;
    let mut bytes = Vec::new(alloc);
    for _ in 0..2000 {
        bytes.extend_from_slice(frame.as_slice())?;
        bytes.extend_from_slice(&wide_header(65_535))?;
        bytes.push(0x02)?;
    }
    Ok(bytes)
}

// What parts come to: where the last one ends, the number of frames, and how many headers were passed
// unsearched.
#[derive(Clone, Copy)]
struct Total {
    end: u64,
    frames: u32,
    unsearched: u64,
}

// The total with a part that begins at the end, if it has bytes.
fn with_part(total: Total, part: &Part) -> Option<Total> {
    let (start, end, frames, unsearched) = match part {
        Part::Frame(there) => (there.start, there.end, 1, 0),
        Part::Damage(damage) => (damage.start, damage.end, 0, damage.unsearched),
    };
    if start != total.end || end <= start {
        return None;
    }
    Some(Total {
        end,
        frames: total.frames.saturating_add(frames),
        unsearched: total.unsearched.saturating_add(unsearched),
    })
}

// What all parts come to, if there are fewer than 5,000.
fn total_of<R: ReadBytes>(parts: &mut Parts<R>) -> Option<Total> {
    let mut total = Total {
        end: 0,
        frames: 0,
        unsearched: 0,
    };
    for _ in 0..5000 {
        match parts.next_part() {
            Ok(Some(part)) => total = with_part(total, &part)?,
            Ok(None) => return Some(total),
            Err(_) => return None,
        }
    }
    None
}

// What follows a header of 65,535 samples may be its frame up to the end, so that each try takes 524,280 samples at least: 2^25 are
// 64 of them, and the 4 that each of the 102,000 bytes makes good are less than one more. Other frames are passed unsearched.
#[test]
fn frames_over_budget(rt: HostRuntime) -> Result<(), Fail> {
    let bytes = frames_and_headers(rt.alloc())?;
    let mut parts = Parts::new(
        rt.alloc(),
        Cursor::new(bytes.as_slice()),
        Some(wide_info(16)),
        0,
    )?;
    let total = total_of(&mut parts).ok_or("parts")?;
    assert!(rt; total.end == bytes.len() as u64);
    assert!(rt; total.frames <= 66, "{}", total.frames);
    assert!(rt; 1900 < total.unsearched, "{}", total.unsearched);
    Ok(())
}
