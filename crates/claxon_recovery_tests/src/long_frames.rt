//! Frames of more than 512 KiB, and of more than 1 MiB.
ghost use Rattle.std.specs.Prelude.{◌≤◌};

use crate::frames::{wide_frame, wide_info};
use crate::parts::is_end;
use claxon::Block;
use claxon::input::ReadBytes;
use claxon_recovery::{Cause, Part, Parts};
use std::alloc::Global;
use std::io::Cursor;
use std::test::Fail;

// 8 bytes of the header, 2 of the footer, and 1 + 3 * samples of each subframe.
fn len_of(samples: u16) -> u64
    ensures { result ≤ 1572858 }
{
    10 + 8 * (1 + 3 * u64::from(samples))
}

// A frame: its positions, how many samples each channel has, and their value.
#[derive(Clone, Copy)]
struct Wanted {
    start: u64,
    end: u64,
    samples: usize,
    value: i32,
}

fn are_all(values: &[i32], value: i32) -> bool {
    let mut all = true;
    for other in values {
        all = all && *other == value;
    }
    all
}

fn is_block(block: &Block, wanted: Wanted) -> bool {
    let mut all = block.channels() == 8;
    for channel in 0..block.channels() {
        let values = block.channel(channel);
        all = all && values.len() == wanted.samples && are_all(values, wanted.value);
    }
    all
}

// Whether the next part is that frame.
fn is_frame<R: ReadBytes>(parts: &mut Parts<R>, wanted: Wanted) -> bool {
    match parts.next_part() {
        Ok(Some(Part::Frame(there))) => {
            there.start == wanted.start
                && there.end == wanted.end
                && is_block(&there.frame.block, wanted)
        }
        _ => false,
    }
}

// Whether the next part is damage of five bytes, all of which were searched.
fn is_damage<R: ReadBytes>(parts: &mut Parts<R>, start: u64) -> bool {
    match parts.next_part() {
        Ok(Some(Part::Damage(damage))) => {
            damage.start == start
                && damage.end.checked_sub(5) == Some(start)
                && damage.unsearched == 0
        }
        _ => false,
    }
}

// A frame of so many samples, five bytes that are none, and the frame again.
fn twice(alloc: Global, samples: u16) -> claxon::Result<Vec<u8>> {
    let mut bytes = wide_frame(alloc, samples, 5)?;
    bytes.extend_from_slice(&[0; 5])?;
    bytes.extend_from_slice(wide_frame(alloc, samples, 6)?.as_slice())?;
    Ok(bytes)
}

// Whether both frames and the damage are told.
fn are_parts<R: ReadBytes>(parts: &mut Parts<R>, samples: u16) -> bool {
    let len = len_of(samples);
    let first = Wanted {
        start: 0,
        end: len,
        samples: samples as usize,
        value: 5,
    };
    let second = Wanted {
        start: len + 5,
        end: 2 * len + 5,
        samples: samples as usize,
        value: 6,
    };
    is_frame(parts, first) && is_damage(parts, len) && is_frame(parts, second) && is_end(parts)
}

// The same of a stream with blocks of at most so many samples.
fn are_found(alloc: Global, samples: u16, max_block_size: u16) -> claxon::Result<bool> {
    let bytes = twice(alloc, samples)?;
    let info = wide_info(max_block_size);
    let mut parts = Parts::new(alloc, Cursor::new(bytes.as_slice()), Some(info), 0)?;
    Ok(are_parts(&mut parts, samples))
}

#[test]
fn of_720_018_bytes(rt: HostRuntime) -> Result<(), Fail> {
    assert!(rt; are_found(rt.alloc(), 30_000, 30_000)?);
    Ok(())
}

#[test]
fn of_more_than_1_mib(rt: HostRuntime) -> Result<(), Fail> {
    assert!(rt; are_found(rt.alloc(), 44_000, 44_000)?);
    Ok(())
}

// Whether the next part is damage up to this position, of which two headers were passed since they are of frames that are too long.
fn is_too_long<R: ReadBytes>(parts: &mut Parts<R>, end: u64) -> bool {
    match parts.next_part() {
        Ok(Some(Part::Damage(damage))) => {
            matches!(damage.cause, Cause::TooLong)
                && damage.start == 7
                && damage.end == end
                && damage.unsearched == 2
                && !damage.are_zeros
        }
        _ => false,
    }
}

// A frame of 524,274 bytes is one of no more than 512 KiB, whatever the streaminfo says; one of 524,298 is too long for 16 samples.
#[test]
fn of_larger_blocks_than_the_streaminfo_says(rt: HostRuntime) -> Result<(), Fail> {
    assert!(rt; are_found(rt.alloc(), 21_844, 16)?);
    let bytes = twice(rt.alloc(), 30_000)?;
    let mut parts = Parts::new(
        rt.alloc(),
        Cursor::new(bytes.as_slice()),
        Some(wide_info(16)),
        7,
    )?;
    assert!(rt; is_too_long(&mut parts, 7 + 2 * len_of(30_000) + 5));
    assert!(rt; is_end(&mut parts));
    Ok(())
}
