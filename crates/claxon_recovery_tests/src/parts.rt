//! Parts of streams, by rows. Frames have one channel of 8 bits and 16 samples of one value but where a row says so, and were
//! made by the definitions of RFC 9639, section 9.
use claxon::input::ReadBytes;
use claxon::metadata::StreamInfo;
use claxon_recovery::{Cause, Damage, Part, Parts};
use claxon_testing::answers::joined;
use std::alloc::Global;
use std::io::Cursor;
use std::test::Fail;

/// Two frames, one after another.
#[rattlefmt::skip]
pub const FRAMES: [u8; 22] = [
    0xff, 0xf8, 0x69, 0x02, 0x00, 0x0f, 0xb7, 0x00, 0x01, 0x7a, 0x27,
    0xff, 0xf8, 0x69, 0x02, 0x01, 0x0f, 0xa2, 0x00, 0x02, 0x7b, 0x51,
];

// The second one, with two channels.
#[rattlefmt::skip]
pub const OF_TWO_CHANNELS: [u8; 13] =
    [0xff, 0xf8, 0x69, 0x12, 0x01, 0x0f, 0x00, 0x00, 0x09, 0x00, 0x09, 0xa8, 0xdf];

/// Of such frames.
pub const INFO: StreamInfo = StreamInfo {
    min_block_size: 16,
    max_block_size: 16,
    min_frame_size: None,
    max_frame_size: None,
    sample_rate: 44_100,
    channels: 1,
    bits_per_sample: 8,
    samples: Some(32),
    md5sum: [0; 16],
};

// A part, by the positions of its first byte and after its last one: a frame, with the value of its samples; or damage, with
// its cause, and whether its bytes are zeros.
#[derive(Clone, Copy)]
enum Wanted {
    Frame(u64, u64, i32),
    Fault(u64, u64, bool),
    OtherFormat(u64, u64),
    Cut(u64, u64, bool),
}

fn is_damage(damage: &Damage, start: u64, end: u64, are_zeros: bool) -> bool {
    damage.start == start
        && damage.end == end
        && damage.unsearched == 0
        && damage.are_zeros == are_zeros
}

fn is_wanted(part: &Part, wanted: Wanted) -> bool {
    match (part, wanted) {
        (Part::Frame(there), Wanted::Frame(start, end, value)) => {
            let block = &there.frame.block;
            there.start == start
                && there.end == end
                && block.channels() == 1
                && block.channel(0) == [value; 16].as_slice()
        }
        (Part::Damage(damage), Wanted::Fault(start, end, are_zeros)) => {
            matches!(&damage.cause, Cause::Fault(_)) && is_damage(damage, start, end, are_zeros)
        }
        (Part::Damage(damage), Wanted::OtherFormat(start, end)) => {
            matches!(&damage.cause, Cause::OtherFormat(_)) && is_damage(damage, start, end, false)
        }
        (Part::Damage(damage), Wanted::Cut(start, end, are_zeros)) => {
            matches!(&damage.cause, Cause::Cut) && is_damage(damage, start, end, are_zeros)
        }
        _ => false,
    }
}

// Whether the next part is this one.
fn is_next<R: ReadBytes>(parts: &mut Parts<R>, wanted: Wanted) -> bool {
    match parts.next_part() {
        Ok(Some(part)) => is_wanted(&part, wanted),
        _ => false,
    }
}

/// Whether there is no next part.
pub fn is_end<R: ReadBytes>(parts: &mut Parts<R>) -> bool {
    matches!(parts.next_part(), Ok(None))
}

// Whether just these parts come.
fn are_next<R: ReadBytes>(parts: &mut Parts<R>, wanted: &[Wanted]) -> bool {
    let mut all = true;
    for part in wanted {
        all = all && is_next(parts, *part);
    }
    all && is_end(parts)
}

// Whether the bytes, of which the first is at this position, have just these parts.
fn has_parts(alloc: Global, bytes: &[u8], start: u64, wanted: &[Wanted]) -> bool {
    match Parts::new(alloc, Cursor::new(bytes), Some(INFO), start) {
        Ok(parts) => {
            let mut parts = parts;
            are_next(&mut parts, wanted)
        }
        Err(_) => false,
    }
}

pub const FIRST: &[u8] = &[
    0xff, 0xf8, 0x69, 0x02, 0x00, 0x0f, 0xb7, 0x00, 0x01, 0x7a, 0x27,
];

pub const SECOND: &[u8] = &[
    0xff, 0xf8, 0x69, 0x02, 0x01, 0x0f, 0xa2, 0x00, 0x02, 0x7b, 0x51,
];

// The first frame with a wrong byte of the footer, without its last two bytes, and without its first two.
pub const WRONG_FOOTER: &[u8] = &[
    0xff, 0xf8, 0x69, 0x02, 0x00, 0x0f, 0xb7, 0x00, 0x01, 0x7a, 0x26,
];

const WITHOUT_FOOTER: &[u8] = &[0xff, 0xf8, 0x69, 0x02, 0x00, 0x0f, 0xb7, 0x00, 0x01];

const WITHOUT_SYNC: &[u8] = &[0x69, 0x02, 0x00, 0x0f, 0xb7, 0x00, 0x01, 0x7a, 0x27];

// The second frame without its last byte.
pub const CUT: &[u8] = &[0xff, 0xf8, 0x69, 0x02, 0x01, 0x0f, 0xa2, 0x00, 0x02, 0x7b];

// Pieces of a stream, and its parts.
#[rattlefmt::skip]
const ROWS: [(&[&[u8]], &[Wanted]); 9] = [
    (&[], &[]),
    (&[FIRST, SECOND], &[Wanted::Frame(100, 111, 1), Wanted::Frame(111, 122, 2)]),
    // A wrong byte of the footer, of which just the frame is lost.
    (&[WRONG_FOOTER, SECOND], &[Wanted::Fault(100, 111, false), Wanted::Frame(111, 122, 2)]),
    // Bytes that were put in and cut out.
    (&[FIRST, &[0; 5], SECOND], &[Wanted::Frame(100, 111, 1), Wanted::Fault(111, 116, true), Wanted::Frame(116, 127, 2)]),
    (&[WITHOUT_FOOTER, SECOND], &[Wanted::Fault(100, 109, false), Wanted::Frame(109, 120, 2)]),
    (&[WITHOUT_SYNC, SECOND], &[Wanted::Fault(100, 109, false), Wanted::Frame(109, 120, 2)]),
    // A frame of another format.
    (
        &[FIRST, &OF_TWO_CHANNELS, SECOND],
        &[Wanted::Frame(100, 111, 1), Wanted::OtherFormat(111, 124), Wanted::Frame(124, 135, 2)],
    ),
    // The stream ends within a frame, and with one byte more.
    (&[FIRST, CUT], &[Wanted::Frame(100, 111, 1), Wanted::Cut(111, 121, false)]),
    (&[FIRST, &[0]], &[Wanted::Frame(100, 111, 1), Wanted::Cut(111, 112, true)]),
];

#[test]
fn parts_of_streams(rt: HostRuntime) -> Result<(), Fail> {
    for (number, (pieces, wanted)) in ROWS.iter().enumerate() {
        let bytes = joined(rt.alloc(), *pieces)?;
        assert!(rt;
            has_parts(rt.alloc(), bytes.as_slice(), 100, *wanted),
            "{number}"
        );
    }
    Ok(())
}

const PARTS_OF_LONG_DAMAGE: [Wanted; 5] = [
    Wanted::Frame(100, 111, 1),
    Wanted::Frame(111, 122, 2),
    Wanted::Fault(122, 2_000_100, true),
    Wanted::Frame(2_000_100, 2_000_111, 1),
    Wanted::Frame(2_000_111, 2_000_122, 2),
];

// Frames are found after more bytes than are kept.
#[test]
fn long_damage(rt: HostRuntime) -> Result<(), Fail> {
    let mut bytes = joined(rt.alloc(), &[&FRAMES])?;
    bytes.resize(2_000_000, 0)?;
    bytes.extend_from_slice(&FRAMES)?;
    assert!(rt; has_parts(rt.alloc(), bytes.as_slice(), 100, &PARTS_OF_LONG_DAMAGE));
    Ok(())
}

// Whether a frame and a cut one are found at this position.
fn is_found_at(alloc: Global, start: u64) -> bool {
    let (second, end) = (start.wrapping_add(11), start.wrapping_add(21));
    let wanted = [
        Wanted::Frame(start, second, 1),
        Wanted::Cut(second, end, false),
    ];
    has_parts(alloc, &FRAMES[..21], start, &wanted)
}

// Positions are modulo 2^64.
#[test]
fn large_positions(rt: HostRuntime) {
    for start in [
        0xffff_fff0u64,
        0x1_0000_0000,
        0xffff_ffff_ffff_fff0,
        u64::MAX,
    ] {
        assert!(rt; is_found_at(rt.alloc(), start), "{start}");
    }
}
