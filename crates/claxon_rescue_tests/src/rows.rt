//! What is rescued of streams, by rows. Frames have one channel of 8 bits and 16 samples of one value, and were made by the
//! definitions of RFC 9639, section 9.
use crate::files::{MAX_RANGES, is_file_of, rescue, stream_of};
use claxon_blocks::md5_verdict::Md5Verdict;
use claxon_rescue::{LossKind, LostRange};
use claxon_wav::Result;
use std::alloc::Global;
use std::io::Cursor;

/// The head of a stream with blocks of 16 samples, 48 samples in all, and their MD5 sum.
pub const HEAD: [u8; 42] = [
    0x66, 0x4c, 0x61, 0x43, 0x80, 0x00, 0x00, 0x22, 0x00, 0x10, 0x00, 0x10, 0x00, 0x00, 0x00, 0x00,
    0x00, 0x00, 0x0a, 0xc4, 0x40, 0x70, 0x00, 0x00, 0x00, 0x30, 0x55, 0x01, 0xb5, 0xb2, 0x4e, 0x40,
    0x26, 0x8b, 0xa1, 0xb7, 0x17, 0x53, 0x0a, 0x75, 0x35, 0x94,
];

/// The first three frames, with the values 1, 2 and 3.
#[rattlefmt::skip]
pub const A: &[u8] = &[0xff, 0xf8, 0x69, 0x02, 0x00, 0x0f, 0xb7, 0x00, 0x01, 0x7a, 0x27];

#[rattlefmt::skip]
pub const B: &[u8] = &[0xff, 0xf8, 0x69, 0x02, 0x01, 0x0f, 0xa2, 0x00, 0x02, 0x7b, 0x51];

#[rattlefmt::skip]
pub const C: &[u8] = &[0xff, 0xf8, 0x69, 0x02, 0x02, 0x0f, 0x9d, 0x00, 0x03, 0xf8, 0xd0];

// Frame 100, with the value 9.
#[rattlefmt::skip]
const FAR: &[u8] = &[0xff, 0xf8, 0x69, 0x02, 0x64, 0x0f, 0x16, 0x00, 0x09, 0xe2, 0x60];

// A frame with two channels.
#[rattlefmt::skip]
const OTHER: &[u8] = &[0xff, 0xf8, 0x69, 0x12, 0x01, 0x0f, 0x00, 0x00, 0x09, 0x00, 0x09, 0xa8, 0xdf];

/// Samples that no whole frame has.
pub fn missing(samples: u64, end: u64, bytes: u64, end_byte: u64) -> LostRange {
    LostRange {
        kind: LossKind::Missing,
        start_sample: samples,
        end_sample: end,
        start_byte: bytes,
        end_byte,
    }
}

/// Samples of a frame that isn't written.
pub fn left_out(samples: u64, end: u64, bytes: u64, end_byte: u64) -> LostRange {
    LostRange {
        kind: LossKind::LeftOut,
        start_sample: samples,
        end_sample: end,
        start_byte: bytes,
        end_byte,
    }
}

/// What is wanted of a stream: the samples that are lost, and how many are missing.
#[derive(Clone, Copy)]
pub struct Wanted<'a> {
    pub lost: &'a [LostRange],
    pub missing: u64,
}

// The samples of blocks, each of one value. Where gaps aren't filled, silence is left out.
fn samples_of(alloc: Global, values: &[u8], fills_gaps: bool) -> Result<Vec<u8>> {
    let mut samples = Vec::new(alloc);
    for value in values {
        if fills_gaps || *value != 128 {
            samples.extend_from_slice(&[*value; 16])?;
        }
    }
    Ok(samples)
}

/// Whether that is rescued of a stream, and the samples of each of its frames are of these bytes.
pub fn is_rescued(
    alloc: Global,
    stream: &[u8],
    fills_gaps: bool,
    values: &[u8],
    wanted: &Wanted<'_>,
) -> Result<bool> {
    let mut file = Vec::new(alloc);
    let rescued = rescue(alloc, Cursor::new(stream), fills_gaps, &mut file)?;
    let samples = samples_of(alloc, values, fills_gaps)?;
    let is_right = matches!(rescued.conversion.md5, Md5Verdict::Right);
    let is_judged = is_right || matches!(rescued.conversion.md5, Md5Verdict::NotComputed);
    Ok(
        is_file_of(file.as_slice(), samples.as_slice())
            && u64::from(rescued.conversion.samples) == samples.len() as u64
            && rescued.losses.ranges.as_slice() == wanted.lost
            && rescued.losses.count == wanted.lost.len() as u64
            && rescued.losses.missing == wanted.missing
            && is_judged
            && is_right == (wanted.missing == 0),
    )
}

#[test]
fn rescued_streams(rt: HostRuntime) -> Result<()> {
    let alloc = rt.alloc();
    #[rattlefmt::skip]
    let rows: [(&[&[u8]], [u8; 3], &[LostRange], u64); 9] = [
        // Nothing is damaged.
        (&[A, B, C], [129, 130, 131], &[], 0),
        // The frame in the middle is lost, the last one, and the first one.
        (&[A, C], [129, 128, 131], &[missing(16, 32, 53, 53)], 16),
        (&[A, B], [129, 130, 128], &[missing(32, 48, 64, 64)], 16),
        (&[B, C], [128, 130, 131], &[missing(0, 16, 42, 42)], 16),
        // Two are swapped, one is repeated.
        (&[A, C, B], [129, 130, 128], &[left_out(32, 48, 53, 64), missing(32, 48, 75, 75)], 16),
        (&[A, A, B, C], [129, 130, 131], &[left_out(0, 16, 53, 64)], 0),
        // Bytes were put in, and a frame of another stream; one is too far away.
        (&[A, &[0; 5], B, OTHER, C], [129, 130, 131], &[], 0),
        (&[A, FAR, B, C], [129, 130, 131], &[left_out(1600, 1616, 53, 64)], 0),
        // Bytes were cut out of the one in the middle.
        (&[A, &[0xff, 0xf8, 0x69], C], [129, 128, 131], &[missing(16, 32, 53, 56)], 16),
    ];
    for (pieces, values, lost, count) in &rows {
        let stream = stream_of(alloc, &HEAD, pieces)?;
        let missing = *count;
        let wanted = Wanted { lost, missing };
        for fills_gaps in [true, false] {
            assert!(rt; is_rescued(alloc, stream.as_slice(), fills_gaps, values, &wanted)?);
        }
    }
    Ok(())
}

// Of five ranges the first three are kept.
#[test]
fn many_ranges(rt: HostRuntime) -> Result<()> {
    let alloc = rt.alloc();
    let stream = stream_of(alloc, &HEAD, &[A, A, A, A, A, A, B, C])?;
    let mut file = Vec::new(alloc);
    let rescued = rescue(alloc, Cursor::new(stream.as_slice()), true, &mut file)?;
    let first = [
        left_out(0, 16, 53, 64),
        left_out(0, 16, 64, 75),
        left_out(0, 16, 75, 86),
    ];
    assert!(rt; rescued.losses.count == 5);
    assert!(rt; rescued.losses.ranges.as_slice() == first.as_slice());
    assert!(rt; first.len() == MAX_RANGES);
    Ok(())
}
