//! Silence of more than 4096 bytes, and frames at the end of what a WAV file holds.
use crate::files::{is_file_of, rescue, stream_of};
use claxon_rescue::{LossKind, LostRange, Rescued};
use claxon_wav::Result;
use std::alloc::Global;
use std::io::Cursor;

// The head of a stream with two channels of 16 bits, blocks of 16 samples, and 6400 samples in all.
const STEREO: [u8; 42] = [
    0x66, 0x4c, 0x61, 0x43, 0x80, 0x00, 0x00, 0x22, 0x00, 0x10, 0x00, 0x10, 0x00, 0x00, 0x00, 0x00,
    0x00, 0x00, 0x0a, 0xc4, 0x42, 0xf0, 0x00, 0x00, 0x19, 0x00, 0x00, 0x00, 0x00, 0x00, 0x00, 0x00,
    0x00, 0x00, 0x00, 0x00, 0x00, 0x00, 0x00, 0x00, 0x00, 0x00,
];

// The frames 0 and 399, with the values 1 and -2, and 3 and -4.
#[rattlefmt::skip]
const FIRST: &[u8] = &[0xff, 0xf8, 0x69, 0x18, 0x00, 0x0f, 0x92, 0x00, 0x00, 0x01, 0x00, 0xff, 0xfe, 0x38, 0x0d];

#[rattlefmt::skip]
const LAST: &[u8] = &[0xff, 0xf8, 0x69, 0x18, 0xc6, 0x8f, 0x0f, 0x9c, 0x00, 0x00, 0x03, 0x00, 0xff, 0xfc, 0x80, 0xd3];

// The head of a stream with one channel of 8 bits, blocks of 16 to 4096 samples, of which it doesn't say how many.
const VARIABLE: [u8; 42] = [
    0x66, 0x4c, 0x61, 0x43, 0x80, 0x00, 0x00, 0x22, 0x00, 0x10, 0x10, 0x00, 0x00, 0x00, 0x00, 0x00,
    0x00, 0x00, 0x0a, 0xc4, 0x40, 0x70, 0x00, 0x00, 0x00, 0x00, 0x00, 0x00, 0x00, 0x00, 0x00, 0x00,
    0x00, 0x00, 0x00, 0x00, 0x00, 0x00, 0x00, 0x00, 0x00, 0x00,
];

// Its frames with the sample numbers 0, 5000 and 4294967219, with the values 1, 2 and 3.
#[rattlefmt::skip]
const AT_0: &[u8] = &[0xff, 0xf9, 0x69, 0x02, 0x00, 0x0f, 0xd5, 0x00, 0x01, 0xed, 0x8a];

#[rattlefmt::skip]
const AT_5000: &[u8] = &[0xff, 0xf9, 0x69, 0x02, 0xe1, 0x8e, 0x88, 0x0f, 0xda, 0x00, 0x02, 0x23, 0xa0];

#[rattlefmt::skip]
const AT_THE_LIMIT: &[u8] =
    &[0xff, 0xf9, 0x69, 0x02, 0xfe, 0x83, 0xbf, 0xbf, 0xbf, 0xbe, 0xb3, 0x0f, 0xad, 0x00, 0x03, 0x39, 0x69];

// Whether samples are written as these runs, each of some bytes and how often.
fn is_written(alloc: Global, file: &[u8], runs: &[(&[u8], u32)]) -> Result<bool> {
    let mut samples = Vec::new(alloc);
    for (bytes, count) in runs {
        for _ in 0..*count {
            samples.extend_from_slice(bytes)?;
        }
    }
    Ok(is_file_of(file, samples.as_slice()))
}

fn rescued_of(
    alloc: Global,
    head: &[u8; 42],
    pieces: &[&[u8]],
    file: &mut Vec<u8>,
) -> Result<Rescued> {
    let stream = stream_of(alloc, head, pieces)?;
    rescue(alloc, Cursor::new(stream.as_slice()), true, file)
}

#[test]
fn two_channels(rt: HostRuntime) -> Result<()> {
    let alloc = rt.alloc();
    let mut file = Vec::new(alloc);
    let rescued = rescued_of(alloc, &STEREO, &[FIRST, LAST], &mut file)?;
    let runs: [(&[u8], u32); 3] = [
        (&[1, 0, 0xfe, 0xff], 16),
        (&[0; 4], 6368),
        (&[3, 0, 0xfc, 0xff], 16),
    ];
    assert!(rt; is_written(alloc, file.as_slice(), &runs)?);
    assert!(rt; rescued.conversion.samples == 6400);
    assert!(rt; rescued.losses.missing == 6368);
    Ok(())
}

// The last frame would end one sample after the last one that a WAV file of these samples holds.
#[test]
fn sample_numbers(rt: HostRuntime) -> Result<()> {
    let alloc = rt.alloc();
    let mut file = Vec::new(alloc);
    let rescued = rescued_of(alloc, &VARIABLE, &[AT_0, AT_5000, AT_THE_LIMIT], &mut file)?;
    let runs: [(&[u8], u32); 3] = [(&[129], 16), (&[128], 4984), (&[130], 16)];
    let too_far = LostRange {
        kind: LossKind::LeftOut,
        start_sample: 4_294_967_219,
        end_sample: 4_294_967_235,
        start_byte: 66,
        end_byte: 83,
    };
    assert!(rt; is_written(alloc, file.as_slice(), &runs)?);
    assert!(rt; rescued.conversion.samples == 5016);
    assert!(rt; rescued.losses.missing == 4984);
    assert!(rt; rescued.losses.ranges.as_slice().last() == Some(&too_far));
    Ok(())
}
