//! The next frame of a stream whose head isn't known, by rows, and what it says of the stream.
use crate::parts::{CUT, FIRST, OF_TWO_CHANNELS, SECOND, WRONG_FOOTER};
use claxon::metadata::StreamInfo;
use claxon_recovery::{FrameThere, Parts, info_of_frame};
use claxon_testing::answers::joined;
use std::alloc::Global;
use std::io::Cursor;
use std::test::Fail;

// The first frame, whose header leaves the bit depth to the streaminfo, and the sample rate.
const OF_ANY_DEPTH: &[u8] = &[
    0xff, 0xf8, 0x69, 0x00, 0x00, 0x0f, 0x61, 0x00, 0x01, 0x84, 0x1f,
];

const OF_ANY_RATE: &[u8] = &[
    0xff, 0xf8, 0x60, 0x02, 0x00, 0x0f, 0x11, 0x00, 0x01, 0x7b, 0x4f,
];

// Where a frame is, and what it says: its channels and its sample rate. Each has 8 bits per sample and 16 samples.
type Wanted = Option<(u64, u64, u32, u32)>;

// Pieces of a stream, and its first frame that says its whole format.
#[rattlefmt::skip]
const ROWS: [(&[&[u8]], Wanted); 8] = [
    (&[], None),
    (&[FIRST, SECOND], Some((0, 11, 1, 44_100))),
    (&[b"fLaX", &[0; 16], SECOND, FIRST], Some((20, 31, 1, 44_100))),
    (&[WRONG_FOOTER, &OF_TWO_CHANNELS, FIRST], Some((11, 24, 2, 44_100))),
    (&[OF_ANY_DEPTH], None),
    (&[OF_ANY_DEPTH, SECOND], Some((11, 22, 1, 44_100))),
    (&[OF_ANY_RATE], Some((0, 11, 1, 0))),
    (&[CUT], None),
];

// The streaminfo of such a frame.
fn is_info(info: &StreamInfo, channels: u32, rate: u32) -> bool {
    info.channels == channels
        && info.sample_rate == rate
        && info.bits_per_sample == 8
        && info.min_block_size == 16
        && info.max_block_size == 16
        && info.samples.is_none()
        && info.md5sum == [0; 16]
}

fn is_there(found: Option<FrameThere>, wanted: Wanted) -> bool {
    match (found, wanted) {
        (None, None) => true,
        (Some(there), Some((start, end, channels, rate))) => {
            let info = info_of_frame(&there.frame.info);
            there.start == start && there.end == end && is_info(&info, channels, rate)
        }
        _ => false,
    }
}

// Whether the first frame of the bytes is this one.
fn is_first(alloc: Global, bytes: &[u8], wanted: Wanted) -> claxon::Result<bool> {
    let mut parts = Parts::new(alloc, Cursor::new(bytes), None, 0)?;
    Ok(is_there(parts.next_frame()?, wanted))
}

#[test]
fn first_frames(rt: HostRuntime) -> Result<(), Fail> {
    for (number, (pieces, wanted)) in ROWS.iter().enumerate() {
        let bytes = joined(rt.alloc(), *pieces)?;
        assert!(rt;
            is_first(rt.alloc(), bytes.as_slice(), *wanted)?,
            "{number}"
        );
    }
    Ok(())
}

// More bytes than are kept are no frame.
#[test]
fn after_long_damage(rt: HostRuntime) -> Result<(), Fail> {
    let mut bytes = Vec::new(rt.alloc());
    bytes.resize(700_000, 0xff)?;
    bytes.extend_from_slice(FIRST)?;
    let wanted = Some((700_000, 700_011, 1, 44_100));
    assert!(rt; is_first(rt.alloc(), bytes.as_slice(), wanted)?);
    Ok(())
}
