//! Where blocks stand in time, by rows.
use crate::written::{Numbers, info, known_of, stream_of};
use claxon::frame::BlockInfo;
use claxon::metadata::StreamInfo;
use claxon_stream::{Event, FrameDecoder};
use claxon_stream_seek::Clock;
use std::alloc::Global;
use std::test::Fail;

// A frame of a stream: its position, the one after it, and its header.
#[derive(Clone, Copy)]
struct Placed {
    at: u64,
    end: u64,
    info: BlockInfo,
}

// The next frame of the bytes, if there is one.
fn next_frame(
    alloc: Global,
    decoder: &mut FrameDecoder,
    bytes: &[u8],
    known: Option<StreamInfo>,
) -> claxon::Result<Option<Placed>> {
    let at = decoder.position();
    if bytes.len() > 1000 {
        return Ok(None);
    }
    if let Some(info) = known
        && info.bits_per_sample != 8
    {
        return Ok(None);
    }
    match decoder.decode_next(Vec::new(alloc), bytes, 0, true, known)? {
        Event::Decoded(frame) => Ok(Some(Placed {
            at,
            end: decoder.position(),
            info: frame.info,
        })),
        _ => Ok(None),
    }
}

// The first four frames of a stream.
fn frames_of(
    alloc: Global,
    numbers: Numbers,
    sizes: &[u8; 4],
    known: Option<StreamInfo>,
) -> claxon::Result<[Option<Placed>; 4]> {
    let bytes = stream_of(alloc, numbers, sizes)?;
    let mut frames = [None; 4];
    let mut decoder = FrameDecoder::new(0);
    for frame in frames.iter_mut() {
        *frame = next_frame(alloc, &mut decoder, bytes.as_slice(), known)?;
    }
    Ok(frames)
}

// The times that the clock tells of these frames, each noted if so it says, and then of the last one again.
fn times(clock: Clock, frames: &[Option<Placed>; 4], noted: [bool; 4]) -> [u64; 4] {
    let mut clock = clock;
    let mut times = [2_000_000; 4];
    for i in 0..4usize {
        if let Some(frame) = frames[i] {
            times[i] = clock.time(frame.at, &frame.info).unwrap_or(UNKNOWN);
            if noted[i] {
                clock.note(frame.at, frame.end, &frame.info);
            }
        }
    }
    times
}

const UNKNOWN: u64 = 1_000_000;

const ALL: [bool; 4] = [true; 4];

const FIRST_TWO: [bool; 4] = [true, true, false, false];

const NOT_THE_FIRST: [bool; 4] = [false, true, true, false];

// What numbers count, the sizes of blocks, those of the streaminfo, which frames are noted, and the time of each.
type Row = (Numbers, [u8; 4], Option<(u16, u16)>, [bool; 4], [u64; 4]);

#[rattlefmt::skip]
const ROWS: [Row; 13] = [
    // in order
    (Numbers::Frames, [16, 16, 16, 10], Some((16, 20)), ALL, [0, 16, 32, 48]),
    (Numbers::Frames, [16, 20, 10, 16], Some((16, 20)), ALL, [0, 16, 36, 46]),
    (Numbers::Frames, [16, 20, 10, 16], Some((16, 16)), ALL, [0, 16, 36, 46]),
    (Numbers::OldSamples, [16, 20, 10, 16], Some((16, 20)), ALL, [0, 16, 36, 46]),
    (Numbers::OldSamples, [1, 20, 10, 16], None, ALL, [0, 1, 21, 31]),
    (Numbers::Samples, [16, 20, 10, 16], None, ALL, [0, 16, 36, 46]),
    // one that wasn't noted lies between
    (Numbers::Frames, [16, 16, 16, 10], Some((16, 20)), FIRST_TWO, [0, 16, 32, 48]),
    (Numbers::OldSamples, [16, 20, 16, 10], Some((16, 20)), FIRST_TWO, [0, 16, 36, 52]),
    (Numbers::Frames, [16, 16, 16, 10], Some((16, 16)), [false; 4], [0, 16, 32, 48]),
    (Numbers::Frames, [16, 16, 16, 10], None, [false; 4], [0, UNKNOWN, UNKNOWN, UNKNOWN]),
    // the first one is lost: the second and the third say what the others are
    (Numbers::Frames, [16, 16, 16, 10], None, NOT_THE_FIRST, [0, UNKNOWN, UNKNOWN, 48]),
    (Numbers::OldSamples, [16, 20, 10, 16], None, NOT_THE_FIRST, [0, UNKNOWN, UNKNOWN, 46]),
    (Numbers::Samples, [16, 20, 10, 16], None, [false; 4], [0, 16, 36, 46]),
];

fn has_times(alloc: Global, row: &Row) -> bool {
    let (numbers, sizes, block_sizes, noted, wanted) = *row;
    let known = known_of(block_sizes);
    match frames_of(alloc, numbers, &sizes, known) {
        Ok(frames) => { frames[3].is_some() && times(Clock::new(known), &frames, noted) == wanted }
        Err(_) => false,
    }
}

#[test]
fn times_of_frames(rt: HostRuntime) {
    for (number, row) in ROWS.iter().enumerate() {
        assert!(rt; has_times(rt.alloc(), row), "{number}");
    }
}

// Whether a clock that noted the first three frames tells the time of the last one, but not one byte later.
fn is_last_time(frames: &[Option<Placed>; 4], time: u64) -> bool {
    let mut clock = Clock::new(Some(info(16, 16)));
    for frame in &frames[..3] {
        if let Some(frame) = frame {
            clock.note(frame.at, frame.end, &frame.info);
        }
    }
    match frames[3] {
        Some(frame) => {
            clock.time(frame.at, &frame.info) == Some(time)
                && clock
                    .time(frame.at.saturating_add(1), &frame.info)
                    .is_none()
        }
        None => false,
    }
}

// Of a stream whose block size changes the time isn't known after a seek, once it was seen to change.
#[test]
fn sizes_change(rt: HostRuntime) -> Result<(), Fail> {
    let frames = frames_of(rt.alloc(), Numbers::Frames, &[16, 20, 16, 16], None)?;
    assert!(rt; is_last_time(&frames, 52));
    Ok(())
}
