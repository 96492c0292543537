//! Frames that are found after damage, by rows. They have one channel of 8 bits and 16 samples of one value but where a row says so, and
//! were made by the definitions of RFC 9639, section 9.
use claxon::metadata::StreamInfo;
use claxon_seek::{BlockMemory, Search, find_frame};
use claxon_stream::{Event, FindEvent, FrameDecoder, FrameFinder};
use std::alloc::{AllocError, Global};
use std::test::Fail;

// Four frames, one after another.
#[rattlefmt::skip]
const STREAM: [u8; 44] = [
    0xff, 0xf8, 0x69, 0x02, 0x00, 0x0f, 0xb7, 0x00, 0x01, 0x7a, 0x27,
    0xff, 0xf8, 0x69, 0x02, 0x01, 0x0f, 0xa2, 0x00, 0x02, 0x7b, 0x51,
    0xff, 0xf8, 0x69, 0x02, 0x02, 0x0f, 0x9d, 0x00, 0x03, 0xf8, 0xd0,
    0xff, 0xf8, 0x69, 0x02, 0x03, 0x0f, 0x88, 0x00, 0x04, 0x79, 0xbd,
];

const STREAM_AT: [u64; 4] = [0, 11, 22, 33];

// They without their last byte.
#[rattlefmt::skip]
const CUT: [u8; 43] = [
    0xff, 0xf8, 0x69, 0x02, 0x00, 0x0f, 0xb7, 0x00, 0x01, 0x7a, 0x27,
    0xff, 0xf8, 0x69, 0x02, 0x01, 0x0f, 0xa2, 0x00, 0x02, 0x7b, 0x51,
    0xff, 0xf8, 0x69, 0x02, 0x02, 0x0f, 0x9d, 0x00, 0x03, 0xf8, 0xd0,
    0xff, 0xf8, 0x69, 0x02, 0x03, 0x0f, 0x88, 0x00, 0x04, 0x79,
];

// They with a wrong footer of the first one.
#[rattlefmt::skip]
const WRONG_FOOTER: [u8; 44] = [
    0xff, 0xf8, 0x69, 0x02, 0x00, 0x0f, 0xb7, 0x00, 0x01, 0x7a, 0x26,
    0xff, 0xf8, 0x69, 0x02, 0x01, 0x0f, 0xa2, 0x00, 0x02, 0x7b, 0x51,
    0xff, 0xf8, 0x69, 0x02, 0x02, 0x0f, 0x9d, 0x00, 0x03, 0xf8, 0xd0,
    0xff, 0xf8, 0x69, 0x02, 0x03, 0x0f, 0x88, 0x00, 0x04, 0x79, 0xbd,
];

// The first one after bytes that begin none, sync codes among them, and before two bytes.
#[rattlefmt::skip]
const AMONG_OTHERS: [u8; 21] = [
    0x00, 0xff, 0xff, 0xf8, 0xff, 0xf8, 0xff, 0xf8, 0xff, 0xf8, 0x69, 0x02, 0x00, 0x0f, 0xb7, 0x00, 0x01, 0x7a, 0x27, 0x00, 0x00,
];

// The header of the first one, and then two whole ones.
#[rattlefmt::skip]
const AFTER_A_HEADER: [u8; 29] = [
    0xff, 0xf8, 0x69, 0x02, 0x00, 0x0f, 0xb7,
    0xff, 0xf8, 0x69, 0x02, 0x00, 0x0f, 0xb7, 0x00, 0x01, 0x7a, 0x27,
    0xff, 0xf8, 0x69, 0x02, 0x01, 0x0f, 0xa2, 0x00, 0x02, 0x7b, 0x51,
];

// The first one without its last byte, and then two whole ones.
#[rattlefmt::skip]
const AFTER_A_CUT_FRAME: [u8; 32] = [
    0xff, 0xf8, 0x69, 0x02, 0x00, 0x0f, 0xb7, 0x00, 0x01, 0x7a,
    0xff, 0xf8, 0x69, 0x02, 0x01, 0x0f, 0xa2, 0x00, 0x02, 0x7b, 0x51,
    0xff, 0xf8, 0x69, 0x02, 0x02, 0x0f, 0x9d, 0x00, 0x03, 0xf8, 0xd0,
];

// One with two channels, and then one with one.
#[rattlefmt::skip]
const OF_TWO_CHANNELS: [u8; 24] = [
    0xff, 0xf8, 0x69, 0x12, 0x01, 0x0f, 0x00, 0x00, 0x09, 0x00, 0x09, 0xa8, 0xdf,
    0xff, 0xf8, 0x69, 0x02, 0x01, 0x0f, 0xa2, 0x00, 0x02, 0x7b, 0x51,
];

// What a frame of eight channels of 65,535 samples begins with.
#[rattlefmt::skip]
const COSTLY: [u8; 11] = [0xff, 0xf8, 0x79, 0x72, 0x00, 0xff, 0xfe, 0xec, 0x02, 0x46, 0xc9];

const INFO: StreamInfo = StreamInfo {
    min_block_size: 16,
    max_block_size: 16,
    min_frame_size: None,
    max_frame_size: None,
    sample_rate: 44_100,
    channels: 1,
    bits_per_sample: 8,
    samples: Some(64),
    md5sum: [0; 16],
};

// What is answered, if the positions fit.
fn answer(
    finder: &mut FrameFinder,
    alloc: Global,
    bytes: &[u8],
    at: usize,
    is_end: bool,
    is_known: bool,
) -> claxon::Result<FindEvent> {
    if at > 1 << 20 || bytes.len() > 1 << 20 {
        return Ok(FindEvent::NotFound);
    }
    if is_known {
        return finder.find_next(alloc, bytes, at as u64, is_end, Some(INFO));
    }
    finder.find_next(alloc, bytes, at as u64, is_end, None)
}

// The same without the frame that is found.
#[derive(Clone, Copy)]
enum Step {
    Found(u64),
    NotFound,
    ReadOn(usize),
    Failed,
}

fn step_of(event: claxon::Result<FindEvent>) -> Step {
    match event {
        Ok(FindEvent::Found(position, _)) => Step::Found(position),
        Ok(FindEvent::NotFound) => Step::NotFound,
        Ok(FindEvent::ReadOn(needed)) => Step::ReadOn(needed.position as usize),
        Err(_) => Step::Failed,
    }
}

// Whether just the frames at these positions are found, one after another, in pieces of this size, where the bytes before those that
// are needed are dropped.
fn finds(
    finder: &mut FrameFinder,
    alloc: Global,
    bytes: &[u8],
    is_known: bool,
    size: usize,
    wanted: &[u64],
) -> bool {
    let mut at = 0usize;
    let mut given = 0usize;
    let mut found = 0usize;
    for _ in 0..1_000_000 {
        let end = given.min(bytes.len());
        let start = at.min(end);
        let is_end = end == bytes.len();
        match step_of(answer(finder, alloc, &bytes[start..end], start, is_end, is_known)) {
            Step::Found(position) => {
                if found >= wanted.len() || wanted[found] != position {
                    return false;
                }
                found = found.saturating_add(1);
            }
            Step::NotFound => return found == wanted.len(),
            Step::ReadOn(position) => {
                at = position;
                given = end.saturating_add(size);
            }
            Step::Failed => return false,
        }
    }
    false
}

// The bytes, whether the number of channels and the bit depth are known, the position from which on is searched, and where frames begin.
type Row = (&'static [u8], bool, u64, &'static [u64]);

#[rattlefmt::skip]
const ROWS: [Row; 14] = [
    (&STREAM, true, 0, &[0, 11, 22, 33]),
    (&STREAM, true, 1, &[11, 22, 33]),
    (&STREAM, true, 34, &[]),
    (&STREAM, true, 44, &[]),
    (&STREAM, true, 50, &[]),
    (&CUT, true, 0, &[0, 11, 22]),
    (&WRONG_FOOTER, true, 0, &[11, 22, 33]),
    (&AMONG_OTHERS, true, 0, &[8]),
    (&AFTER_A_HEADER, true, 0, &[7, 18]),
    (&AFTER_A_CUT_FRAME, true, 0, &[10, 21]),
    (&OF_TWO_CHANNELS, true, 0, &[13]),
    (&OF_TWO_CHANNELS, false, 0, &[0, 13]),
    (&[0; 20], true, 0, &[]),
    (&[], true, 0, &[]),
];

// Whether the frames of a row are found in pieces of this size, within the budget.
fn is_found(alloc: Global, row: &Row, size: usize) -> bool {
    let (bytes, is_known, from, wanted) = *row;
    let mut finder = FrameFinder::new(from);
    finds(&mut finder, alloc, bytes, is_known, size, wanted)
        && !finder.has_passed_over()
        && !finder.is_over_budget()
}

#[test]
fn frames_in_pieces(rt: HostRuntime) {
    for (number, row) in ROWS.iter().enumerate() {
        for size in [1, 2, 3, 7, 100] {
            assert!(rt; is_found(rt.alloc(), row, size), "{number} {size}");
        }
    }
}

// Bytes, and how many of them there are: a part of the stream that isn't its end. Which bytes are needed then.
type Part = (&'static [u8], usize, u64, usize);

#[rattlefmt::skip]
const PARTS: [Part; 9] = [
    (&[], 0, 0, 2),
    (&[0], 1, 0, 2),
    (&[0, 0], 2, 1, 2),
    (&[0, 0xff], 2, 1, 2),
    (&STREAM, 1, 0, 2),
    (&STREAM, 2, 0, 3),
    (&STREAM, 10, 0, 11),
    (&AMONG_OTHERS, 14, 8, 7),
    (&AFTER_A_HEADER, 8, 7, 2),
];

fn is_needed(alloc: Global, part: &Part) -> bool {
    let (bytes, len, position, count) = *part;
    let mut finder = FrameFinder::new(0);
    let bytes = &bytes[..len.min(bytes.len())];
    match answer(&mut finder, alloc, bytes, 0, false, true) {
        Ok(FindEvent::ReadOn(needed)) => {
            needed.position == position && needed.count == count && finder.position() == position
        }
        _ => false,
    }
}

// In a header, in a frame, and after bytes that are passed.
#[test]
fn needed_bytes(rt: HostRuntime) {
    for (number, part) in PARTS.iter().enumerate() {
        assert!(rt; is_needed(rt.alloc(), part), "{number}");
    }
}

// 35,000 times these two bytes, and a frame.
fn damaged(alloc: Global, pair: &[u8; 2]) -> Result<Vec<u8>, AllocError> {
    let mut bytes = Vec::new(alloc);
    for _ in 0..35_000 {
        bytes.extend_from_slice(pair)?;
    }
    bytes.extend_from_slice(&STREAM[..11])?;
    Ok(bytes)
}

// Whether the frame is found in pieces of this size.
fn finds_after_damage(alloc: Global, bytes: &[u8], size: usize) -> bool {
    let mut finder = FrameFinder::new(0);
    finds(&mut finder, alloc, bytes, true, size, &[70_000]) && finder.position() == 70_011
}

// A frame after 70,000 bytes of each kind: zeros, bytes 0xff, and sync codes.
#[test]
fn much_damage(rt: HostRuntime) -> Result<(), Fail> {
    for pair in &[[0, 0], [0xff, 0xff], [0xff, 0xf8]] {
        let bytes = damaged(rt.alloc(), pair)?;
        for size in [1, 100, 70_011] {
            assert!(rt;
                finds_after_damage(rt.alloc(), bytes.as_slice(), size),
                "{size}"
            );
        }
    }
    Ok(())
}

// Three streams, one after another, with seven bytes changed by the next numbers of a sequence that looks random.
fn changed(random: &mut u64) -> [u8; 132] {
    let mut bytes = [0; 132];
    for i in 0..132usize {
        bytes[i] = STREAM[i % 44];
    }
    for _ in 0..7 {
        *random = random
            .wrapping_mul(6_364_136_223_846_793_005)
            .wrapping_add(1_442_695_040_888_963_407);
        bytes[(*random >> 33) as usize % 132] = ((*random >> 56) & 0xff) as u8;
    }
    bytes
}

// The position of the frame that `find_frame` finds from here on.
fn found_from(
    memory: &mut BlockMemory,
    bytes: &[u8],
    from: usize,
) -> claxon::Result<Option<usize>> {
    let mut budget = 1_000_000;
    match find_frame(memory, bytes, from, Some(INFO), &mut budget)? {
        Search::Found(frame) => Ok(Some(frame.position)),
        _ => Ok(None),
    }
}

// Whether the frames that `find_frame` finds, up to twelve, are found in any pieces.
fn is_found_as_by_find_frame(alloc: Global, memory: &mut BlockMemory, bytes: &[u8]) -> bool {
    let mut wanted = [0; 12];
    let mut count = 0usize;
    let mut from = 0usize;
    for slot in wanted.iter_mut() {
        match found_from(memory, bytes, from) {
            Ok(Some(position)) => {
                *slot = position as u64;
                count = count.saturating_add(1);
                from = position.saturating_add(11);
            }
            Ok(None) => break,
            Err(_) => return false,
        }
    }
    let mut all = true;
    for size in [1, 2, 3, 100, 132] {
        let mut finder = FrameFinder::new(0);
        all = all
            && finds(
                &mut finder,
                alloc,
                bytes,
                true,
                size,
                &wanted[..count.min(12)],
            );
    }
    all
}

// In any pieces the answers are those of `find_frame` over all bytes.
#[test]
fn beside_find_frame(rt: HostRuntime) {
    let mut memory = BlockMemory::new(rt.alloc());
    let mut random = 1;
    for round in 0..300 {
        let bytes = changed(&mut random);
        assert!(rt;
            is_found_as_by_find_frame(rt.alloc(), &mut memory, &bytes),
            "{round}"
        );
    }
}

// 200 headers that were made to cost time, and a frame.
fn costly_stream() -> [u8; 2_211] {
    let mut bytes = [0; 2_211];
    for i in 0..2_200usize {
        bytes[i] = COSTLY[i % 11];
    }
    bytes[2_200..].copy_from_slice(&STREAM[..11]);
    bytes
}

// Whether the frame is found in pieces of this size, and something was passed over.
fn passes_over(alloc: Global, bytes: &[u8], size: usize) -> bool {
    let mut finder = FrameFinder::new(0);
    finds(&mut finder, alloc, bytes, false, size, &[2_200]) && finder.has_passed_over()
}

// Of the headers 127 are tried, and those after them are passed over. The frame after them is found.
#[test]
fn costly_headers(rt: HostRuntime) {
    let bytes = costly_stream();
    for size in [1_000, 2_211] {
        assert!(rt; passes_over(rt.alloc(), &bytes, size), "{size}");
    }
}

// A search that goes on after frames that were decoded keeps what it cost, but for what the bytes make good.
#[test]
fn goes_on(rt: HostRuntime) {
    let mut finder = FrameFinder::new(0);
    let mut frames = FrameDecoder::new(0);
    finder.go_on(12, &mut frames);
    assert!(rt; finder.position() == 12);
    assert!(rt; finds(&mut finder, rt.alloc(), &STREAM, true, 44, &[22, 33]));
    finder.go_on(0, &mut frames);
    assert!(rt; finds(&mut finder, rt.alloc(), &STREAM, true, 44, &STREAM_AT));
}

// Whether decoding finds a fault here.
fn is_faulty(alloc: Global, frames: &mut FrameDecoder, bytes: &[u8; 34]) -> bool {
    let event = frames.decode_next(Vec::new(alloc), bytes, 0, true, None);
    matches!(event, Ok(Event::Faulty(_)))
}

// Whether a search that goes on after them finds these frames, and whether it passes over something.
fn goes_on_after(
    alloc: Global,
    frames: &mut FrameDecoder,
    wanted: &[u64],
    passes_over: bool,
) -> bool {
    let mut finder = FrameFinder::new(0);
    finder.go_on(0, frames);
    finds(&mut finder, alloc, &STREAM, true, 44, wanted) && finder.has_passed_over() == passes_over
}

// The faults of 128 frames of eight channels of 65,535 samples pass the budget of a search, once.
#[test]
fn faults_are_charged(rt: HostRuntime) {
    let mut bytes = [0; 34];
    bytes[..8].copy_from_slice(&COSTLY[..8]);
    let mut frames = FrameDecoder::new(0);
    for fault in 0..128 {
        frames = frames.from_position(0);
        assert!(rt; is_faulty(rt.alloc(), &mut frames, &bytes), "{fault}");
    }
    assert!(rt; goes_on_after(rt.alloc(), &mut frames, &[], true));
    assert!(rt; goes_on_after(rt.alloc(), &mut frames, &STREAM_AT, false));
}
