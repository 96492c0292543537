//! Frames that are handed in, by rows. They have one channel of 8 bits and 16 samples of one value, and were made by the definitions of
//! RFC 9639, section 9.
use claxon::frame::DecodedFrame;
use claxon::metadata::StreamInfo;
use claxon_stream::{Event, FrameDecoder, NeededBytes};
use std::alloc::Global;

// Four frames, one after another.
#[rattlefmt::skip]
const STREAM: [u8; 44] = [
    0xff, 0xf8, 0x69, 0x02, 0x00, 0x0f, 0xb7, 0x00, 0x01, 0x7a, 0x27,
    0xff, 0xf8, 0x69, 0x02, 0x01, 0x0f, 0xa2, 0x00, 0x02, 0x7b, 0x51,
    0xff, 0xf8, 0x69, 0x02, 0x02, 0x0f, 0x9d, 0x00, 0x03, 0xf8, 0xd0,
    0xff, 0xf8, 0x69, 0x02, 0x03, 0x0f, 0x88, 0x00, 0x04, 0x79, 0xbd,
];

const INFO: StreamInfo = StreamInfo {
    min_block_size: 16,
    max_block_size: 16,
    min_frame_size: None,
    max_frame_size: None,
    sample_rate: 44_100,
    channels: 1,
    bits_per_sample: 8,
    samples: Some(64),
    md5sum: [0; 16],
};

// A frame after whose first 10 bytes the CRC-16 is 0, and its samples, as `flac` decodes it.
#[rattlefmt::skip]
const ZERO_WITHIN: [u8; 26] = [
    0xff, 0xf8, 0x69, 0x02, 0x00, 0x0f, 0xb7, 0x02, 0x8f, 0xf5, 0x01, 0x02, 0x03, 0x04, 0x05, 0x06, 0x07, 0x08, 0x09, 0x0a, 0x0b,
    0x0c, 0x0d, 0x0e, 0xef, 0xfd,
];

const SAMPLES: [i32; 16] = [-113, -11, 1, 2, 3, 4, 5, 6, 7, 8, 9, 10, 11, 12, 13, 14];

// What a frame of eight channels of 65,535 samples begins with. The CRC-16 is 0 after it, and after zeros that follow.
#[rattlefmt::skip]
const COSTLY: [u8; 11] = [0xff, 0xf8, 0x79, 0x72, 0x00, 0xff, 0xfe, 0xec, 0x02, 0x46, 0xc9];

// What is to be answered: a block with this time and these samples; the end; a fault or a cut frame at this position; or which bytes
// are needed.
#[derive(Clone, Copy)]
enum Wanted {
    Block(u64, i32),
    End,
    Fault(u64),
    Cut(u64),
    ReadOn(u64, usize),
}

fn is_wanted(event: claxon::Result<Event>, wanted: Wanted) -> bool {
    match event {
        Ok(Event::Decoded(frame)) => is_block(frame, wanted),
        Ok(Event::End) => matches!(wanted, Wanted::End),
        Ok(Event::Faulty(fault)) => matches!(wanted, Wanted::Fault(at) if at == fault.position),
        Ok(Event::Cut(position)) => matches!(wanted, Wanted::Cut(at) if at == position),
        Ok(Event::ReadOn(needed)) => is_needed(needed, wanted),
        Err(_) => false,
    }
}

fn is_block(frame: DecodedFrame, wanted: Wanted) -> bool {
    match wanted {
        Wanted::Block(time, value) => {
            let samples = frame.block.into_buffer();
            frame.info.time == time && samples.as_slice() == [value; 16].as_slice()
        }
        _ => false,
    }
}

fn is_needed(needed: NeededBytes, wanted: Wanted) -> bool {
    match wanted {
        Wanted::ReadOn(position, count) => needed.position == position && needed.count == count,
        _ => false,
    }
}

// The bytes, their position, whether the stream ends with them, and the position of what is asked for; what is answered, and the
// position after it.
#[test]
fn answers(rt: HostRuntime) {
    let mut wrong_footer = STREAM;
    wrong_footer[10] = 0x26;
    let far = u64::MAX - 600;
    #[rattlefmt::skip]
    let rows: [(&[u8], u64, bool, u64, Wanted, u64); 16] = [
        (&STREAM, 0, true, 0, Wanted::Block(0, 1), 11),
        (&STREAM, 0, false, 33, Wanted::Block(48, 4), 44),
        (&STREAM[11..], 11, true, 11, Wanted::Block(16, 2), 22),
        (&STREAM, far, true, far, Wanted::Block(0, 1), far + 11),
        (&STREAM, 0, true, 44, Wanted::End, 44),
        (&STREAM[..1], 0, true, 0, Wanted::End, 1),
        (&STREAM, 0, true, 50, Wanted::End, 50),
        (&STREAM, 0, false, 44, Wanted::ReadOn(44, 2), 44),
        (&STREAM[..1], 0, false, 0, Wanted::ReadOn(0, 2), 0),
        (&STREAM[..10], 0, false, 0, Wanted::ReadOn(0, 11), 0),
        (&STREAM, 0, false, 50, Wanted::ReadOn(50, 2), 50),
        (&STREAM[11..], 11, true, 0, Wanted::ReadOn(0, 2), 0),
        (&STREAM[..10], 0, true, 0, Wanted::Cut(0), 10),
        (&STREAM[..13], 0, true, 11, Wanted::Cut(11), 13),
        (&STREAM, 0, true, 1, Wanted::Fault(1), 3),
        (&wrong_footer, 0, true, 0, Wanted::Fault(0), 11),
    ];
    for (bytes, at, is_end, position, wanted, after) in rows {
        let mut frames = FrameDecoder::new(position);
        let event = answer(&mut frames, rt.alloc(), bytes, at, is_end);
        assert!(rt; is_wanted(event, wanted));
        assert!(rt; frames.position() == after);
    }
}

// What is answered, if the positions fit.
fn answer(
    frames: &mut FrameDecoder,
    alloc: Global,
    bytes: &[u8],
    at: u64,
    is_end: bool,
) -> claxon::Result<Event> {
    if at >= u64::MAX - 512 || bytes.len() > 512 {
        return Ok(Event::End);
    }
    frames.decode_next(Vec::new(alloc), bytes, at, is_end, Some(INFO))
}

// The same without the block, and without the bytes that are needed.
#[derive(Clone, Copy)]
enum Step {
    Block(u64),
    ReadOn(u64),
    Fault(u64),
    End,
    Other,
}

fn step_of(event: claxon::Result<Event>) -> Step {
    match event {
        Ok(Event::Decoded(frame)) => Step::Block(frame.info.time),
        Ok(Event::ReadOn(needed)) => Step::ReadOn(needed.position),
        Ok(Event::Faulty(fault)) => Step::Fault(fault.position),
        Ok(Event::End) => Step::End,
        _ => Step::Other,
    }
}

// What is answered where so many bytes of the stream are held.
fn step_at(frames: &mut FrameDecoder, alloc: Global, bytes: &[u8; 44], held: usize) -> Step {
    let is_end = held >= 44;
    step_of(answer(frames, alloc, &bytes[..held.min(44)], 0, is_end))
}

// Whether each block is answered once its last byte is there, in pieces of this size.
fn is_answered(alloc: Global, size: usize) -> bool {
    let mut frames = FrameDecoder::new(0);
    let mut held = 0usize;
    let mut given = 0u64;
    for _ in 0..100 {
        match step_at(&mut frames, alloc, &STREAM, held) {
            Step::Block(time) if time == given.saturating_mul(16) => {
                given = given.saturating_add(1);
                if held.saturating_sub(size) as u64 >= given.saturating_mul(11) {
                    return false;
                }
            }
            Step::ReadOn(position) if position == given.saturating_mul(11) => {
                held = held.saturating_add(size);
            }
            Step::End => return given == 4 && frames.position() == 44,
            _ => return false,
        }
    }
    false
}

// In pieces of each size, also of one byte.
#[test]
fn pieces(rt: HostRuntime) {
    for size in 1..45 {
        assert!(rt; is_answered(rt.alloc(), size), "{size}");
    }
}

// Whether, byte by byte, a wrong CRC-16 of the first frame is answered when twice the frame's bytes are there, and the frames
// after it are answered too.
fn is_fault_answered(alloc: Global, bytes: &[u8; 44]) -> bool {
    let mut frames = FrameDecoder::new(0);
    let mut held = 0usize;
    let mut given = 0u64;
    for _ in 0..100 {
        match step_at(&mut frames, alloc, bytes, held) {
            Step::Fault(0) if given == 0 && held <= 22 => given = 1,
            Step::Block(time) if time == given.saturating_mul(16) => {
                given = given.saturating_add(1);
            }
            Step::ReadOn(_) => held = held.saturating_add(1),
            Step::End => return given == 4 && frames.position() == 44,
            _ => return false,
        }
    }
    false
}

#[test]
fn wrong_footer_in_pieces(rt: HostRuntime) {
    let mut bytes = STREAM;
    bytes[10] = 0x26;
    assert!(rt; is_fault_answered(rt.alloc(), &bytes));
}

fn is_read_on(event: claxon::Result<Event>) -> bool {
    matches!(event, Ok(Event::ReadOn(_)))
}

fn has_samples(event: claxon::Result<Event>, samples: &[i32]) -> bool {
    match event {
        Ok(Event::Decoded(frame)) => frame.block.into_buffer().as_slice() == samples,
        _ => false,
    }
}

// Where the CRC-16 is 0 within a frame, the frame is answered at its last byte nevertheless.
#[test]
fn crc_of_zero_within_a_frame(rt: HostRuntime) {
    let mut frames = FrameDecoder::new(0);
    for held in 0..26 {
        let event = answer(&mut frames, rt.alloc(), &ZERO_WITHIN[..held], 0, false);
        assert!(rt; is_read_on(event), "{held}");
    }
    let event = answer(&mut frames, rt.alloc(), &ZERO_WITHIN, 0, false);
    assert!(rt; has_samples(event, &SAMPLES));
}

// How many of the bytes of a frame that come one by one are there where it is tried: twice the last ones, and all, where the
// CRC-16 is 0.
const TRIED: [usize; 6] = [0, 1, 2, 4, 8, 11];

// Whether the answer is right where so many are there, and it is known without a try that more are needed but at those.
fn is_tried_or_known(frames: &mut FrameDecoder, alloc: Global, held: usize) -> bool {
    let bytes = &STREAM[..held.min(11)];
    let mut waiting = *frames;
    let is_tried = waiting.waits(bytes, 0, false).is_none();
    let event = answer(frames, alloc, bytes, 0, false);
    is_tried == TRIED.contains(&held) && is_wanted(event, wanted_of(held))
}

#[test]
fn waits(rt: HostRuntime) {
    let mut frames = FrameDecoder::new(0);
    for held in 0..12 {
        assert!(rt; is_tried_or_known(&mut frames, rt.alloc(), held), "{held}");
    }
}

fn wanted_of(held: usize) -> Wanted {
    if held < 11 {
        Wanted::ReadOn(0, held.saturating_add(1).max(2))
    } else {
        Wanted::Block(0, 1)
    }
}

// Bytes that were made to cost time pass the budget by the 65th try, and then cost none until the stream ends.
#[test]
fn budget_is_passed(rt: HostRuntime) {
    let mut bytes = [0; 300];
    bytes[..11].copy_from_slice(&COSTLY);
    let mut frames = FrameDecoder::new(0);
    for held in 0..300 {
        let event = answer(&mut frames, rt.alloc(), &bytes[..held], 0, false);
        let is_over_budget = held > 74;
        assert!(rt;
            is_read_on(event) && frames.is_over_budget() == is_over_budget,
            "{held}"
        );
    }
    let event = answer(&mut frames, rt.alloc(), &bytes, 0, true);
    assert!(rt; matches!(event, Ok(Event::Cut(0))) && frames.position() == 300);
}
