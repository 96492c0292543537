//! Frames: the bytes consumed, and the blocks.
ghost use Rattle.std.specs.Prelude.{◌≡◌, IfSome};
ghost use Rattle.claxon.specs.ShownHead.{HasBitDepth};

use crate::answers::AnswerText;
use crate::replay::Case;
use crate::streams::{PIECES, add_calls_that_disagree};
use claxon::Block;
use claxon::frame::{FrameReader, FrameResult};
use claxon::metadata::StreamInfo;
use claxon_command_line::result_text::ResultText;
use claxon_stream::{Event, FrameDecoder};
use std::alloc::Global;
use std::io::Cursor;

// The value and number of the old samples in used buffers.
const USED_BUFFERS: [(i32, usize); 4] = [(13, 1), (13, 16384), (17, 1), (17, 16384)];

// More bytes than a line has.
const MAX_BYTES: usize = 1 << 30;

// The marker and a streaminfo of one channel of 8 bits, in blocks of 16 samples.
const HEAD: [u8; 42] = [
    0x66, 0x4c, 0x61, 0x43, 0x80, 0x00, 0x00, 0x22, 0x00, 0x10, 0x00, 0x10, 0x00, 0x00, 0x00, 0x00,
    0x00, 0x00, 0x0a, 0xc4, 0x40, 0x70, 0x00, 0x00, 0x00, 0x01, 0x00, 0x00, 0x00, 0x00, 0x00, 0x00,
    0x00, 0x00, 0x00, 0x00, 0x00, 0x00, 0x00, 0x00, 0x00, 0x00,
];

/// Adds the result of each of `calls` calls, with ` | ` between them: `BYTES block TIME CHANNELS DURATION samples..`,
/// `BYTES end`, `BYTES text`, or `IO`, after which all bytes are consumed. Then follow different results into buffers with old
/// samples, one and more than a block has, the calls over a stream of these frames that disagree, and different results where the
/// bytes are handed in in pieces.
pub fn answer_of_frames(alloc: Global, case: &Case, calls: usize, answer: &mut ResultText) {
    let one = answers_into(alloc, case, calls, (0, 0));
    answer.bytes(one.as_bytes());
    for old in USED_BUFFERS {
        let other = answers_into(alloc, case, calls, old);
        answer.difference(&one, &other, "; into a used buffer: ");
    }
    add_as_a_stream(alloc, &case.bytes, answer);
    for size in PIECES {
        let other = answers_in_pieces(alloc, case, calls, size);
        answer.difference(&one, &other, "; in pieces: ");
    }
}

// The frames after a head.
fn add_as_a_stream(alloc: Global, frames: &[u8], answer: &mut ResultText) {
    let mut bytes = Vec::new(alloc);
    if bytes.extend_from_slice(&HEAD).is_err() || bytes.extend_from_slice(frames).is_err() {
        answer.text("no memory for the stream");
        return;
    }
    add_calls_that_disagree(alloc, &bytes, answer);
}

// The results of the calls, each into a buffer of old samples.
fn answers_into(alloc: Global, case: &Case, calls: usize, old: (i32, usize)) -> ResultText {
    let mut answer = ResultText::new(alloc);
    let (all, mut taken) = (case.bytes.len() as u64, 0);
    for call in 0..calls {
        if call > 0 {
            answer.text(" | ");
        }
        let Some((outcome, position)) = next_block(alloc, case, taken, old) else {
            answer.text("no case");
            break;
        };
        taken = position;
        add_outcome(outcome, taken, all, &mut answer);
    }
    answer
}

// The result of a call that begins at this position, and the position after it; None if no stream has such samples or blocks, or
// memory is refused. A reader has no state but its input and the streaminfo, so each call can have a new one.
fn next_block(
    alloc: Global,
    case: &Case,
    start: u64,
    old: (i32, usize),
) -> Option<(FrameResult, u64)> {
    let (sample, len) = old;
    let mut buffer = Vec::new(alloc);
    buffer.resize(len, sample).ok()?;
    let mut input = Cursor::new(case.bytes.as_slice());
    input.set_position(start);
    let mut reader = match (case.number, u16::try_from(case.length)) {
        (0, Ok(0)) => FrameReader::new(input),
        (1..=32, Ok(length)) => FrameReader::with_streaminfo(
            input,
            stream_info(case.number, length),
        ),
        _ => return None,
    };
    let outcome = reader.read_next_or_eof(buffer);
    Some((outcome, reader.into_inner().position()))
}

fn add_outcome(outcome: FrameResult, taken: u64, all: u64, answer: &mut ResultText) {
    match outcome {
        Ok(Some(block)) => {
            answer.value(&taken);
            add_block(block, answer);
        }
        Ok(None) => {
            answer.value(&taken);
            answer.text(" end");
        }
        Err(error) => answer.fault_after(taken, all, &error),
    }
}

fn add_block(block: Block, answer: &mut ResultText) {
    answer.counts(&[
        (" block ", block.time()),
        (" ", u64::from(block.channels())),
        (" ", u64::from(block.duration())),
    ]);
    add_samples(&block.into_buffer(), answer);
}

// Adds the samples; more than a hundred equal ones as ` VALUExCOUNT`.
fn add_samples(samples: &[i32], answer: &mut ResultText) {
    match samples.first() {
        Some(first) if samples.len() > 100 && are_all(samples, *first) => {
            answer.text(" ");
            answer.value(first);
            answer.counts(&[("x", samples.len() as u64)]);
        }
        _ => answer.samples(samples),
    }
}

fn are_all(samples: &[i32], value: i32) -> bool {
    let mut all = true;
    for sample in samples {
        all = all && *sample == value;
    }
    all
}

// The results where the bytes are handed in in pieces of this size.
fn answers_in_pieces(alloc: Global, case: &Case, calls: usize, size: usize) -> ResultText {
    let mut answer = ResultText::new(alloc);
    let Some(known) = known_stream(case) else {
        answer.text("no case");
        return answer;
    };
    let all = case.bytes.len() as u64;
    let mut frames = FrameDecoder::new(0);
    let mut held = 0;
    for call in 0..calls {
        if call > 0 {
            answer.text(" | ");
        }
        let event = next_event(alloc, &mut frames, &case.bytes, &mut held, size, known);
        add_event(event, frames.position(), all, &mut answer);
    }
    answer
}

// What is known of the stream; None if no stream has such samples or blocks.
fn known_stream(case: &Case) -> Option<Option<StreamInfo>>
    ensures { IfSome result (λ known. IfSome known (λ info. HasBitDepth info)) }
{
    match (case.number, u16::try_from(case.length)) {
        (0, Ok(0)) => Some(None),
        (1..=32, Ok(length)) => Some(Some(stream_info(case.number, length))),
        _ => None,
    }
}

// The next answer but `ReadOn`, for which more pieces are handed in; None if memory is refused.
fn next_event(
    alloc: Global,
    frames: &mut FrameDecoder,
    bytes: &[u8],
    held: &mut usize,
    size: usize,
    known: Option<StreamInfo>,
) -> Option<Event>
    requires { IfSome known (λ info. HasBitDepth info) }
{
    if bytes.len() >= MAX_BYTES {
        return None;
    }
    for _ in 0..bytes.len() + 2 {
        let count = (*held).min(bytes.len());
        let is_end = count == bytes.len();
        let front = &bytes[..count];
        match frames.decode_next(Vec::new(alloc), front, 0, is_end, known) {
            Ok(Event::ReadOn(_)) => *held = (*held).saturating_add(size),
            Ok(event) => return Some(event),
            Err(_) => return None,
        }
    }
    None
}

fn add_event(event: Option<Event>, taken: u64, all: u64, answer: &mut ResultText) {
    match event {
        Some(Event::Decoded(frame)) => {
            answer.value(&taken);
            add_block(frame.block, answer);
        }
        Some(Event::End) => {
            answer.value(&taken);
            answer.text(" end");
        }
        Some(Event::Faulty(fault)) => answer.fault_after(taken, all, &fault.error),
        Some(Event::Cut(_)) => answer.text("IO"),
        _ => answer.text("no event"),
    }
}

// A stream with this bit depth, in blocks of 16 to `length` samples.
fn stream_info(bits_per_sample: u32, max_block_size: u16) -> StreamInfo
    ensures { result.bits_per_sample ≡ bits_per_sample }
{
    StreamInfo {
        min_block_size: 16,
        max_block_size,
        min_frame_size: None,
        max_frame_size: None,
        sample_rate: 44100,
        channels: 1,
        bits_per_sample,
        samples: None,
        md5sum: [0; 16],
    }
}
