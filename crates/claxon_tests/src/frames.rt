//! Frames with their headers, read in one call or in two, and the samples of blocks by channel and number.
use claxon::Block;
use claxon::frame::{BlockInfo, DecodedFrame, FrameReader, StartedFrame};
use claxon::input::ReadBytes;
use claxon::metadata::StreamInfo;
use claxon_testing::answers::{Fault, fault_of};
use std::alloc::Global;
use std::io::Cursor;
use std::test::Fail;

// A frame of three channels of five samples, whose number is that of sample 7, and one of two channels of three samples.
const THREE_CHANNELS: [u8; 27] = [
    0xff, 0xf9, 0x69, 0x22, 0x07, 0x04, 0xcc, 0x02, 0x02, 0x03, 0x05, 0x07, 0x0b, 0x02, 0x0d, 0x11,
    0x13, 0x17, 0x1d, 0x02, 0x1f, 0x25, 0x29, 0x2b, 0x2f, 0x07, 0x1c,
];

const TWO_CHANNELS: [u8; 17] = [
    0xff, 0xf8, 0x69, 0x12, 0x00, 0x02, 0x36, 0x02, 0x02, 0x03, 0x05, 0x02, 0x07, 0x0b, 0x0d, 0x57,
    0x89,
];

// The frame of the example in RFC 9639, appendix D.1, whose header gives 16 bits; the same, but the header leaves the bit depth
// to the streaminfo; the first one with a wrong CRC; and one byte.
#[rattlefmt::skip]
const FRAMES: [u8; 46] = [
    0xff, 0xf8, 0x69, 0x18, 0x00, 0x00, 0xbf, 0x03, 0x58, 0xfd, 0x03, 0x12, 0x8b, 0xaa, 0x9a,
    0xff, 0xf8, 0x69, 0x10, 0x00, 0x00, 0xee, 0x03, 0x58, 0xfd, 0x03, 0x12, 0x8b, 0xfe, 0x20,
    0xff, 0xf8, 0x69, 0x18, 0x00, 0x00, 0xbf, 0x03, 0x58, 0xfd, 0x03, 0x12, 0x8b, 0xaa, 0x9b,
    0xff,
];

const INFO: StreamInfo = StreamInfo {
    min_block_size: 4096,
    max_block_size: 4096,
    min_frame_size: None,
    max_frame_size: None,
    sample_rate: 44_100,
    channels: 2,
    bits_per_sample: 16,
    samples: None,
    md5sum: [0; 16],
};

// The block of the first frame of these bytes.
fn first_block(alloc: Global, bytes: &[u8]) -> Result<Block, Fail> {
    let mut frames = FrameReader::new(Cursor::new(bytes));
    match frames.read_next_or_eof(Vec::new(alloc)) {
        Ok(Some(block)) => Ok(block),
        _ => Err(Fail::new("no block")),
    }
}

#[test]
fn three_channels(rt: HostRuntime) -> Result<(), Fail> {
    let block = first_block(rt.alloc(), &THREE_CHANNELS)?;
    assert!(rt; block.time() == 7 && block.len() == 15);
    assert!(rt; block.channels() == 3 && block.duration() == 5);
    let some = [block.sample(0, 2), block.sample(1, 3), block.sample(2, 4)];
    assert!(rt; some == [5, 23, 47]);
    assert!(rt; block.channel(1) == [13, 17, 19, 23, 29].as_slice());
    let numbers = [2, 3, 5, 7, 11, 13, 17, 19, 23, 29, 31, 37, 41, 43, 47];
    assert!(rt; block.into_buffer().as_slice() == numbers.as_slice());
    Ok(())
}

#[test]
fn stereo_pairs(rt: HostRuntime) -> Result<(), Fail> {
    let block = first_block(rt.alloc(), &TWO_CHANNELS)?;
    assert!(rt; block.channels() == 2);
    let mut pairs = block.stereo_samples();
    for want in [Some((2, 7)), Some((3, 11)), Some((5, 13)), None] {
        assert!(rt; pairs.next() == want);
    }
    Ok(())
}

// Whether it is the block of the example.
fn is_example(block: &Block) -> bool {
    block.channels() == 2
        && block.channel(0) == [25588].as_slice()
        && block.channel(1) == [10416].as_slice()
}

// Whether the header of a frame says what that of the example does, and how.
fn is_example_header(info: BlockInfo, given: Option<u32>) -> bool {
    info.channels == 2
        && info.duration == 1
        && info.bit_depth == 16
        && info.header_bit_depth == given
}

// What calls for a frame came to.
#[derive(PartialEq, Clone, Copy)]
enum Found {
    Example,
    Other,
    Nothing,
    NoHeader(Fault),
    NoFrame(Fault),
}

fn found_if(is_example: bool) -> Found {
    if is_example {
        Found::Example
    } else {
        Found::Other
    }
}

// The next frame, whose header gives this bit depth if it is that of the example.
fn next_of<R: ReadBytes>(alloc: Global, frames: &mut FrameReader<R>, given: Option<u32>) -> Found {
    match frames.read_next_with_info_or_eof(Vec::new(alloc)) {
        Ok(Some(frame)) => {
            let DecodedFrame { info, block } = frame;
            found_if(is_example_header(info, given) && is_example(&block))
        }
        Ok(None) => Found::Nothing,
        Err(error) => Found::NoFrame(fault_of(&error)),
    }
}

const WRONG_CRC: Found = Found::NoFrame(Fault::Format("frame CRC mismatch"));

#[test]
fn frames_with_headers(rt: HostRuntime) {
    let mut frames = FrameReader::with_streaminfo(Cursor::new(FRAMES.as_slice()), INFO);
    let wants = [
        (Some(16), Found::Example),
        (None, Found::Example),
        (None, WRONG_CRC),
        (None, Found::Nothing),
    ];
    for (given, want) in &wants {
        assert!(rt; next_of(rt.alloc(), &mut frames, *given) == *want);
    }
    assert!(rt; frames.into_inner().position() == 46);
}

// The header of the example, and then the rest of its frame.
fn in_two_calls<R: ReadBytes>(alloc: Global, frames: &mut FrameReader<R>) -> Found {
    match frames.read_start_or_eof() {
        Ok(Some(started)) => {
            if is_example_header(started.info(), Some(16)) {
                rest_of(alloc, frames, started)
            } else {
                Found::Other
            }
        }
        Ok(None) => Found::Nothing,
        Err(error) => Found::NoHeader(fault_of(&error)),
    }
}

fn rest_of<R: ReadBytes>(
    alloc: Global,
    frames: &mut FrameReader<R>,
    started: StartedFrame,
) -> Found {
    match frames.read_rest(started, Vec::new(alloc)) {
        Ok(block) => found_if(is_example(&block)),
        Err(error) => Found::NoFrame(fault_of(&error)),
    }
}

// What these bytes give in two calls, and how many of them are consumed.
fn found_in(alloc: Global, bytes: &[u8]) -> (Found, u64) {
    let mut frames = FrameReader::new(Cursor::new(bytes));
    let found = in_two_calls(alloc, &mut frames);
    (found, frames.into_inner().position())
}

#[test]
fn header_and_rest(rt: HostRuntime) {
    assert!(rt; found_in(rt.alloc(), &FRAMES[..15]) == (Found::Example, 15));
    assert!(rt; found_in(rt.alloc(), &FRAMES[30..45]) == (WRONG_CRC, 15));
}

// The bytes end within the rest, within the header, and within the sync code.
#[test]
fn cut_after_the_header(rt: HostRuntime) {
    let rows = [
        (14, Found::NoFrame(Fault::Io)),
        (6, Found::NoHeader(Fault::Io)),
        (1, Found::Nothing),
    ];
    for (len, want) in &rows {
        let (found, _taken) = found_in(rt.alloc(), &FRAMES[..(*len).min(46)]);
        assert!(rt; found == *want, "{len}");
    }
}
