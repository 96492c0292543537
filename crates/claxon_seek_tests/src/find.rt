//! Frames that are found, by rows. They have one channel of 8 bits and 16 samples of one value but where a row says so, and were
//! made by the definitions of RFC 9639, section 9.
use claxon::metadata::StreamInfo;
use claxon_seek::{BlockMemory, BlockSearch, Search, find_frame, seek, seek_block};

// Four frames, one after another.
#[rattlefmt::skip]
const STREAM: [u8; 44] = [
    0xff, 0xf8, 0x69, 0x02, 0x00, 0x0f, 0xb7, 0x00, 0x01, 0x7a, 0x27,
    0xff, 0xf8, 0x69, 0x02, 0x01, 0x0f, 0xa2, 0x00, 0x02, 0x7b, 0x51,
    0xff, 0xf8, 0x69, 0x02, 0x02, 0x0f, 0x9d, 0x00, 0x03, 0xf8, 0xd0,
    0xff, 0xf8, 0x69, 0x02, 0x03, 0x0f, 0x88, 0x00, 0x04, 0x79, 0xbd,
];

// The first one between bytes that begin no frame, a sync code among them.
#[rattlefmt::skip]
const AMONG_OTHERS: [u8; 17] = [
    0x00, 0xff, 0xff, 0xf8, 0xff, 0xf8, 0x69, 0x02, 0x00, 0x0f, 0xb7, 0x00, 0x01, 0x7a, 0x27, 0x00, 0x00,
];

// The second one, with two channels, and with 16 bits.
#[rattlefmt::skip]
const OF_TWO_CHANNELS: [u8; 13] =
    [0xff, 0xf8, 0x69, 0x12, 0x01, 0x0f, 0x00, 0x00, 0x09, 0x00, 0x09, 0xa8, 0xdf];

#[rattlefmt::skip]
const OF_16_BITS: [u8; 12] =
    [0xff, 0xf8, 0x69, 0x08, 0x01, 0x0f, 0x25, 0x00, 0x00, 0x09, 0xba, 0xb3];

const INFO: StreamInfo = StreamInfo {
    min_block_size: 16,
    max_block_size: 16,
    min_frame_size: None,
    max_frame_size: None,
    sample_rate: 44_100,
    channels: 1,
    bits_per_sample: 8,
    samples: Some(64),
    md5sum: [0; 16],
};

// What is to be found: a frame at a position, with the time of its block; none, and the undecided position; or the position that is
// over budget.
#[derive(Clone, Copy)]
enum Wanted {
    Frame(usize, u64),
    None(usize),
    OverBudget(usize),
}

fn is_wanted(found: &claxon::Result<Search>, wanted: Wanted) -> bool {
    match (found, wanted) {
        (Ok(Search::Found(frame)), Wanted::Frame(position, time)) => {
            frame.position == position && frame.block.time == time && frame.block.duration == 16
        }
        (Ok(Search::NotFound(undecided)), Wanted::None(position)) => *undecided == position,
        (Ok(Search::OverBudget(to)), Wanted::OverBudget(position)) => *to == position,
        _ => false,
    }
}

// The stream, whose first frame has a wrong footer.
#[rattlefmt::skip]
const WRONG_FOOTER: [u8; 44] = [
    0xff, 0xf8, 0x69, 0x02, 0x00, 0x0f, 0xb7, 0x00, 0x01, 0x7a, 0x26,
    0xff, 0xf8, 0x69, 0x02, 0x01, 0x0f, 0xa2, 0x00, 0x02, 0x7b, 0x51,
    0xff, 0xf8, 0x69, 0x02, 0x02, 0x0f, 0x9d, 0x00, 0x03, 0xf8, 0xd0,
    0xff, 0xf8, 0x69, 0x02, 0x03, 0x0f, 0x88, 0x00, 0x04, 0x79, 0xbd,
];

// The stream, without its last byte.
#[rattlefmt::skip]
const CUT: [u8; 43] = [
    0xff, 0xf8, 0x69, 0x02, 0x00, 0x0f, 0xb7, 0x00, 0x01, 0x7a, 0x27,
    0xff, 0xf8, 0x69, 0x02, 0x01, 0x0f, 0xa2, 0x00, 0x02, 0x7b, 0x51,
    0xff, 0xf8, 0x69, 0x02, 0x02, 0x0f, 0x9d, 0x00, 0x03, 0xf8, 0xd0,
    0xff, 0xf8, 0x69, 0x02, 0x03, 0x0f, 0x88, 0x00, 0x04, 0x79,
];

// The bytes, where the search begins, the budget, what is found and what is left of the budget. The frame with a wrong footer costs
// its 16 samples and its 11 bytes, the one that is cut 10 bytes.
type Row = (&'static [u8], usize, u64, Wanted, u64);

#[rattlefmt::skip]
const ROWS: [Row; 18] = [
    (&STREAM, 0, 100, Wanted::Frame(0, 0), 84),
    (&STREAM, 1, 100, Wanted::Frame(11, 16), 84),
    (&STREAM, 33, 100, Wanted::Frame(33, 48), 84),
    (&STREAM, 34, 100, Wanted::None(43), 100),
    (&STREAM, 44, 100, Wanted::None(44), 100),
    (&STREAM, 99, 100, Wanted::None(99), 100),
    (&AMONG_OTHERS, 0, 100, Wanted::Frame(4, 0), 84),
    (&WRONG_FOOTER, 0, 100, Wanted::Frame(11, 16), 57),
    (&WRONG_FOOTER, 0, 43, Wanted::Frame(11, 16), 0),
    (&STREAM, 0, 16, Wanted::Frame(0, 0), 0),
    (&STREAM, 0, 15, Wanted::OverBudget(0), 15),
    (&WRONG_FOOTER, 0, 42, Wanted::OverBudget(11), 15),
    (&WRONG_FOOTER, 0, 20, Wanted::OverBudget(11), 0),
    (&WRONG_FOOTER, 0, 31, Wanted::OverBudget(11), 4),
    (&CUT, 33, 100, Wanted::None(33), 74),
    (&OF_TWO_CHANNELS, 0, 100, Wanted::None(12), 100),
    (&OF_16_BITS, 0, 100, Wanted::None(11), 100),
    (&[], 0, 0, Wanted::None(0), 0),
];

fn is_found(memory: &mut BlockMemory, row: &Row) -> bool {
    let (bytes, from, budget, wanted, left) = *row;
    let mut budget = budget;
    let found = find_frame(memory, bytes, from, Some(INFO), &mut budget);
    is_wanted(&found, wanted) && budget == left
}

#[test]
fn next_frames(rt: HostRuntime) {
    let mut memory = BlockMemory::new(rt.alloc());
    for row in &ROWS {
        assert!(rt; is_found(&mut memory, row));
    }
    assert!(rt; memory.refused() == 0);
}

// Any frame will do where nothing is known of the stream.
#[test]
fn next_frames_of_any_stream(rt: HostRuntime) {
    let mut memory = BlockMemory::new(rt.alloc());
    let rows: [(&[u8], Wanted); 3] = [
        (&STREAM, Wanted::Frame(0, 0)),
        (&OF_TWO_CHANNELS, Wanted::Frame(0, 16)),
        (&OF_16_BITS, Wanted::Frame(0, 16)),
    ];
    for (bytes, wanted) in rows {
        let mut left = 1000;
        let found = find_frame(&mut memory, bytes, 0, None, &mut left);
        assert!(rt; is_wanted(&found, wanted));
    }
}

// A frame that is cut begins where more bytes can make one.
#[test]
fn cut_frames(rt: HostRuntime) {
    let mut memory = BlockMemory::new(rt.alloc());
    for length in 1..11 {
        let mut left = 1000;
        let found = find_frame(&mut memory, &STREAM[..length], 0, Some(INFO), &mut left);
        assert!(rt; is_wanted(&found, Wanted::None(0)));
        let found = find_frame(
            &mut memory,
            &STREAM[..33 + length],
            23,
            Some(INFO),
            &mut left,
        );
        assert!(rt; is_wanted(&found, Wanted::None(33)));
    }
}

// The stream, with a wrong sample in the third frame.
#[rattlefmt::skip]
const DAMAGED: [u8; 44] = [
    0xff, 0xf8, 0x69, 0x02, 0x00, 0x0f, 0xb7, 0x00, 0x01, 0x7a, 0x27,
    0xff, 0xf8, 0x69, 0x02, 0x01, 0x0f, 0xa2, 0x00, 0x02, 0x7b, 0x51,
    0xff, 0xf8, 0x69, 0x02, 0x02, 0x0f, 0x9d, 0x00, 0x04, 0xf8, 0xd0,
    0xff, 0xf8, 0x69, 0x02, 0x03, 0x0f, 0x88, 0x00, 0x04, 0x79, 0xbd,
];

// The stream, whose first frame and last one are swapped.
#[rattlefmt::skip]
const SWAPPED: [u8; 44] = [
    0xff, 0xf8, 0x69, 0x02, 0x03, 0x0f, 0x88, 0x00, 0x04, 0x79, 0xbd,
    0xff, 0xf8, 0x69, 0x02, 0x01, 0x0f, 0xa2, 0x00, 0x02, 0x7b, 0x51,
    0xff, 0xf8, 0x69, 0x02, 0x02, 0x0f, 0x9d, 0x00, 0x03, 0xf8, 0xd0,
    0xff, 0xf8, 0x69, 0x02, 0x00, 0x0f, 0xb7, 0x00, 0x01, 0x7a, 0x27,
];

// What is found for the samples of each of four blocks, and after them.
#[rattlefmt::skip]
const SAMPLES: [(&[u8], [Wanted; 5]); 3] = [
    (&STREAM, [Wanted::Frame(0, 0), Wanted::Frame(11, 16), Wanted::Frame(22, 32), Wanted::Frame(33, 48),
        Wanted::None(43)]),
    (&DAMAGED, [Wanted::Frame(0, 0), Wanted::Frame(11, 16), Wanted::None(43), Wanted::Frame(33, 48),
        Wanted::None(43)]),
    (&SWAPPED, [Wanted::Frame(33, 0), Wanted::Frame(11, 16), Wanted::Frame(22, 32), Wanted::Frame(0, 48),
        Wanted::None(43)]),
];

fn is_sample_found(
    memory: &mut BlockMemory,
    bytes: &[u8],
    wanted: &[Wanted; 5],
    sample: u64,
) -> bool {
    let frame = (sample / 16) as usize;
    frame < wanted.len()
        && is_wanted(
            &seek(memory, bytes, Some(INFO), 0, sample, 1000),
            wanted[frame],
        )
}

// Each sample in order.
#[test]
fn frames_with_samples(rt: HostRuntime) {
    let mut memory = BlockMemory::new(rt.alloc());
    for (bytes, wanted) in &SAMPLES {
        for sample in 0..80 {
            assert!(rt; is_sample_found(&mut memory, bytes, wanted, sample));
        }
    }
}

// The bytes, how many samples the streaminfo tells, the position of the first frame, the sample, the budget, and what is found.
type SeekRow = (&'static [u8], Option<u64>, usize, u64, u64, Wanted);

#[rattlefmt::skip]
const SEEKS: [SeekRow; 6] = [
    (&STREAM, Some(64), 1, 15, 1000, Wanted::None(43)),
    (&STREAM, Some(64), 11, 16, 1000, Wanted::Frame(11, 16)),
    (&STREAM, None, 0, 47, 1000, Wanted::Frame(22, 32)),
    (&STREAM, None, 0, u64::MAX, 1000, Wanted::None(43)),
    (&DAMAGED, Some(64), 0, 40, 16, Wanted::None(43)),
    (&DAMAGED, Some(64), 0, 40, 15, Wanted::OverBudget(22)),
];

fn is_sought(memory: &mut BlockMemory, row: &SeekRow) -> bool {
    let (bytes, samples, first_frame, sample, budget, wanted) = *row;
    let info = StreamInfo { samples, ..INFO };
    let found = seek(memory, bytes, Some(info), first_frame, sample, budget);
    is_wanted(&found, wanted)
}

// From a later first frame on, without a known number of samples, and with a budget that headers pass.
#[test]
fn seeks_from_frames(rt: HostRuntime) {
    let mut memory = BlockMemory::new(rt.alloc());
    for row in &SEEKS {
        assert!(rt; is_sought(&mut memory, row));
    }
}

// The bytes, the sample, the position of the frame, the time of its block, and the value of its samples.
type BlockRow = (&'static [u8], u64, usize, u64, i32);

#[rattlefmt::skip]
const BLOCKS: [BlockRow; 4] = [
    (&STREAM, 0, 0, 0, 1),
    (&STREAM, 40, 22, 32, 3),
    (&SWAPPED, 15, 33, 0, 1),
    (&SWAPPED, 48, 0, 48, 4),
];

fn is_block(memory: &mut BlockMemory, row: &BlockRow) -> bool {
    let (bytes, sample, position, time, value) = *row;
    let Ok(BlockSearch::Found(found)) = seek_block(memory, bytes, Some(INFO), 0, sample, 1000)
    else {
        return false;
    };
    let block = &found.block;
    found.frame.position == position
        && found.len == 11
        && found.frame.block.time == time
        && block.time() == time
        && block.channels() == 1
        && block.channel(0) == [value; 16].as_slice()
}

// The block, and the number of its frame's bytes: where headers lead to it, and where they don't.
#[test]
fn blocks_with_samples(rt: HostRuntime) {
    let mut memory = BlockMemory::new(rt.alloc());
    for row in &BLOCKS {
        assert!(rt; is_block(&mut memory, row));
    }
}

#[test]
fn blocks_not_found(rt: HostRuntime) {
    let mut memory = BlockMemory::new(rt.alloc());
    let found = seek_block(&mut memory, &STREAM, Some(INFO), 0, 64, 1000);
    assert!(rt; matches!(found, Ok(BlockSearch::NotFound(43))));
    let found = seek_block(&mut memory, &DAMAGED, Some(INFO), 0, 40, 15);
    assert!(rt; matches!(found, Ok(BlockSearch::OverBudget(22))));
}
