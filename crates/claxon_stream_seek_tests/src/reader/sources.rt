//! Streams of large frames, out of order, damaged, with a seek table that lies, and far into a source.
use super::{
    BLOCKS, Blocks, FRAMES, HEAD, Source, block_of, finds, finds_at_last, has_failed_on_purpose,
    is_next, is_next_at_last, next_block, stream,
};
use claxon::{Error, Result};
use claxon_seekable::SeekableReader;
use std::alloc::{AllocError, Global};
use std::io;
use std::io::{Cursor, ErrorKind, Read, Seek, SeekFrom};
use std::test::Fail;

// A frame of 65535 samples of one value, as they are: 65546 bytes, of which these are the first and the last ones.
#[derive(Clone, Copy)]
struct LargeFrame {
    header: [u8; 9],
    value: u8,
    footer: [u8; 2],
}

#[rattlefmt::skip]
const LARGE: [LargeFrame; 4] = [
    LargeFrame { header: [0xff, 0xf8, 0x79, 0x02, 0x00, 0xff, 0xfe, 0xde, 0x02], value: 1, footer: [0xbc, 0x7a] },
    LargeFrame { header: [0xff, 0xf8, 0x79, 0x02, 0x01, 0xff, 0xfe, 0xb5, 0x02], value: 2, footer: [0xc3, 0x6c] },
    LargeFrame { header: [0xff, 0xf8, 0x79, 0x02, 0x02, 0xff, 0xfe, 0x08, 0x02], value: 3, footer: [0xc2, 0x4d] },
    LargeFrame { header: [0xff, 0xf8, 0x79, 0x02, 0x03, 0xff, 0xfe, 0x63, 0x02], value: 4, footer: [0x3d, 0x40] },
];

const LARGE_BLOCKS: Blocks = Blocks {
    size: 65_535,
    count: 4,
};

// A streaminfo of one channel of 8 bits and blocks of 65535 samples, and these frames.
fn large_stream(alloc: Global, frames: &[LargeFrame]) -> std::result::Result<Vec<u8>, AllocError> {
    let mut bytes = Vec::new(alloc);
    let mut head = [0; 42];
    head.copy_from_slice(&HEAD[..42]);
    head[4] = 0x80;
    head[8..12].copy_from_slice(&[0xff; 4]);
    bytes.extend_from_slice(&head)?;
    for frame in frames {
        bytes.extend_from_slice(&frame.header)?;
        bytes.resize(bytes.len().saturating_add(65_535), frame.value)?;
        bytes.extend_from_slice(&frame.footer)?;
    }
    Ok(bytes)
}

// The same frames in another order.
#[rattlefmt::skip]
const SWAPPED: [LargeFrame; 4] = [
    LargeFrame { header: [0xff, 0xf8, 0x79, 0x02, 0x02, 0xff, 0xfe, 0x08, 0x02], value: 3, footer: [0xc2, 0x4d] },
    LargeFrame { header: [0xff, 0xf8, 0x79, 0x02, 0x03, 0xff, 0xfe, 0x63, 0x02], value: 4, footer: [0x3d, 0x40] },
    LargeFrame { header: [0xff, 0xf8, 0x79, 0x02, 0x00, 0xff, 0xfe, 0xde, 0x02], value: 1, footer: [0xbc, 0x7a] },
    LargeFrame { header: [0xff, 0xf8, 0x79, 0x02, 0x01, 0xff, 0xfe, 0xb5, 0x02], value: 2, footer: [0xc3, 0x6c] },
];

// Samples, and the number of the block that has each.
const LARGE_SAMPLES: [(u64, u64); 5] = [
    (0, 0),
    (262_139, 3),
    (65_534, 0),
    (65_535, 1),
    (140_000, 2),
];

// Whether each of these samples is found, its block is the next one, and a sample after the last one isn't found.
fn has_large_blocks<R: Read + Seek>(alloc: Global, flac: &mut SeekableReader<R>) -> bool {
    let mut all = true;
    for (sample, number) in &LARGE_SAMPLES {
        all = all
            && finds(flac, *sample, Some(number.saturating_mul(65_535)))
            && is_next(alloc, flac, LARGE_BLOCKS, *number);
    }
    all && finds(flac, 262_140, None)
}

fn is_large_stream(alloc: Global, frames: &[LargeFrame], most: usize) -> Result<bool> {
    let bytes = large_stream(alloc, frames)?;
    let mut flac = SeekableReader::new(alloc, Source::new(bytes.as_slice(), most, 0))?;
    Ok(has_large_blocks(alloc, &mut flac))
}

// Each frame takes several reads, and more than the first attempt. In another order headers don't lead to most frames.
#[test]
fn large_frames(rt: HostRuntime) -> std::result::Result<(), Fail> {
    assert!(rt; is_large_stream(rt.alloc(), &LARGE, 99_999)?);
    assert!(rt; is_large_stream(rt.alloc(), &SWAPPED, 99_999)?);
    assert!(rt; is_large_stream(rt.alloc(), &SWAPPED, 1000)?);
    Ok(())
}

// Whether all blocks, the end, and then a sample are given, at the second call where the first one fails on purpose, which is
// counted.
fn are_all_next<R: Read + Seek>(
    alloc: Global,
    flac: &mut SeekableReader<R>,
    failures: &mut u32,
) -> bool {
    let mut all = true;
    for number in 0..5 {
        all = all && is_next_at_last(alloc, flac, LARGE_BLOCKS, number, failures);
    }
    all && finds_at_last(flac, 70_000, 65_535, failures)
}

// The same over a source in which the call of this number fails, after it took bytes. Opening the stream may fail too.
fn goes_on_after_bytes(alloc: Global, bytes: &[u8], failing: u32, failures: &mut u32) -> bool {
    match SeekableReader::new(alloc, Source::taking(bytes, 20_000, failing)) {
        Ok(flac) => {
            let mut flac = flac;
            are_all_next(alloc, &mut flac, failures)
        }
        Err(error) => {
            *failures = failures.saturating_add(1);
            has_failed_on_purpose(&error)
        }
    }
}

// All blocks in turn, over a source in which a call fails, after it took bytes: no byte is lost, and none is read twice.
#[test]
fn blocks_after_failures(rt: HostRuntime) -> std::result::Result<(), Fail> {
    let bytes = large_stream(rt.alloc(), &LARGE)?;
    let mut failures = 0;
    for failing in 1..40 {
        assert!(rt;
            goes_on_after_bytes(rt.alloc(), bytes.as_slice(), failing, &mut failures),
            "{failing}"
        );
    }
    assert!(rt; failures > 10, "failures {failures}");
    Ok(())
}

// Whether all blocks are found but the one of this number.
fn finds_all_but<R: Read + Seek>(flac: &mut SeekableReader<R>, lost: u64) -> bool {
    let mut all = true;
    for number in 0..8u64 {
        let time = if number == lost {
            None
        } else {
            Some(number * 16)
        };
        all = all && finds(flac, number * 16 + 5, time);
    }
    all
}

// Whether that is so with this byte damaged.
fn is_found_beside(alloc: Global, damaged: usize) -> bool {
    let mut bytes = stream(11, 128);
    if let Some(byte) = bytes.get_mut(damaged) {
        *byte ^= 0x21;
    }
    match SeekableReader::new(alloc, Cursor::new(bytes.as_slice())) {
        Ok(flac) => {
            let mut flac = flac;
            finds_all_but(&mut flac, (damaged.saturating_sub(70) / 11) as u64)
        }
        Err(_) => false,
    }
}

// With each byte of the frames damaged: the block that has it isn't found, and all others are.
#[test]
fn damaged_streams(rt: HostRuntime) {
    for damaged in 70..158 {
        assert!(rt; is_found_beside(rt.alloc(), damaged), "{damaged}");
    }
}

// Whether the next block is that of this number, or where that one is damaged, a fault.
fn is_next_or_fault<R: Read + Seek>(
    alloc: Global,
    flac: &mut SeekableReader<R>,
    number: u64,
    damaged: u64,
) -> bool {
    match next_block(alloc, flac) {
        Ok(block) => block == block_of(BLOCKS, number),
        Err(Error::FormatError(_)) => number == damaged,
        Err(_) => false,
    }
}

fn are_next_but<R: Read + Seek>(alloc: Global, flac: &mut SeekableReader<R>, damaged: u64) -> bool {
    let mut all = true;
    for number in 0..8 {
        all = all && is_next_or_fault(alloc, flac, number, damaged);
    }
    all
}

// Whether the blocks come like that with the value of this frame damaged.
fn is_one_lost(alloc: Global, damaged: usize) -> bool {
    let mut bytes = stream(11, 128);
    if let Some(byte) = bytes.get_mut(damaged.saturating_mul(11).saturating_add(78)) {
        *byte ^= 0x21;
    }
    match SeekableReader::new(alloc, Cursor::new(bytes.as_slice())) {
        Ok(flac) => {
            let mut flac = flac;
            are_next_but(alloc, &mut flac, damaged as u64)
        }
        Err(_) => false,
    }
}

// With the value of each frame damaged in turn: the call for that frame names the fault, and no other block is lost.
#[test]
fn blocks_after_a_fault(rt: HostRuntime) {
    for damaged in 0..8 {
        assert!(rt; is_one_lost(rt.alloc(), damaged), "damaged {damaged}");
    }
}

// The header of a seek table, and two points of 16 samples: sample 0 at byte 44, and sample 64 at byte 0.
#[rattlefmt::skip]
const LYING_TABLE: [u8; 40] = [
    0x83, 0x00, 0x00, 0x24,
    0x00, 0x00, 0x00, 0x00, 0x00, 0x00, 0x00, 0x00, 0x00, 0x00, 0x00, 0x00, 0x00, 0x00, 0x00, 0x2c, 0x00, 0x10,
    0x00, 0x00, 0x00, 0x00, 0x00, 0x00, 0x00, 0x40, 0x00, 0x00, 0x00, 0x00, 0x00, 0x00, 0x00, 0x00, 0x00, 0x10,
];

fn with_lying_table(alloc: Global) -> std::result::Result<Vec<u8>, AllocError> {
    let mut bytes = Vec::from_slice(alloc, &HEAD[..42])?;
    bytes.extend_from_slice(&LYING_TABLE)?;
    bytes.extend_from_slice(&FRAMES)?;
    Ok(bytes)
}

// Whether a seek to the first sample of each of these blocks finds it, where its frame is. The first frame has this position.
fn finds_from<R: Read + Seek>(flac: &mut SeekableReader<R>, first: u64, numbers: &[u64]) -> bool {
    let mut all = true;
    for number in numbers {
        let position = number.saturating_mul(11).saturating_add(first);
        let time = number.saturating_mul(16);
        all = all && finds(flac, time, Some(time)) && flac.position() == position;
    }
    all
}

#[test]
fn seek_table_that_lies(rt: HostRuntime) -> std::result::Result<(), Fail> {
    let bytes = with_lying_table(rt.alloc())?;
    let mut flac = SeekableReader::new(rt.alloc(), Cursor::new(bytes.as_slice()))?;
    assert!(rt; finds_from(&mut flac, 82, &[0, 4, 7, 1, 5]));
    Ok(())
}

// Where the stream begins in a source.
const FAR: u64 = 0x1_0000_0005;

// A source that has these bytes there, and before them nothing that is read.
#[derive(Drop)]
struct FarSource<'a> {
    bytes: Cursor<&'a [u8]>,
}

impl Read for FarSource<'_> {
    fn read(&mut self, buf: &mut [u8]) -> io::Result<usize> {
        self.bytes.read(buf)
    }
}

impl Seek for FarSource<'_> {
    fn seek(&mut self, to: SeekFrom) -> io::Result<u64> {
        let to = match to {
            SeekFrom::Start(position) if position < FAR => {
                return Err(io::Error::new(ErrorKind::InvalidInput, "before the stream"));
            }
            SeekFrom::Start(position) => SeekFrom::Start(position - FAR),
            to => to,
        };
        let position = self.bytes.seek(to)?;
        Ok(position.saturating_add(FAR))
    }
}

// The position of the first frame.
const FIRST_FRAME: u64 = 0x1_0000_004b;

// Whether a seek to the last sample of the block finds it, where its frame is, and it is the next one.
fn is_far_block<R: Read + Seek>(alloc: Global, flac: &mut SeekableReader<R>, number: u64) -> bool {
    let time = number.saturating_mul(16);
    finds(flac, time.saturating_add(15), Some(time))
        && flac.position() == number.saturating_mul(11).saturating_add(FIRST_FRAME)
        && is_next(alloc, flac, BLOCKS, number)
}

fn has_far_blocks<R: Read + Seek>(alloc: Global, flac: &mut SeekableReader<R>) -> bool {
    let mut all = flac.position() == FIRST_FRAME;
    for number in [7, 0, 4, 5] {
        all = all && is_far_block(alloc, flac, number);
    }
    all && finds(flac, 128, None)
}

#[test]
fn stream_beyond_4_gib(rt: HostRuntime) -> std::result::Result<(), Fail> {
    let bytes = stream(11, 128);
    let source = FarSource {
        bytes: Cursor::new(bytes.as_slice()),
    };
    let mut flac = SeekableReader::new(rt.alloc(), source)?;
    assert!(rt; has_far_blocks(rt.alloc(), &mut flac));
    Ok(())
}
