//! Streams that are read from any sample on. Frame n has 16 samples of n + 1, of 8 bits; all was made by the definitions of RFC 9639,
//! section 9, and is accepted by `flac`.
mod sources;

use claxon::{Block, Error, Result};
use claxon_seekable::SeekableReader;
use std::alloc::{AllocError, Global};
use std::io;
use std::io::{Cursor, ErrorKind, Read, Seek, SeekFrom};
use std::test::Fail;

// The streaminfo, with 0 for the sizes of frames and the number of samples, and a Vorbis comment.
#[rattlefmt::skip]
const HEAD: [u8; 70] = [
    0x66, 0x4c, 0x61, 0x43, 0x00, 0x00, 0x00, 0x22, 0x00, 0x10, 0x00, 0x10, 0x00, 0x00, 0x00, 0x00, 0x00, 0x00,
    0x0a, 0xc4, 0x40, 0x70, 0x00, 0x00, 0x00, 0x00, 0x00, 0x00, 0x00, 0x00, 0x00, 0x00, 0x00, 0x00, 0x00, 0x00,
    0x00, 0x00, 0x00, 0x00, 0x00, 0x00, 0x84, 0x00, 0x00, 0x18, 0x03, 0x00, 0x00, 0x00, 0x61, 0x62, 0x63, 0x01,
    0x00, 0x00, 0x00, 0x09, 0x00, 0x00, 0x00, 0x54, 0x49, 0x54, 0x4c, 0x45, 0x3d, 0x6f, 0x6e, 0x65,
];

#[rattlefmt::skip]
const FRAMES: [u8; 88] = [
    0xff, 0xf8, 0x69, 0x02, 0x00, 0x0f, 0xb7, 0x00, 0x01, 0x7a, 0x27,
    0xff, 0xf8, 0x69, 0x02, 0x01, 0x0f, 0xa2, 0x00, 0x02, 0x7b, 0x51,
    0xff, 0xf8, 0x69, 0x02, 0x02, 0x0f, 0x9d, 0x00, 0x03, 0xf8, 0xd0,
    0xff, 0xf8, 0x69, 0x02, 0x03, 0x0f, 0x88, 0x00, 0x04, 0x79, 0xbd,
    0xff, 0xf8, 0x69, 0x02, 0x04, 0x0f, 0xe3, 0x00, 0x05, 0xff, 0xcc,
    0xff, 0xf8, 0x69, 0x02, 0x05, 0x0f, 0xf6, 0x00, 0x06, 0xfe, 0xba,
    0xff, 0xf8, 0x69, 0x02, 0x06, 0x0f, 0xc9, 0x00, 0x07, 0x7d, 0x3b,
    0xff, 0xf8, 0x69, 0x02, 0x07, 0x0f, 0xdc, 0x00, 0x08, 0x7c, 0x65,
];

// The position of the byte that says how large frames are at most, and of the one that says how many samples there are.
const MAX_FRAME_SIZE: usize = 17;

const SAMPLES: usize = 25;

fn stream(max_frame_size: u8, samples: u8) -> [u8; 158] {
    let mut bytes = [0; 158];
    bytes[..70].copy_from_slice(&HEAD);
    bytes[70..].copy_from_slice(&FRAMES);
    bytes[MAX_FRAME_SIZE] = max_frame_size;
    bytes[SAMPLES] = samples;
    bytes
}

// A source that gives at most `most` bytes a read, and in which the call of this number fails, if there is one. A read that fails
// may have taken bytes.
#[derive(Drop)]
struct Source<'a> {
    bytes: Cursor<&'a [u8]>,
    most: usize,
    calls: u32,
    failing: u32,
    takes: bool,
}

impl<'a> Source<'a> {
    fn new(bytes: &'a [u8], most: usize, failing: u32) -> Source<'a> {
        Source {
            bytes: Cursor::new(bytes),
            most,
            calls: 0,
            failing,
            takes: false,
        }
    }

    fn taking(bytes: &'a [u8], most: usize, failing: u32) -> Source<'a> {
        Source {
            bytes: Cursor::new(bytes),
            most,
            calls: 0,
            failing,
            takes: true,
        }
    }

    fn call(&mut self) -> io::Result<()> {
        self.calls = self.calls.saturating_add(1);
        if self.calls == self.failing {
            return Err(io::Error::new(ErrorKind::Other, "failed on purpose"));
        }
        Ok(())
    }
}

impl Read for Source<'_> {
    fn read(&mut self, buf: &mut [u8]) -> io::Result<usize> {
        let called = self.call();
        let mut count = 0;
        if called.is_ok() || self.takes {
            let most = self.most.min(buf.len());
            count = self.bytes.read(&mut buf[..most])?;
        }
        called?;
        Ok(count)
    }
}

impl Seek for Source<'_> {
    fn seek(&mut self, to: SeekFrom) -> io::Result<u64> {
        self.call()?;
        self.bytes.seek(to)
    }
}

// The time and the first value of the next block, or 99 and 99 at the end.
fn next_block<R: Read + Seek>(alloc: Global, flac: &mut SeekableReader<R>) -> Result<(u64, i32)> {
    match flac.read_next_or_eof(Vec::new(alloc))? {
        Some(block) => Ok((block.time(), first_value(&block))),
        None => Ok((99, 99)),
    }
}

fn first_value(block: &Block) -> i32 {
    if block.channels() == 0 {
        return 99;
    }
    block.channel(0).first().copied().unwrap_or(99)
}

// The blocks of a stream, of which block n has the value n + 1: how many samples each has, and how many there are.
#[derive(Clone, Copy)]
struct Blocks {
    size: u64,
    count: u64,
}

const BLOCKS: Blocks = Blocks { size: 16, count: 8 };

// The time and the value of the block of this number, or 99 and 99 after the last one.
fn block_of(blocks: Blocks, number: u64) -> (u64, i32) {
    if number < blocks.count.min(9) {
        (number.saturating_mul(blocks.size), number as i32 + 1)
    } else {
        (99, 99)
    }
}

// Whether the next block is that of this number.
fn is_next<R: Read + Seek>(
    alloc: Global,
    flac: &mut SeekableReader<R>,
    blocks: Blocks,
    number: u64,
) -> bool {
    match next_block(alloc, flac) {
        Ok(block) => block == block_of(blocks, number),
        Err(_) => false,
    }
}

// Whether a seek finds the block at this time, or none.
fn finds<R: Read + Seek>(flac: &mut SeekableReader<R>, sample: u64, time: Option<u64>) -> bool {
    match flac.seek(sample) {
        Ok(Some(block)) => time == Some(block.time),
        Ok(None) => time.is_none(),
        Err(_) => false,
    }
}

// Whether a seek finds the block with the sample, and that block and the one after it are the next ones.
fn is_read_from<R: Read + Seek>(alloc: Global, flac: &mut SeekableReader<R>, sample: u64) -> bool {
    let number = sample / 16;
    finds(flac, sample, Some(number.saturating_mul(16)))
        && is_next(alloc, flac, BLOCKS, number)
        && is_next(alloc, flac, BLOCKS, number.saturating_add(1))
}

// The first and the last samples of blocks, and others.
const SAMPLES_OF_BLOCKS: [u64; 8] = [0, 127, 15, 16, 17, 100, 64, 63];

// Whether that is so for each of the samples, and a sample after the last one isn't found, which leaves the reader where it is.
fn is_read_from_each<R: Read + Seek>(alloc: Global, flac: &mut SeekableReader<R>) -> bool {
    let mut all = true;
    for sample in &SAMPLES_OF_BLOCKS {
        all = all && is_read_from(alloc, flac, *sample);
    }
    all && finds(flac, 128, None) && is_next(alloc, flac, BLOCKS, 5)
}

// What the streaminfo says of frame size and samples, and how many bytes a read gives.
const STREAMS: [(u8, u8, usize); 6] = [
    (11, 128, 999),
    (0, 128, 999),
    (11, 0, 7),
    (4, 128, 1),
    (200, 255, 30),
    (0, 0, 1),
];

fn is_sought(alloc: Global, row: &(u8, u8, usize)) -> bool {
    let (size, samples, most) = *row;
    let bytes = stream(size, samples);
    match SeekableReader::new(alloc, Source::new(&bytes, most, 0)) {
        Ok(flac) => {
            let mut flac = flac;
            is_read_from_each(alloc, &mut flac)
        }
        Err(_) => false,
    }
}

// Samples of each stream, with the block that has it and the next one.
#[test]
fn seeks(rt: HostRuntime) {
    for row in &STREAMS {
        assert!(rt; is_sought(rt.alloc(), row), "{row:?}");
    }
}

fn has_failed_on_purpose(error: &Error) -> bool {
    match error {
        Error::IoError(cause) => cause.kind() == ErrorKind::Other,
        _ => false,
    }
}

// Whether a seek finds the block at this time. If it fails on purpose, which is counted, the reader stays where it is, and the
// same call finds it.
fn finds_at_last<R: Read + Seek>(
    flac: &mut SeekableReader<R>,
    sample: u64,
    time: u64,
    failures: &mut u32,
) -> bool {
    let before = flac.position();
    match flac.seek(sample) {
        Ok(Some(block)) => block.time == time,
        Ok(None) => false,
        Err(error) => {
            *failures = failures.saturating_add(1);
            has_failed_on_purpose(&error)
                && flac.position() == before
                && finds(flac, sample, Some(time))
        }
    }
}

// Whether the next block is that of this number, at the second call if the first one fails on purpose, which is counted.
fn is_next_at_last<R: Read + Seek>(
    alloc: Global,
    flac: &mut SeekableReader<R>,
    blocks: Blocks,
    number: u64,
    failures: &mut u32,
) -> bool {
    match next_block(alloc, flac) {
        Ok(block) => block == block_of(blocks, number),
        Err(error) => {
            *failures = failures.saturating_add(1);
            has_failed_on_purpose(&error) && is_next(alloc, flac, blocks, number)
        }
    }
}

// Whether two blocks are found and read like that.
fn is_read_at_last<R: Read + Seek>(
    alloc: Global,
    flac: &mut SeekableReader<R>,
    failures: &mut u32,
) -> bool {
    finds_at_last(flac, 100, 96, failures)
        && is_next_at_last(alloc, flac, BLOCKS, 6, failures)
        && finds_at_last(flac, 20, 16, failures)
        && is_next_at_last(alloc, flac, BLOCKS, 1, failures)
}

// The same over a source in which the call of this number fails. Opening the stream may fail too.
fn goes_on(alloc: Global, bytes: &[u8], failing: u32, failures: &mut u32) -> bool {
    match SeekableReader::new(alloc, Source::new(bytes, 20, failing)) {
        Ok(flac) => {
            let mut flac = flac;
            is_read_at_last(alloc, &mut flac, failures)
        }
        Err(error) => {
            *failures = failures.saturating_add(1);
            has_failed_on_purpose(&error)
        }
    }
}

// A source in which each call fails in turn: the error is returned, the reader stays where it is, and the same call is right
// afterwards.
#[test]
fn failed_reads_and_seeks(rt: HostRuntime) {
    let bytes = stream(11, 128);
    let mut failures = 0;
    for failing in 1..40 {
        assert!(rt;
            goes_on(rt.alloc(), &bytes, failing, &mut failures),
            "{failing}"
        );
    }
    assert!(rt; failures > 10, "failures {failures}");
}

fn has_head<R: Read + Seek>(flac: &SeekableReader<R>) -> bool {
    flac.streaminfo().sample_rate == 44_100
        && flac.vendor() == Some("abc")
        && flac.tags().count() == 1
        && flac.get_tag("title").next() == Some("one")
        && flac.position() == 70
}

// Whether frame 4 isn't found, which leaves the reader at the first one, and frame 5 is.
fn loses_frame_4<R: Read + Seek>(flac: &mut SeekableReader<R>) -> bool {
    finds(flac, 70, None)
        && flac.position() == 70
        && finds(flac, 80, Some(80))
        && flac.position() == 125
}

// Whether a reader of these bytes is like that, and gives them back.
fn is_shown(alloc: Global, bytes: &[u8]) -> bool {
    match SeekableReader::new(alloc, Cursor::new(bytes)) {
        Ok(flac) => {
            let mut flac = flac;
            has_head(&flac) && loses_frame_4(&mut flac) && flac.into_inner().get_ref().len() == 158
        }
        Err(_) => false,
    }
}

// The head, and a frame whose footer is wrong.
#[test]
fn shows_its_head(rt: HostRuntime) {
    let mut bytes = stream(11, 128);
    bytes[124] = 0;
    assert!(rt; is_shown(rt.alloc(), &bytes));
}

// A streaminfo of eight channels of 8 bits, and a frame of the largest block, whose last byte should be 0x40.
#[rattlefmt::skip]
const HEAD_OF_8_CHANNELS: [u8; 42] = [
    0x66, 0x4c, 0x61, 0x43, 0x80, 0x00, 0x00, 0x22, 0xff, 0xff, 0xff, 0xff, 0x00, 0x00, 0x00, 0x00, 0x00, 0x00,
    0x0a, 0xc4, 0x4e, 0x70, 0x00, 0x00, 0x00, 0x00, 0x00, 0x00, 0x00, 0x00, 0x00, 0x00, 0x00, 0x00, 0x00, 0x00,
    0x00, 0x00, 0x00, 0x00, 0x00, 0x00,
];

#[rattlefmt::skip]
const WRONG_FOOTER: [u8; 26] = [
    0xff, 0xf8, 0x79, 0x72, 0x00, 0xff, 0xfe, 0xec, 0x00, 0x07, 0x00, 0x07, 0x00, 0x07, 0x00, 0x07, 0x00, 0x07,
    0x00, 0x07, 0x00, 0x07, 0x00, 0x07, 0x04, 0x41,
];

fn wrong_frames(alloc: Global, count: u32) -> std::result::Result<Vec<u8>, AllocError> {
    let mut bytes = Vec::from_slice(alloc, &HEAD_OF_8_CHANNELS)?;
    for _ in 0..count {
        bytes.extend_from_slice(&WRONG_FOOTER)?;
    }
    Ok(bytes)
}

// Whether a seek gives up, and not only finds nothing. None is another answer.
fn gives_up<R: Read + Seek>(flac: &mut SeekableReader<R>) -> Option<bool> {
    match flac.seek(5) {
        Ok(None) => Some(false),
        Err(Error::IoError(cause)) if cause.kind() == ErrorKind::InvalidData => Some(true),
        _ => None,
    }
}

// The same in a stream of so many frames, where the reader stays at the first one.
fn gives_up_after(alloc: Global, count: u32) -> Result<Option<bool>> {
    let bytes = wrong_frames(alloc, count)?;
    let mut flac = SeekableReader::new(alloc, Cursor::new(bytes.as_slice()))?;
    let given_up = gives_up(&mut flac);
    Ok(if flac.position() == 42 {
        given_up
    } else {
        None
    })
}

// Headers of blocks with the sample that lead to no frame. Each costs its 524,280 samples and 26 bytes, of which its 26 bytes make
// good 832: 128 are tried within 2^26, and the next one is passed over.
#[test]
fn headers_without_frames(rt: HostRuntime) -> std::result::Result<(), Fail> {
    for (count, is_given_up) in [(128, false), (129, true)] {
        assert!(rt;
            gives_up_after(rt.alloc(), count)? == Some(is_given_up),
            "{count}"
        );
    }
    Ok(())
}
