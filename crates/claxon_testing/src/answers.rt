//! Results of calls in a form that can be compared, and bytes that many tests use.
use claxon::frame::{FrameReader, FrameResult};
use claxon::input::ReadBytes;
use claxon::{Error, FlacReader, FlacSamples};
use std::alloc::{AllocError, AllocFailed, Allocator, Global};
use std::io::Read;

/// An error, without the cause of an `IoError`.
#[derive(PartialEq, Clone, Copy)]
pub enum Fault {
    Io,
    Format(&'static str),
    Unsupported(&'static str),
    Memory,
}

pub fn fault_of(error: &Error) -> Fault {
    match error {
        Error::IoError(_) => Fault::Io,
        Error::FormatError(text) => Fault::Format(*text),
        Error::Unsupported(text) => Fault::Unsupported(*text),
        Error::OutOfMemory => Fault::Memory,
    }
}

/// The result of a call that counts, without the cause of an `IoError`.
pub fn end_of(outcome: claxon::Result<u64>) -> Result<u64, Fault> {
    match outcome {
        Ok(count) => Ok(count),
        Err(error) => Err(fault_of(&error)),
    }
}

/// The result of one call for a block or a sample: the first sample of a block, and None at the end.
pub type Step = Result<Option<i32>, Fault>;

pub fn step_of<A: Allocator>(answer: FrameResult<A>) -> Step {
    match answer {
        Ok(Some(block)) => Ok(block.into_buffer().first().copied()),
        Ok(None) => Ok(None),
        Err(error) => Err(fault_of(&error)),
    }
}

/// Whether calls for a block, each into an empty buffer, have these results.
pub fn answers_each<R: ReadBytes, A: Allocator + Copy>(
    alloc: A,
    reader: &mut FrameReader<R>,
    wants: &[Step],
) -> bool {
    let mut all = true;
    for want in wants {
        all = all && step_of(reader.read_next_or_eof(Vec::new(alloc))) == *want;
    }
    all
}

/// The samples of a stream: the last one, their number, and how many came after an end; the number of errors, and the last
/// one.
#[derive(Clone, Copy)]
pub struct Run {
    pub last: i32,
    pub count: usize,
    pub after_eof: usize,
    pub faults: usize,
    pub fault: Option<Fault>,
}

/// The result of the next call for a sample. One function has the call, since each that has it takes long to prove.
pub fn next_of<R: ReadBytes + Drop, A: Allocator + Copy>(samples: &mut FlacSamples<R, A>) -> Step {
    match samples.next() {
        Some(Ok(sample)) => Ok(Some(sample)),
        Some(Err(error)) => Err(fault_of(&error)),
        None => Ok(None),
    }
}

/// Whether calls for samples of an open stream, by a new iterator, have these results.
pub fn gives_each<R: Read + Drop, A: Allocator + Copy>(
    flac: &mut FlacReader<R, A>,
    wants: &[Step],
) -> bool {
    if flac.is_metadata_only() {
        return false;
    }
    let mut samples = flac.samples();
    let mut all = true;
    for want in wants {
        all = all && next_of(&mut samples) == *want;
    }
    all
}

/// The results of the next hundred calls for samples of an open stream.
pub fn rest_of<R: Read + Drop, A: Allocator + Copy>(flac: &mut FlacReader<R, A>) -> Run {
    let mut run = Run {
        last: 0,
        count: 0,
        after_eof: 0,
        faults: 0,
        fault: None,
    };
    if flac.is_metadata_only() {
        return run;
    }
    let mut has_ended = false;
    let mut samples = flac.samples();
    for _ in 0..100 {
        match next_of(&mut samples) {
            Ok(Some(sample)) => {
                run.last = sample;
                run.count = run.count.saturating_add(1);
                run.after_eof = run.after_eof.saturating_add(usize::from(has_ended));
            }
            Ok(None) => has_ended = true,
            Err(fault) => {
                run.faults = run.faults.saturating_add(1);
                run.fault = Some(fault);
            }
        }
    }
    run
}

/// The samples of a stream, or the error of opening it.
pub fn run_of<R: Read + Drop, A: Allocator + Copy>(alloc: A, reader: R) -> Result<Run, Fault> {
    match FlacReader::new(alloc, reader) {
        Ok(flac) => {
            let mut flac = flac;
            Ok(rest_of(&mut flac))
        }
        Err(error) => Err(fault_of(&error)),
    }
}

/// The marker and a streaminfo of blocks of 16 samples, 44,100 Hz, one channel of 8 bits, and one sample. The first byte
/// of its block is 0x80 if it is the last block.
pub fn head(first: u8) -> [u8; 42] {
    let mut bytes = [0; 42];
    bytes[..26].copy_from_slice(&[
        0x66, 0x4c, 0x61, 0x43, first, 0x00, 0x00, 0x22, 0x00, 0x10, 0x00, 0x10, 0x00, 0x00, 0x00,
        0x00, 0x00, 0x00, 0x0a, 0xc4, 0x40, 0x70, 0x00, 0x00, 0x00, 0x01,
    ]);
    bytes
}

/// A frame of number 0 with one sample, 5.
pub const FRAME: [u8; 11] = [
    0xff, 0xf8, 0x69, 0x02, 0x00, 0x00, 0x9a, 0x00, 0x05, 0x34, 0x58,
];

/// The frame after it: number 1, and the same sample.
pub const SECOND: [u8; 11] = [
    0xff, 0xf8, 0x69, 0x02, 0x01, 0x00, 0x8f, 0x00, 0x05, 0x35, 0x24,
];

/// A frame of number 0 with one sample, 0x12345678, that leaves the bit depth to the streaminfo.
pub const DEEP_FRAME: [u8; 14] = [
    0xff, 0xf8, 0x69, 0x00, 0x00, 0x00, 0x4c, 0x00, 0x12, 0x34, 0x56, 0x78, 0x95, 0x0e,
];

/// A frame of two independent channels with two samples each: 3 and -2, interleaved.
pub const PAIRS: [u8; 13] = [
    0xff, 0xf8, 0x69, 0x12, 0x00, 0x01, 0x3f, 0x00, 0x03, 0x00, 0xfe, 0x71, 0x51,
];

/// The smallest head and two frames of one sample, 5. The last byte is the last one of the second frame's CRC.
pub fn two_frames(last: u8) -> [u8; 64] {
    let mut bytes = [0; 64];
    bytes[..26].copy_from_slice(&[
        0x66, 0x4c, 0x61, 0x43, 0x80, 0x00, 0x00, 0x22, 0x00, 0x10, 0x00, 0x10, 0x00, 0x00, 0x00,
        0x00, 0x00, 0x00, 0x0a, 0xc4, 0x40, 0x70, 0x00, 0x00, 0x00, 0x01,
    ]);
    let frame = [
        0xff, 0xf8, 0x69, 0x02, 0x00, 0x00, 0x9a, 0x00, 0x05, 0x34, 0x58,
    ];
    bytes[42..53].copy_from_slice(&frame);
    bytes[53..64].copy_from_slice(&frame);
    bytes[63] = last;
    bytes
}

/// The smallest head and two frames of one sample, 5, whose numbers are 0 and 1.
pub fn frames_in_order() -> [u8; 64] {
    let mut bytes = two_frames(0x24);
    bytes[53..64].copy_from_slice(&SECOND);
    bytes
}

/// The samples of the two frames as bytes.
pub const FIVES: [u8; 8] = [5, 0, 0, 0, 5, 0, 0, 0];

/// The content of a comment block: no vendor, an empty entry and `X=Y`.
pub const COMMENT: [u8; 19] = [
    0x00, 0x00, 0x00, 0x00, 0x02, 0x00, 0x00, 0x00, 0x00, 0x00, 0x00, 0x00, 0x03, 0x00, 0x00, 0x00,
    0x58, 0x3d, 0x59,
];

/// The parts, one after another.
pub fn joined(alloc: Global, parts: &[&[u8]]) -> Result<Vec<u8>, AllocError> {
    let mut bytes = Vec::new(alloc);
    for part in parts {
        bytes.extend_from_slice(*part)?;
    }
    Ok(bytes)
}
