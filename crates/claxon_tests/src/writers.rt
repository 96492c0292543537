//! Runs into writers of all kinds.
use claxon::Error;
use claxon_testing::answers::{FIVES, FRAME, Fault, end_of, head, joined, two_frames};
use claxon_testing::doubles::sinks::{FailsAtOneWrite, Sink};
use claxon_write::{CountingWriter, run};
use std::alloc::Global;
use std::io::{Cursor, ErrorKind};
use std::test::Fail;

const BAD_FOOTER: Result<u64, Fault> = Err(Fault::Format("frame CRC mismatch"));

#[test]
fn into_a_vector(rt: HostRuntime) {
    let mut output = Vec::new(rt.alloc());
    let end = end_of(run(rt.alloc(), Cursor::new(two_frames(0x58)), &mut output));
    assert!(rt; end == Ok(2) && output.as_slice() == FIVES.as_slice());
}

// The last byte of a stream, the most bytes per write, the number of writes before one fails, and whether flushes fail; the result
// of a run, the number of bytes written, and the number of flushes.
type Row = (u8, usize, u32, bool, Result<u64, Fault>, usize, u32);

const FAILED: Result<u64, Fault> = Err(Fault::Io);

// Whether a run of the stream into such a sink comes to that, whose failures are of this kind.
fn gives(alloc: Global, bytes: &[u8], row: &Row, kind: ErrorKind) -> bool {
    let (_last, most, writes_left, fails, want, count, flushes) = *row;
    let mut sink = Sink::new(most, writes_left, fails, kind);
    let end = end_of(run(alloc, Cursor::new(bytes), &mut sink));
    end == want && sink.written() == &FIVES[..count.min(8)] && sink.flushes() == flushes
}

// The smallest stream, also with its last byte changed: writers that fail at the first write, at the flush, at both, and not at
// all.
const ONE_FRAME: [Row; 7] = [
    (0x58, 8, 0, false, FAILED, 0, 0),
    (0x58, 8, 0, true, FAILED, 0, 0),
    (0x58, 8, 9, true, FAILED, 4, 1),
    (0x58, 8, 9, false, Ok(1), 4, 1),
    (0x59, 8, 9, true, BAD_FOOTER, 0, 1),
    (0x59, 8, 0, true, BAD_FOOTER, 0, 1),
    (0x59, 8, 0, false, BAD_FOOTER, 0, 1),
];

#[test]
fn one_frame_into_sinks(rt: HostRuntime) -> Result<(), Fail> {
    for (number, row) in ONE_FRAME.iter().enumerate() {
        let bytes = joined(rt.alloc(), &[&head(0x80), &FRAME[..10], &[row.0]])?;
        for kind in [ErrorKind::Other, ErrorKind::Interrupted] {
            assert!(rt; gives(rt.alloc(), &bytes, row, kind), "{number}");
        }
    }
    Ok(())
}

// Two frames. A write of no bytes is a failed one too, and there is no flush after it. After a decoder's error a flush that fails
// is ignored.
const TWO_FRAMES: [Row; 8] = [
    (0x58, 8, 0, false, FAILED, 0, 0),
    (0x58, 0, 9, false, FAILED, 0, 0),
    (0x58, 4, 1, false, FAILED, 4, 0),
    (0x58, 1, 8, false, Ok(2), 8, 1),
    (0x58, 1, 9, false, Ok(2), 8, 1),
    (0x58, 8, 9, true, FAILED, 8, 1),
    (0x59, 8, 9, true, BAD_FOOTER, 4, 1),
    (0x59, 32, 9, false, BAD_FOOTER, 4, 1),
];

#[test]
fn runs_into_sinks(rt: HostRuntime) {
    for (number, row) in TWO_FRAMES.iter().enumerate() {
        for kind in [ErrorKind::Other, ErrorKind::Interrupted] {
            assert!(rt;
                gives(rt.alloc(), &two_frames(row.0), row, kind),
                "{number}"
            );
        }
    }
}

#[test]
fn each_write_failed(rt: HostRuntime) {
    for writes in 0..8u32 {
        let row = (0x58, 1, writes, false, FAILED, writes as usize, 0);
        assert!(rt;
            gives(rt.alloc(), &two_frames(0x58), &row, ErrorKind::Other),
            "{writes}"
        );
    }
}

// Whether the second of three writes fails like this, and each of them and the flush after them is one call of the writer.
fn asks_once(kind: ErrorKind) -> bool {
    let mut sink = FailsAtOneWrite::new(1, kind);
    let mut writer = CountingWriter::new(&mut sink);
    let is_first = matches!(writer.write_some(b"ab"), Ok(2));
    let is_failed = match writer.write_some(b"cd") {
        Err(Error::IoError(cause)) => cause.kind() == kind,
        _ => false,
    };
    let is_third = matches!(writer.write_some(b"ef"), Ok(2));
    let is_flushed = writer.flush().is_ok();
    let sink = writer.into_inner();
    is_first && is_failed && is_third && is_flushed && sink.writes == 3 && sink.flushes == 1
}

#[test]
fn one_write_failed(rt: HostRuntime) {
    for kind in [ErrorKind::Other, ErrorKind::Interrupted] {
        assert!(rt; asks_once(kind));
    }
}
