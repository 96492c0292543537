//! Frames, samples and whole runs over readers that give few bytes, fail or pause.
use crate::reports::report_of;
use claxon::frame::FrameReader;
use claxon::input::BufferedReader;
use claxon_commands::verify::command;
use claxon_report::Damage;
use claxon_testing::answers::{
    FIVES, FRAME, Fault, Run, Step, answers_each, end_of, fault_of, frames_in_order, joined,
    run_of, two_frames,
};
use claxon_testing::command_lines::owned;
use claxon_write::run;
use std::alloc::Global;
use std::io::{self, ErrorKind, Read};
use std::test::Fail;

// Gives a fixed number of bytes per read. After some reads one gives none: it fails, or is empty.
#[derive(Drop)]
struct Interrupts<'a> {
    bytes: &'a [u8],
    piece: usize,
    reads_left: u32,
    trouble: Option<Trouble>,
}

#[derive(Clone, Copy)]
enum Trouble {
    Failure(ErrorKind),
    Empty,
}

impl Read for Interrupts<'_> {
    fn read(&mut self, buf: &mut [u8]) -> io::Result<usize> {
        if self.reads_left == 0 {
            match self.trouble.take() {
                Some(Trouble::Failure(kind)) => return Err(io::Error::from(kind)),
                Some(Trouble::Empty) => return Ok(0),
                None => {}
            }
        }
        self.reads_left = self.reads_left.saturating_sub(1);
        let count = self.piece.min(self.bytes.len()).min(buf.len());
        let (prefix, rest) = self.bytes.split_at(count);
        buf[..count].copy_from_slice(prefix);
        self.bytes = rest;
        Ok(count)
    }
}

const FAILURES: [ErrorKind; 3] = [
    ErrorKind::Other,
    ErrorKind::Interrupted,
    ErrorKind::WouldBlock,
];

// Two frames, one byte per read. For each number of reads before one that fails: the frames before the failure, the calls after
// it that find no sync code, as the frame that it cut is lost, and the frames that are found then.
const FRAMES: [(usize, usize, usize); 23] = [
    (0, 0, 2),
    (0, 5, 1),
    (0, 10, 0),
    (0, 4, 1),
    (0, 9, 0),
    (0, 3, 1),
    (0, 8, 0),
    (0, 2, 1),
    (0, 7, 0),
    (0, 1, 1),
    (0, 6, 0),
    (1, 0, 1),
    (1, 5, 0),
    (1, 4, 0),
    (1, 4, 0),
    (1, 3, 0),
    (1, 3, 0),
    (1, 2, 0),
    (1, 2, 0),
    (1, 1, 0),
    (1, 1, 0),
    (1, 0, 0),
    (2, 0, 0),
];

// The result of a call, the first of which has number 0.
fn nth_step((before, lost, after): (usize, usize, usize), call: usize) -> Step {
    let after_failure = call.saturating_sub(before);
    if call < before {
        Ok(Some(5))
    } else if after_failure == 0 {
        Err(Fault::Io)
    } else if after_failure <= lost {
        Err(Fault::Format("frame sync code missing"))
    } else if after_failure <= lost.saturating_add(after) {
        Ok(Some(5))
    } else {
        Ok(None)
    }
}

// Whether the calls for two frames have these results if the read after this number of reads fails.
fn goes_on(
    alloc: Global,
    reads: u32,
    kind: ErrorKind,
    counts: (usize, usize, usize),
) -> Result<bool, Fail> {
    let bytes = joined(alloc, &[&FRAME, &FRAME])?;
    let source = Interrupts {
        bytes: &bytes,
        piece: 1,
        reads_left: reads,
        trouble: Some(Trouble::Failure(kind)),
    };
    let mut reader = FrameReader::new(BufferedReader::new(alloc, source)?);
    let mut all = true;
    for call in 0..14 {
        all = all && answers_each(alloc, &mut reader, &[nth_step(counts, call)]);
    }
    Ok(all)
}

#[test]
fn frames_with_a_failed_read(rt: HostRuntime) -> Result<(), Fail> {
    for (reads, counts) in FRAMES.iter().enumerate() {
        for kind in FAILURES {
            let goes_on = goes_on(rt.alloc(), reads as u32, kind, *counts)?;
            assert!(rt; goes_on, "{reads}");
        }
    }
    Ok(())
}

// Whether opening a stream is an `IoError`, if `count` is None, else whether it gives `count` samples and one error.
fn is_cut(run: Result<Run, Fault>, count: Option<usize>) -> bool {
    match run {
        Ok(run) => Some(run.count) == count && run.faults == 1 && run.fault == Some(Fault::Io),
        Err(fault) => count.is_none() && fault == Fault::Io,
    }
}

// Whether a stream of two frames, one byte per read, is cut like that if the read after this number of reads fails.
fn is_cut_after(alloc: Global, reads: u32, kind: ErrorKind, count: Option<usize>) -> bool {
    let bytes = two_frames(0x58);
    let source = Interrupts {
        bytes: &bytes,
        piece: 1,
        reads_left: reads,
        trouble: Some(Trouble::Failure(kind)),
    };
    is_cut(run_of(alloc, source), count)
}

// The number of samples before the failed read is one after the first frame, else none.
#[test]
fn samples_with_a_failed_read(rt: HostRuntime) {
    for reads in 0..65 {
        let count = match reads {
            0..42 => None,
            42..53 => Some(0),
            53..64 => Some(1),
            _ => Some(2),
        };
        for kind in FAILURES {
            assert!(rt; is_cut_after(rt.alloc(), reads, kind, count), "{reads}");
        }
    }
}

// The number of frames that are verified, and the byte at which reading failed, if the read after this number of reads fails. The
// stream has two frames in order, and each read gives one byte.
fn verified_after(
    alloc: Global,
    reads: u32,
    kind: ErrorKind,
) -> claxon::Result<(u64, Option<u64>)> {
    let mut bytes = frames_in_order();
    bytes[25] = 2;
    let source = Interrupts {
        bytes: &bytes,
        piece: 1,
        reads_left: reads,
        trouble: Some(Trouble::Failure(kind)),
    };
    let mut input = BufferedReader::new(alloc, source)?;
    let report = report_of(alloc, &mut input, true)?;
    let failed_at = match &report.found.places.first {
        Some(first) if !report.is_right => match &first.damage {
            Damage::Fault(fault) if fault_of(&fault.error) == Fault::Io => Some(first.start_byte),
            _ => None,
        },
        _ => None,
    };
    Ok((report.found.frames, failed_at))
}

// A failed read is the only place, in the frame in which it is.
#[test]
fn verified_with_a_failed_read(rt: HostRuntime) {
    for reads in 0..65 {
        let want = match reads {
            0..42 => Err(Fault::Io),
            42..53 => Ok((0, Some(42))),
            53..64 => Ok((1, Some(53))),
            _ => Ok((2, Some(64))),
        };
        for kind in FAILURES {
            let found = match verified_after(rt.alloc(), reads, kind) {
                Ok(found) => Ok(found),
                Err(error) => Err(fault_of(&error)),
            };
            assert!(rt; found == want, "{reads}");
        }
    }
}

// Gives these bytes, and then fails.
#[derive(Clone, Copy)]
struct Fails<'a> {
    bytes: &'a [u8],
    kind: ErrorKind,
}

impl Read for Fails<'_> {
    fn read(&mut self, buf: &mut [u8]) -> io::Result<usize> {
        if self.bytes.is_empty() {
            return Err(io::Error::from(self.kind));
        }
        let count = self.bytes.len().min(buf.len());
        let (front, rest) = self.bytes.split_at(count);
        buf[..count].copy_from_slice(front);
        self.bytes = rest;
        Ok(count)
    }
}

// Whether `claxon verify` with these arguments ends with status 1 and writes just this, where a read of standard input fails after
// the bytes.
fn says(
    rt: &HostRuntime,
    words: &[&str],
    input: Fails<'_>,
    output: &str,
    errors: &str,
) -> Result<bool, Fail> {
    let words = owned(rt.alloc(), words)?;
    let (mut out, mut err): (Vec<u8>, Vec<u8>) = (Vec::new(rt.alloc()), Vec::new(rt.alloc()));
    let status = command(rt, &words, input, &mut out, false, &mut err);
    Ok(status == 1 && out.as_slice() == output.as_bytes() && err.as_slice() == errors.as_bytes())
}

// A file isn't read where reading fails in its head, in a frame, between two, or after the last one.
#[test]
fn files_that_are_not_read(rt: HostRuntime) -> Result<(), Fail> {
    let (mut bytes, kind) = (frames_in_order(), ErrorKind::TimedOut);
    bytes[25] = 2;
    let failure = io::Error::from(kind);
    let line = format!(in rt.alloc(); "standard input: {failure}\n")?;
    let object = format!(in rt.alloc();
        "{{\"name\":\"-\",\"verdict\":\"not read\",\"reason\":\"{failure}\"}}\n"
    )?;
    for len in [0, 41, 42, 43, 53, 60, 64] {
        let input = Fails {
            bytes: front(&bytes, len),
            kind,
        };
        assert!(rt; says(&rt, &["-"], input, "", line.as_str())?, "{len}");
        assert!(rt;
            says(&rt, &["--json", "-"], input, object.as_str(), "")?,
            "{len}"
        );
    }
    Ok(())
}

fn front(bytes: &[u8], len: usize) -> &[u8] {
    &bytes[..len.min(bytes.len())]
}

// It is wrong where a frame before is damaged, or the failure is called an end.
#[test]
fn files_that_are_wrong(rt: HostRuntime) -> Result<(), Fail> {
    let (mut bytes, kind) = (frames_in_order(), ErrorKind::TimedOut);
    let cut = Fails {
        bytes: front(&bytes, 52),
        kind: ErrorKind::UnexpectedEof,
    };
    let text =
        "standard input: wrong, 0 frames, 0 samples, but the streaminfo says 1, 1 place\nstandard input:   bytes 42 to 52, samples 0 to 1: truncated: the file ends inside a frame\n";
    assert!(rt; says(&rt, &["-"], cut, text, "")?);
    bytes[52] ^= 1;
    let text =
        "standard input: wrong, 0 frames, 0 samples, but the streaminfo says 1, a read failed, 1 place\nstandard input:   bytes 42 to 53, samples 0 to 1: Ill-formed FLAC stream: frame CRC mismatch\n";
    let damaged = Fails {
        bytes: front(&bytes, 53),
        kind,
    };
    assert!(rt; says(&rt, &["-"], damaged, text, "")?);
    Ok(())
}

// Whether a run of the smallest head and two frames, one byte per read, has this result and writes this number of bytes of
// their samples, if a read after this number of reads gives none.
fn ends_with(
    alloc: Global,
    reads: u32,
    trouble: Trouble,
    want: Result<u64, Fault>,
    written: usize,
) -> bool {
    let bytes = two_frames(0x58);
    let source = Interrupts {
        bytes: &bytes,
        piece: 1,
        reads_left: reads,
        trouble: Some(trouble),
    };
    let mut output = Vec::new(alloc);
    let end = end_of(run(alloc, source, &mut output));
    end == want && output.as_slice() == &FIVES[..written.min(8)]
}

// The samples before the failure were written.
#[test]
fn runs_with_a_failed_read(rt: HostRuntime) {
    for reads in 0..65 {
        let written = match reads {
            0..53 => 0,
            53..64 => 4,
            _ => 8,
        };
        for kind in FAILURES {
            let trouble = Trouble::Failure(kind);
            assert!(rt;
                ends_with(rt.alloc(), reads, trouble, Err(Fault::Io), written),
                "{reads}"
            );
        }
    }
}

// An empty read is the end of the input: within a head or a frame it is an error, and between frames it is not.
#[test]
fn runs_with_an_empty_read(rt: HostRuntime) {
    for reads in 0..65 {
        let (want, written) = match reads {
            0..42 => (Err(Fault::Io), 0),
            42..44 => (Ok(0), 0),
            44..53 => (Err(Fault::Io), 0),
            53..55 => (Ok(1), 4),
            55..64 => (Err(Fault::Io), 4),
            _ => (Ok(2), 8),
        };
        assert!(rt;
            ends_with(rt.alloc(), reads, Trouble::Empty, want, written),
            "{reads}"
        );
    }
}

// Whether there were two samples, the second one after an end.
fn goes_on_after_eof(run: Result<Run, Fault>) -> bool {
    match run {
        Ok(run) => run.count == 2 && run.after_eof == 1 && run.last == 5 && run.faults == 0,
        Err(_) => false,
    }
}

// After an empty read between two frames the reader is called again.
#[test]
fn samples_after_an_empty_read(rt: HostRuntime) {
    let bytes = two_frames(0x58);
    let source = Interrupts {
        bytes: &bytes,
        piece: 53,
        reads_left: 1,
        trouble: Some(Trouble::Empty),
    };
    assert!(rt; goes_on_after_eof(run_of(rt.alloc(), source)));
}
