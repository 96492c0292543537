//! Command lines of `claxon trace`.
use claxon_inspect::trace::command;
use claxon_testing::answers::{FRAME, head, joined};
use claxon_testing::command_lines::owned;
use claxon_testing::doubles::sinks::Sink;
use std::alloc::Global;
use std::io::ErrorKind;
use std::test::Fail;

// The bytes in standard input.
#[derive(Clone, Copy, Debug)]
enum Given {
    Whole,
    // Ten zeros are after the head, of which two at a time are no frame header, and then a frame.
    Garbage,
    // Five zeros are after the frame.
    GarbageAfter,
    CutHead,
    CutFrame,
}

fn bytes_of(alloc: Global, given: Given) -> Result<Vec<u8>, Fail> {
    let head = head(0x80);
    Ok(match given {
        Given::Whole => joined(alloc, &[&head, &FRAME])?,
        Given::Garbage => joined(alloc, &[&head, &[0; 10], &FRAME])?,
        Given::GarbageAfter => joined(alloc, &[&head, &FRAME, &[0; 5]])?,
        Given::CutHead => joined(alloc, &[&head[..20]])?,
        Given::CutFrame => joined(alloc, &[&head, &FRAME[..9]])?,
    })
}

// A command line, and what it comes to. The line of the head and that of the frame are `head` and `block` here.
struct Row {
    words: &'static [&'static str],
    given: Given,
    status: u8,
    lines: &'static str,
    errors: &'static str,
}

const HEAD: &str =
    "head blocks 16-16 frames none-none rate 44100 channels 1 width 8 samples 1 md5 00000000000000000000000000000000\n";

// The FNV-1a hash of the bytes 5, 0, 0, 0, computed by a script.
const BLOCK: &str = "block time 0 channels 1 duration 1 fnv 2d401a55eec16520\n";

const USAGE: &str = "usage: claxon trace [--brief] [--faults N] FILE\n";

#[rattlefmt::skip]
const ROWS: [Row; 12] = [
    Row { words: &["-"], given: Given::Whole, status: 0, lines: "head\nblock\nend\n", errors: "" },
    Row { words: &["--brief", "-"], given: Given::Whole, status: 0, lines: "head\nblock\nend\n", errors: "" },
    Row { words: &["-", "--brief"], given: Given::Garbage, status: 1,
        lines: "head\nfault Ill-formed FLAC stream: frame sync code missing, 5 times\nblock\nend\n", errors: "" },
    Row { words: &["--faults", "2", "-"], given: Given::Garbage, status: 1,
        lines: "head\nfault Ill-formed FLAC stream: frame sync code missing\nfault Ill-formed FLAC stream: frame sync code missing\n",
        errors: "standard input: stopped after 2 faults\n" },
    Row { words: &["--faults", "2", "-"], given: Given::GarbageAfter, status: 1,
        lines: "head\nblock\nfault Ill-formed FLAC stream: frame sync code missing\nfault Ill-formed FLAC stream: frame sync code missing\n",
        errors: "standard input: stopped after 2 faults\n" },
    Row { words: &["--faults", "3", "--brief", "--", "-"], given: Given::Garbage, status: 1,
        lines: "head\nfault Ill-formed FLAC stream: frame sync code missing, 3 times\n", errors: "standard input: stopped after 3 faults\n" },
    Row { words: &["-"], given: Given::CutHead, status: 1, lines: "fault IO\n",
        errors: "standard input: truncated: the file ends inside the metadata\n" },
    Row { words: &["--brief", "-"], given: Given::CutFrame, status: 1, lines: "head\nfault IO\n",
        errors: "standard input: truncated: the file ends inside a frame\n" },
    Row { words: &["/nowhere/a.flac"], given: Given::Whole, status: 1, lines: "", errors: "/nowhere/a.flac: No such file or directory\n" },
    Row { words: &["--faults", "-"], given: Given::Whole, status: 2, lines: "", errors: USAGE },
    Row { words: &["--faults"], given: Given::Whole, status: 2, lines: "", errors: USAGE },
    Row { words: &["-", "-"], given: Given::Whole, status: 2, lines: "", errors: USAGE },
];

// The lines in full.
fn full_lines(alloc: Global, lines: &str) -> Result<String, Fail> {
    let mut text = String::new(alloc);
    for line in lines.lines() {
        match line {
            "head" => text.push_str(HEAD)?,
            "block" => text.push_str(BLOCK)?,
            other => {
                text.push_str(other)?;
                text.push('\n')?;
            }
        }
    }
    Ok(text)
}

fn is_row(rt: &HostRuntime, row: &Row) -> Result<bool, Fail> {
    let words = owned(rt.alloc(), row.words)?;
    let input = bytes_of(rt.alloc(), row.given)?;
    let lines = full_lines(rt.alloc(), row.lines)?;
    let (mut output, mut errors): (Vec<u8>, Vec<u8>) = (Vec::new(rt.alloc()), Vec::new(rt.alloc()));
    let status = command(rt, &words, input.as_slice(), &mut output, &mut errors);
    let is_said = errors.as_slice() == row.errors.as_bytes();
    Ok(status == row.status && is_said && output.as_slice() == lines.as_bytes())
}

#[test]
fn command_lines(rt: HostRuntime) -> Result<(), Fail> {
    for row in &ROWS {
        assert!(rt; is_row(&rt, row)?, "{:?} {:?}", row.words, row.given);
    }
    Ok(())
}

// Whether a command line only says that the output failed.
fn is_lost(rt: &HostRuntime, words: &[&str], writes: u32, fails: bool) -> Result<bool, Fail> {
    let words = owned(rt.alloc(), words)?;
    let input = bytes_of(rt.alloc(), Given::Garbage)?;
    let mut output = Sink::new(8, writes, fails, ErrorKind::BrokenPipe);
    let mut errors = Vec::new(rt.alloc());
    let status = command(rt, &words, input.as_slice(), &mut output, &mut errors);
    Ok(status == 1 && errors.as_slice() == b"standard output: broken pipe\n".as_slice())
}

// A write fails, or the flush.
#[test]
fn lost_output(rt: HostRuntime) -> Result<(), Fail> {
    for writes in [0, 1, 3] {
        assert!(rt; is_lost(&rt, &["-"], writes, false)?, "{writes}");
        assert!(rt; is_lost(&rt, &["--brief", "-"], writes, false)?, "{writes}");
        assert!(rt; is_lost(&rt, &["--help"], writes, false)?, "{writes}");
    }
    assert!(rt; is_lost(&rt, &["-"], 999, true)? && is_lost(&rt, &["--version"], 999, true)?);
    Ok(())
}
