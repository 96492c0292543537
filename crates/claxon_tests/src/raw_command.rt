//! The command of `claxon_raw`: samples and tags of files, and its arguments.
use claxon_command_line::arguments::words;
use claxon_testing::answers::{FIVES, FRAME, PAIRS, head, joined, two_frames};
use claxon_testing::command_lines::{Outcome, is_outcome, owned};
use claxon_testing::doubles::sinks::Sink;
use claxon_testing::temporary_files::{file_of, path_of};
use claxon_write::command;
use linked_list_allocator::LocalHeap;
use std::alloc::Global;
use std::env::FillError;
use std::fs;
use std::io::ErrorKind;
use std::rt::Env;
use std::test::Fail;

fn outcome_of(rt: &HostRuntime, words: &[&str]) -> claxon::Result<Outcome> {
    let owned = owned(rt.alloc(), words)?;
    let (mut output, mut errors) = (Vec::new(rt.alloc()), Vec::new(rt.alloc()));
    let status = command(rt, &owned, &mut output, &mut errors);
    Ok(Outcome {
        status,
        output,
        errors,
    })
}

// The outcome for a file of these bytes: its samples or its tags.
fn outcome_of_file(
    rt: &HostRuntime,
    name: &str,
    bytes: &[u8],
    is_of_tags: bool,
) -> Result<Outcome, Fail> {
    let path = file_of(rt, name, bytes)?;
    let outcome = if is_of_tags {
        outcome_of(rt, &["--tags", path.as_str()])
    } else {
        outcome_of(rt, &[path.as_str()])
    };
    fs::remove_file(rt, path.as_str())?;
    Ok(outcome?)
}

// The frame of one sample twice.
const TWICE: [u8; 22] = [
    0xff, 0xf8, 0x69, 0x02, 0x00, 0x00, 0x9a, 0x00, 0x05, 0x34, 0x58, 0xff, 0xf8, 0x69, 0x02, 0x00,
    0x00, 0x9a, 0x00, 0x05, 0x34, 0x58,
];

// Frames after the smallest head, and what is written: three frames of three channels, one sample, two, and 3 and -2 twice.
#[rattlefmt::skip]
const SAMPLES: [(&[u8], &[u8]); 4] = [
    (
        &[
            0xff, 0xf8, 0x69, 0x28, 0x00, 0x02, 0x50, 0x02, 0x00, 0x01, 0xff, 0xfe, 0x01, 0x2c, 0x02, 0x80, 0x00, 0x7f, 0xff, 0x00,
            0x00, 0x02, 0x01, 0x00, 0xfe, 0xff, 0x00, 0x04, 0xee, 0x53, 0xff, 0xf8, 0x69, 0x28, 0x01, 0x00, 0x4b, 0x00, 0x00, 0x07,
            0x00, 0xff, 0xf8, 0x00, 0x00, 0x09, 0xb5, 0xa2, 0xff, 0xf8, 0x69, 0x28, 0x02, 0x01, 0x73, 0x02, 0x00, 0x0a, 0xff, 0xf5,
            0x00, 0x00, 0x0c, 0x02, 0xff, 0xff, 0x01, 0x02, 0x1e, 0xb8,
        ],
        &[
            0x01, 0x00, 0x00, 0x00, 0x00, 0x80, 0xff, 0xff, 0x00, 0x01, 0x00, 0x00, 0xfe, 0xff, 0xff, 0xff, 0xff, 0x7f, 0x00, 0x00, 0xff, 0xfe, 0xff, 0xff,
            0x2c, 0x01, 0x00, 0x00, 0x00, 0x00, 0x00, 0x00, 0x04, 0x00, 0x00, 0x00, 0x07, 0x00, 0x00, 0x00, 0xf8, 0xff, 0xff, 0xff, 0x09, 0x00, 0x00, 0x00,
            0x0a, 0x00, 0x00, 0x00, 0x0c, 0x00, 0x00, 0x00, 0xff, 0xff, 0xff, 0xff, 0xf5, 0xff, 0xff, 0xff, 0x0c, 0x00, 0x00, 0x00, 0x02, 0x01, 0x00, 0x00,
        ],
    ),
    (&FRAME, &[5, 0, 0, 0]),
    (&TWICE, &FIVES),
    (&PAIRS, &[3, 0, 0, 0, 0xfe, 0xff, 0xff, 0xff, 3, 0, 0, 0, 0xfe, 0xff, 0xff, 0xff]),
];

// Whether the file of these frames gives exactly these samples.
fn gives_samples(rt: &HostRuntime, frames: &[u8], samples: &[u8]) -> Result<bool, Fail> {
    let bytes = joined(rt.alloc(), &[&head(0x80), frames])?;
    let clean = outcome_of_file(rt, "raw_whole", &bytes, false)?;
    Ok(is_outcome(&clean, 0, samples, b""))
}

#[test]
fn files_of_samples(rt: HostRuntime) -> Result<(), Fail> {
    for (frames, samples) in SAMPLES {
        assert!(rt; gives_samples(&rt, frames, samples)?, "{}", samples.len());
    }
    Ok(())
}

#[test]
fn damaged_files(rt: HostRuntime) -> Result<(), Fail> {
    let damaged = outcome_of_file(&rt, "raw_damaged", &two_frames(0x59), false)?;
    let text = "Ill-formed FLAC stream: frame CRC mismatch\n";
    assert!(rt; is_outcome(&damaged, 1, &FIVES[..4], text.as_bytes()));
    Ok(())
}

// Whether a command line prints the text of an error and nothing else.
fn has_failed(rt: &HostRuntime, words: &[&str]) -> claxon::Result<bool> {
    let outcome = outcome_of(rt, words)?;
    Ok(outcome.status == 1 && outcome.output.is_empty() && !outcome.errors.is_empty())
}

#[test]
fn files_that_are_not_there(rt: HostRuntime) -> Result<(), Fail> {
    let path = path_of(&rt, "raw_none")?;
    assert!(rt; has_failed(&rt, &[path.as_str()])?);
    assert!(rt; has_failed(&rt, &["--tags", path.as_str()])?);
    Ok(())
}

// A comment block's length, its tags, and what is printed for them. One tag has an empty value.
#[rattlefmt::skip]
const TAGS: [(&[u8], &[u8]); 4] = [
    (
        &[0x13, 0, 0, 0, 0, 2, 0, 0, 0, 0, 0, 0, 0, 3, 0, 0, 0, 0x58, 0x3d, 0x59],
        b"X=Y\n",
    ),
    (&[0x08, 0, 0, 0, 0, 0, 0, 0, 0], b""),
    (&[0x0f, 0, 0, 0, 0, 1, 0, 0, 0, 3, 0, 0, 0, 0x58, 0x3d, 0x59], b"X=Y\n"),
    (
        &[0x15, 0, 0, 0, 0, 2, 0, 0, 0, 2, 0, 0, 0, 0x41, 0x3d, 3, 0, 0, 0, 0x42, 0x3d, 0x78],
        b"A=\nB=x\n",
    ),
];

// The head and a comment block that ends like this.
fn tagged(alloc: Global, block: &[u8]) -> Result<Vec<u8>, Fail> {
    Ok(joined(alloc, &[&head(0x00), &[0x84, 0x00, 0x00], block])?)
}

#[test]
fn tags_of_files(rt: HostRuntime) -> Result<(), Fail> {
    for (block, lines) in TAGS {
        let bytes = tagged(rt.alloc(), block)?;
        let tags = outcome_of_file(&rt, "raw_tags", &bytes, true)?;
        assert!(rt; is_outcome(&tags, 0, lines, b""));
    }
    Ok(())
}

#[test]
fn other_arguments(rt: HostRuntime) -> Result<(), Fail> {
    let rows: [&[&str]; 4] = [&[], &["--tags"], &["a", "b"], &["--tags", "a", "b"]];
    for words in rows {
        let usage = outcome_of(&rt, words)?;
        assert!(rt; is_outcome(&usage, 2, b"", b"usage: claxon_raw [--tags] FILE\n"));
    }
    Ok(())
}

// A failed write of the usage line is ignored.
#[test]
fn a_usage_line_that_is_lost(rt: HostRuntime) {
    let words = Vec::new(rt.alloc());
    let mut errors = Sink::new(1, 0, false, ErrorKind::Other);
    let mut output = Sink::new(1, 0, false, ErrorKind::Other);
    let status = command(&rt, &words, &mut output, &mut errors);
    assert_eq!(rt; status, 2);
}

// Command lines that begin with the program's name, and their arguments, or None if one isn't UTF-8.
#[rattlefmt::skip]
const COMMAND_LINES: [(&[&[u8]], Option<&[&[u8]]>); 5] = [
    (&[], Some(&[])),
    (&[b"claxon_raw"], Some(&[])),
    (&[b"claxon_raw", b"--tags", b"a.flac"], Some(&[b"--tags", b"a.flac"])),
    (&[b"claxon_raw", b"", b"\xc3\xa9.flac", &[b'a'; 300]], Some(&[b"", b"\xc3\xa9.flac", &[b'a'; 300]])),
    (&[b"claxon_raw", b"a.flac", b"\xff.flac"], None),
];

// One of the command lines.
#[derive(Drop)]
struct Given {
    line: usize,
}

impl Env for Given {
    fn arg(&self, i: usize, buf: &mut [u8]) -> Result<usize, FillError> {
        let Some((words, _)) = COMMAND_LINES.get(self.line) else {
            return Err(FillError::NotPresent);
        };
        let Some(word) = words.get(i) else {
            return Err(FillError::NotPresent);
        };
        if word.len() > buf.len() {
            return Err(FillError::TooLong);
        }
        buf[..word.len()].copy_from_slice(*word);
        Ok(word.len())
    }

    fn var(&self, _name: &str, _buf: &mut [u8]) -> Result<usize, FillError> {
        Err(FillError::NotPresent)
    }

    fn var_at(&self, _i: usize, _buf: &mut [u8]) -> Result<usize, FillError> {
        Err(FillError::NotPresent)
    }
}

fn arguments_given(alloc: Global, line: usize) -> Result<Option<Vec<String>>, Fail> {
    Ok(words(&(Given { line }, alloc))?)
}

fn are_same(words: &Option<Vec<String>>, want: Option<&[&[u8]]>) -> bool {
    let (Some(words), Some(want)) = (words, want) else {
        return words.is_none() && want.is_none();
    };
    let mut all = words.len() == want.len();
    for (word, want) in words.iter().zip(want) {
        all = all && word.as_bytes() == *want;
    }
    all
}

#[test]
fn arguments_of_command_lines(rt: HostRuntime) -> Result<(), Fail> {
    for (line, (_, want)) in COMMAND_LINES.iter().enumerate() {
        assert!(rt;
            are_same(&arguments_given(rt.alloc(), line)?, *want),
            "{line}"
        );
    }
    Ok(())
}

// The number of arguments of the third command line with this memory.
fn count_in<'a>(heap: &'a LocalHeap) -> Option<usize> {
    let given = (Given { line: 2 }, heap);
    match words(&given) {
        Ok(Some(words)) => Some(words.len()),
        _ => None,
    }
}

// The number of arguments with `size` bytes of memory, and how many of these are still used after the call.
fn arguments_in(alloc: Global, size: usize) -> Result<(Option<usize>, usize), Fail> {
    let heap = LocalHeap::new(alloc, size)?;
    let count = count_in(&heap);
    Ok((count, heap.used()))
}

// If memory is refused there are no arguments at all.
#[test]
fn arguments_in_refused_memory(rt: HostRuntime) -> Result<(), Fail> {
    let mut refused = 0u32;
    for size in 0..200 {
        let (count, used) = arguments_in(rt.alloc(), 8 * size)?;
        assert!(rt;
            used == 0 && (count.is_none() || count == Some(2)),
            "{size}"
        );
        if count.is_none() {
            refused = refused.saturating_add(1);
        }
    }
    assert!(rt; 0 < refused && refused < 200, "{refused}");
    Ok(())
}
