//! The command of `claxon_raw` with an output that fails.
use claxon_testing::answers::{COMMENT, FIVES, head, joined, two_frames};
use claxon_testing::command_lines::owned;
use claxon_testing::doubles::sinks::Sink;
use claxon_testing::temporary_files::file_of;
use claxon_write::command;
use std::fs;
use std::io::{self, ErrorKind};
use std::test::Fail;

// An output: how many bytes it takes at a write, how many writes before one fails, and whether flushes fail; and how many bytes
// it has then.
type Row = (usize, u32, bool, usize);

// Whether a command line has the status 1, prints the text of such a failure, and has written this many of these bytes before.
fn has_failed(
    rt: &HostRuntime,
    words: &[String],
    row: &Row,
    kind: ErrorKind,
    bytes: &[u8],
) -> Result<bool, Fail> {
    let (most, writes_left, fails_at_flush, count) = *row;
    let mut output = Sink::new(most, writes_left, fails_at_flush, kind);
    let mut errors = Vec::new(rt.alloc());
    let status = command(rt, words, &mut output, &mut errors);
    let text = format!(in rt.alloc(); "{}\n", io::Error::from(kind))?;
    let is_said = status == 1 && errors.as_slice() == text.as_bytes();
    Ok(is_said && output.written() == &bytes[..count.min(bytes.len())])
}

// Whether a command line fails so with each output, and with each failure.
fn fails_each(rt: &HostRuntime, words: &[&str], rows: &[Row], bytes: &[u8]) -> Result<bool, Fail> {
    let words = owned(rt.alloc(), words)?;
    let mut all = true;
    for row in rows {
        for kind in [
            ErrorKind::Other,
            ErrorKind::Interrupted,
            ErrorKind::BrokenPipe,
        ] {
            all = all && has_failed(rt, &words, row, kind, bytes)?;
        }
    }
    Ok(all)
}

// A write fails, or the flush.
#[test]
fn samples(rt: HostRuntime) -> Result<(), Fail> {
    let path = file_of(&rt, "lost_samples", &two_frames(0x58))?;
    let rows = [(8, 0, false, 0), (4, 1, false, 4), (8, 9, true, 8)];
    assert!(rt; fails_each(&rt, &[path.as_str()], &rows, &FIVES)?);
    fs::remove_file(&rt, path.as_str())?;
    Ok(())
}

#[test]
fn tags(rt: HostRuntime) -> Result<(), Fail> {
    let bytes = joined(
        rt.alloc(),
        &[&head(0x00), &[0x84, 0x00, 0x00, 0x13], &COMMENT],
    )?;
    let path = file_of(&rt, "lost_tags", &bytes)?;
    let rows = [(8, 0, false, 0), (1, 3, false, 3), (8, 9, true, 4)];
    assert!(rt; fails_each(&rt, &["--tags", path.as_str()], &rows, b"X=Y\n")?);
    fs::remove_file(&rt, path.as_str())?;
    Ok(())
}
