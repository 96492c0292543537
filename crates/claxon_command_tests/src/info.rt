//! Command lines of `claxon info`.
use claxon_inspect::info::command;
use claxon_program::VERSION;
use claxon_testing::answers::{FRAME, head, joined};
use claxon_testing::command_lines::{Outcome, is_outcome, owned};
use claxon_testing::doubles::sinks::Sink;
use claxon_testing::temporary_files::file_of;
use std::io::ErrorKind;
use std::test::Fail;
use std::{env, fs};

// What a command line came to, with these bytes in standard input.
fn outcome_of(rt: &HostRuntime, words: &[&str], input: &[u8]) -> Result<Outcome, Fail> {
    let words = owned(rt.alloc(), words)?;
    let (mut output, mut errors) = (Vec::new(rt.alloc()), Vec::new(rt.alloc()));
    let status = command(rt, &words, input, &mut output, &mut errors);
    Ok(Outcome {
        status,
        output,
        errors,
    })
}

fn is(outcome: &Outcome, status: u8, output: &str, errors: &str) -> bool {
    is_outcome(outcome, status, output.as_bytes(), errors.as_bytes())
}

// Command lines that open no file, what is in standard input, and what they come to.
const USAGE: &str = "usage: claxon info FILE..\n";

const CUT: &str = "standard input: truncated: the file ends inside the metadata\n";

#[test]
fn command_lines_without_a_stream(rt: HostRuntime) -> Result<(), Fail> {
    let unknown = "claxon info: unknown option -x\nusage: claxon info FILE..\n";
    let other = "standard input: Ill-formed FLAC stream: invalid stream header\n";
    let rows: [(&[&str], &[u8], u8, &str); 8] = [
        (&[], b"", 2, USAGE),
        (&["--"], b"", 2, USAGE),
        (&["-x"], b"", 2, unknown),
        (&["a", "-x", "b"], b"", 2, unknown),
        (&["-"], b"", 1, CUT),
        (&["--", "-"], b"fLaC\x80", 1, CUT),
        (&["-"], b"RIFF", 1, other),
        (
            &["--", "--help"],
            b"",
            1,
            "--help: No such file or directory\n",
        ),
    ];
    for (words, input, status, errors) in rows {
        let outcome = outcome_of(&rt, words, input)?;
        assert!(rt; is(&outcome, status, "", errors), "{errors}");
    }
    Ok(())
}

#[test]
fn version_and_help(rt: HostRuntime) -> Result<(), Fail> {
    let version = format!(in rt.alloc(); "claxon info {VERSION}\n")?;
    let outcome = outcome_of(&rt, &["a", "--version", "-x"], b"")?;
    assert!(rt; is(&outcome, 0, version.as_str(), ""));
    let help = outcome_of(&rt, &["--help"], b"")?;
    assert!(rt; help.status == 0 && help.errors.is_empty());
    assert!(rt; help.output.as_slice().starts_with(USAGE.as_bytes()));
    Ok(())
}

// The lines of the head that `claxon_tests` uses.
const LINES: &str = "sample_rate: 44100
channels: 1
bits_per_sample: 8
samples: 1
length: 0:00:00.000
min_block_size: 16
max_block_size: 16
min_frame_size: unknown
max_frame_size: unknown
md5sum: unknown
vendor: unknown
";

// The lines for several files, of which one is a folder.
#[test]
fn several_files(rt: HostRuntime) -> Result<(), Fail> {
    let bytes = joined(rt.alloc(), &[&head(0x80), &FRAME])?;
    let path = file_of(&rt, "info_a\nb", &bytes)?;
    let folder = env::temp_dir(&rt)?;
    let words = ["-", folder.as_str(), path.as_str()];
    let outcome = outcome_of(&rt, &words, bytes.as_slice())?;
    fs::remove_file(&rt, path.as_str())?;
    let (name, folder) = (
        path.as_str().replace(rt.alloc(), "\n", "\\n")?,
        folder.as_str(),
    );
    let output = format!(in rt.alloc(); "file: -\n{LINES}file: {name}\n{LINES}")?;
    let errors = format!(in rt.alloc(); "{folder}: Is a directory\n")?;
    assert!(rt; is(&outcome, 1, output.as_str(), errors.as_str()));
    let one = outcome_of(&rt, &["-"], bytes.as_slice())?;
    assert!(rt; is(&one, 0, LINES, ""));
    Ok(())
}

// Whether this text is lost, and nothing more is said or read.
fn is_lost(rt: &HostRuntime, words: &[&str], writes: u32, fails: bool) -> Result<bool, Fail> {
    let words = owned(rt.alloc(), words)?;
    let mut output = Sink::new(2, writes, fails, ErrorKind::BrokenPipe);
    let mut errors = Vec::new(rt.alloc());
    let stream = joined(rt.alloc(), &[&head(0x80), &FRAME])?;
    let status = command(rt, &words, stream.as_slice(), &mut output, &mut errors);
    Ok(status == 1 && errors.as_slice() == b"standard output: broken pipe\n".as_slice())
}

// A write fails, or the flush.
#[test]
fn lost_output(rt: HostRuntime) -> Result<(), Fail> {
    let rows: [(&[&str], u32, bool); 7] = [
        (&["-"], 0, false),
        (&["-"], 3, false),
        (&["-"], 999, true),
        (&["-", "-", "none"], 0, false),
        (&["--help"], 1, false),
        (&["--version"], 0, false),
        (&["--version"], 999, true),
    ];
    for (words, writes, fails_at_flush) in rows {
        assert!(rt; is_lost(&rt, words, writes, fails_at_flush)?, "{words:?}");
    }
    Ok(())
}
