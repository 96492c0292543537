//! Command lines of `claxon`: its commands, its help, and what asks for none.
use claxon_commands::{PROGRAM, command};
use claxon_program::VERSION;
use claxon_testing::answers::{FRAME, head, joined};
use claxon_testing::command_lines::{Outcome, is_outcome, owned};
use std::test::Fail;

// What a command line came to, with these bytes in standard input.
fn outcome_of(rt: &HostRuntime, words: &[&str], input: &[u8]) -> Result<Outcome, Fail> {
    let words = owned(rt.alloc(), words)?;
    let (mut output, mut errors) = (Vec::new(rt.alloc()), Vec::new(rt.alloc()));
    let status = command(rt, &words, input, &mut output, false, &mut errors);
    Ok(Outcome {
        status,
        output,
        errors,
    })
}

fn is(outcome: &Outcome, status: u8, output: &str, errors: &str) -> bool {
    is_outcome(outcome, status, output.as_bytes(), errors.as_bytes())
}

// Command lines that ask for no command, and the line before the usage line.
#[test]
fn no_command(rt: HostRuntime) -> Result<(), Fail> {
    let rows: [(&[&str], &str); 9] = [
        (&[], ""),
        (&["--"], ""),
        (&["help", "info", "wav"], ""),
        (&["-x", "info"], "claxon: unknown option -x\n"),
        (&["help", "-x"], "claxon: unknown option -x\n"),
        (&["decode", "a.flac"], "claxon: unknown command decode\n"),
        (&["help", "decode"], "claxon: unknown command decode\n"),
        (&["--", "--help"], "claxon: unknown command --help\n"),
        (&["-"], "claxon: unknown command -\n"),
    ];
    for (words, line) in rows {
        let errors = format!(in rt.alloc(); "{line}usage: claxon info|wav|verify|trace|help ..\n")?;
        let outcome = outcome_of(&rt, words, b"")?;
        assert!(rt; is(&outcome, 2, "", errors.as_str()), "{words:?}");
    }
    Ok(())
}

// The commands that take one file refuse a name that isn't UTF-8, the others say that they don't read it.
#[test]
fn an_argument_that_is_not_utf8(rt: HostRuntime) -> Result<(), Fail> {
    let refused = ": an argument isn't valid UTF-8\n";
    let hint = ": pass such a file as standard input: - < FILE\nusage: ";
    let rows: [(&[&str], &str, &str); 5] = [
        (
            &["\0\\xff"],
            "claxon",
            "claxon info|wav|verify|trace|help ..\n",
        ),
        (
            &["help", "\0\\xff"],
            "claxon",
            "claxon info|wav|verify|trace|help ..\n",
        ),
        (
            &["wav", "\0\\xff"],
            "claxon wav",
            "claxon wav [-f] [--no-md5] [--through-damage | --skip-damage] FILE [OUT.wav]\n",
        ),
        (
            &["wav", "-", "\0\\xff"],
            "claxon wav",
            "claxon wav [-f] [--no-md5] [--through-damage | --skip-damage] FILE [OUT.wav]\n",
        ),
        (
            &["trace", "\0\\xff"],
            "claxon trace",
            "claxon trace [--brief] [--faults N] FILE\n",
        ),
    ];
    for (words, name, usage) in rows {
        let errors = format!(in rt.alloc(); "{name}{refused}{name}{hint}{usage}")?;
        let outcome = outcome_of(&rt, words, b"")?;
        assert!(rt; is(&outcome, 2, "", errors.as_str()), "{words:?}");
    }
    let outcome = outcome_of(&rt, &["info", "\0a\\xff"], b"")?;
    let line = "a\\xff: not read: the name isn't UTF-8; use: claxon info - < FILE\n";
    assert!(rt; is(&outcome, 1, "", line));
    Ok(())
}

const HELP: &str = "usage: claxon info|wav|verify|trace|help ..

  info       shows the streaminfo and the tags of FLAC files
  wav        converts a FLAC file to a WAV file
  verify     says of FLAC files whether they are right
  trace      shows what each frame of a FLAC file decodes to

  -h, --help shows this text
  -V, --version
             shows the version

Status: 0 if all went well, 1 if not, 2 if the arguments are wrong, 3 for what
isn't supported (verify).

`claxon help COMMAND` shows more.
";

#[test]
fn version_and_help(rt: HostRuntime) -> Result<(), Fail> {
    let rows: [&[&str]; 5] = [
        &["--help", "-x"],
        &["-h"],
        &["help"],
        &["help", "--help"],
        &["help", "help"],
    ];
    for words in rows {
        assert!(rt; is(&outcome_of(&rt, words, b"")?, 0, HELP, ""), "{words:?}");
    }
    let version = format!(in rt.alloc(); "claxon {VERSION}\n")?;
    assert!(rt;
        is(
            &outcome_of(&rt, &["--version"], b"")?,
            0,
            version.as_str(),
            ""
        )
    );
    for words in [["help", "--version"].as_slice(), ["-V"].as_slice()] {
        assert!(rt;
            is(&outcome_of(&rt, words, b"")?, 0, version.as_str(), ""),
            "{words:?}"
        );
    }
    Ok(())
}

// Whether the help of a command is the same both ways, and begins with its usage.
fn has_help(rt: &HostRuntime, name: &str) -> Result<bool, Fail> {
    let usage = format!(in rt.alloc(); "usage: claxon {name} ")?;
    let (one, other) = (
        outcome_of(rt, &["help", name], b"")?,
        outcome_of(rt, &[name, "--help"], b"")?,
    );
    let short = outcome_of(rt, &[name, "-h"], b"")?;
    let is_help = one.status == 0 && one.output.as_slice().starts_with(usage.as_bytes());
    Ok(
        is_help
            && other.status == 0
            && one.output == other.output
            && one.output == short.output
            && one.errors.is_empty(),
    )
}

// Each command that the help lists.
#[test]
fn help_of_commands(rt: HostRuntime) -> Result<(), Fail> {
    for (name, _) in PROGRAM.commands {
        assert!(rt; has_help(&rt, *name)?, "{name}");
    }
    Ok(())
}

// The first line of what each command prints of the stream in standard input.
#[test]
fn commands(rt: HostRuntime) -> Result<(), Fail> {
    let stream = joined(rt.alloc(), &[&head(0x80), &FRAME])?;
    let rows: [(&[&str], &[u8]); 5] = [
        (&["info", "-"], b"sample_rate: 44100\n"),
        (&["wav", "-"], b"RIFF"),
        (
            &["verify", "--", "-"],
            b"standard input: ok, 1 frame, 1 sample, no MD5 sum\n",
        ),
        (&["trace", "-"], b"head blocks 16-16 "),
        (&["--", "trace", "--brief", "-"], b"head blocks 16-16 "),
    ];
    for (words, front) in rows {
        let outcome = outcome_of(&rt, words, stream.as_slice())?;
        assert!(rt;
            outcome.status == 0 && outcome.errors.is_empty(),
            "{words:?}"
        );
        assert!(rt; outcome.output.as_slice().starts_with(front), "{words:?}");
    }
    Ok(())
}
