//! The command `info`: the facts in the head of FLAC files.
use claxon::{Error, FlacReader, Result};
use claxon_command_line::arguments::Operands;
use claxon_command_line::input::{STANDARD, open_input};
use claxon_command_line::messages::{Part, line, print_error};
use claxon_command_line::names::not_utf8_name;
use claxon_program::{Program, write_facts};
use claxon_write::{Output, open_head};
use std::alloc::Global;
use std::io::{Read, Write};
use std::rt::Files;

/// What the command says about itself.
pub const PROGRAM: Program = Program {
    name: "claxon info",
    arguments: "FILE..",
    commands: &[],
    help: "Shows the streaminfo and the tags of FLAC files, a line `NAME: value` for each. No frame is read.
Where there are several files, a line `file: NAME` is before those of each.

  FILE       a FLAC file; - is standard input
  --         ends the options
  -h, --help shows this text
  -V, --version
             shows the version

Status: 0 if all was read and written, 1 if not, 2 if the arguments are wrong.
",
};

/// Does what the arguments say, and returns the exit status: 0, 1 if a file or the output fails, with a line on `errors` for
/// each, or 2 for arguments that the usage line doesn't have. A failed write to `errors` is ignored. After a failed write to
/// `output` the other files aren't read.
pub fn command<Q: Files + AllocGlobal, I: Read + Copy, W: Write, E: Write>(
    rt: &Q,
    words: &[String],
    input: I,
    output: &mut W,
    errors: &mut E,
) -> u8
where
    Q::File: Read,
{
    match Operands::parse(words) {
        Ok(names) => show_files(rt, names, input, output, errors),
        Err(notice) => PROGRAM.print(rt.alloc(), notice, output, errors),
    }
}

// Why a file whose name isn't UTF-8 isn't read.
const NOT_UTF8: &str = "not read: the name isn't UTF-8; use: claxon info - < FILE";

// What became of a file.
#[derive(Clone, Copy)]
enum FileOutcome {
    Shown,
    Faulty,
    // The output failed.
    Lost,
}

fn show_files<Q: Files + AllocGlobal, I: Read + Copy, W: Write, E: Write>(
    rt: &Q,
    names: Operands<'_>,
    input: I,
    output: &mut W,
    errors: &mut E,
) -> u8
where
    Q::File: Read,
{
    let has_heading = names.total() > 1;
    let mut status = 0;
    for name in names {
        if let Some(shown) = not_utf8_name(name) {
            let _ = writeln!(errors, "{shown}: {NOT_UTF8}");
            status = 1;
            continue;
        }
        match show_file(rt, name, has_heading, input, output, errors) {
            FileOutcome::Shown => {}
            FileOutcome::Faulty => status = 1,
            FileOutcome::Lost => return 1,
        }
    }
    status
}

fn show_file<Q: Files + AllocGlobal, I: Read + Copy, W: Write, E: Write>(
    rt: &Q,
    name: &str,
    has_heading: bool,
    input: I,
    output: &mut W,
    errors: &mut E,
) -> FileOutcome
where
    Q::File: Read,
{
    let opened = match open_input(rt, name, input) {
        Ok(input) => open_head(rt.alloc(), input),
        Err(error) => Err(Error::IoError(error)),
    };
    let flac = match opened {
        Ok(flac) => flac,
        Err(error) => {
            print_error(rt.alloc(), name, Part::Head, &error, errors);
            return FileOutcome::Faulty;
        }
    };
    match write_lines(rt.alloc(), name, has_heading, &flac, output) {
        Ok(()) => FileOutcome::Shown,
        Err(error) => {
            print_error(rt.alloc(), STANDARD, Part::Output, &error, errors);
            FileOutcome::Lost
        }
    }
}

fn write_lines<R: Read, W: Write>(
    alloc: Global,
    name: &str,
    has_heading: bool,
    flac: &FlacReader<R>,
    output: &mut W,
) -> Result<()> {
    let mut output = Output::new(output);
    if has_heading {
        output.put(line(alloc, "file", name)?.as_bytes())?;
    }
    write_facts(alloc, flac, &mut output)
}
