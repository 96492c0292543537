//! The program `claxon`: its commands, and which of them the arguments ask for.
#![tactic(auto)]

mod counted;
mod rescue;
pub mod verify;
pub mod wav;

use claxon_command_line::arguments::{Argument, Arguments, Notice};
use claxon_command_line::names::not_utf8_name;
use claxon_command_line::status;
use claxon_inspect::{info, trace};
use claxon_program::Program;
use std::alloc::{AllocError, Global};
use std::io::{Read, Write};
use std::rt::Files;

/// What the program says about itself.
pub const PROGRAM: Program = Program {
    name: "claxon",
    arguments: "info|wav|verify|trace|help ..",
    commands: &[
        ("info", "shows the streaminfo and the tags of FLAC files"),
        ("wav", "converts a FLAC file to a WAV file"),
        ("verify", "says of FLAC files whether they are right"),
        ("trace", "shows what each frame of a FLAC file decodes to"),
    ],
    help: "
  -h, --help shows this text
  -V, --version
             shows the version

Status: 0 if all went well, 1 if not, 2 if the arguments are wrong, 3 for what
isn't supported (verify).

`claxon help COMMAND` shows more.
",
};

/// Does what the arguments say, each of which is as `word_of` has it, and returns the exit status: that of the command, or 2
/// for arguments that ask for none. A failed write to `errors` is ignored.
pub fn command<Q: Files + AllocGlobal, I: Read + Copy, W: Write + Drop, E: Write>(
    rt: &Q,
    words: &[String],
    input: I,
    output: W,
    shows_progress: bool,
    errors: &mut E,
) -> u8
where
    Q::File: Read,
{
    match parse(words) {
        Ok(Action::Run(call)) => run(rt, call, input, output, shows_progress, errors),
        Ok(Action::Help(name)) => match help_option(rt.alloc()) {
            Ok(words) => {
                let words = words.as_slice();
                let call = Call { name, words };
                run(rt, call, input, output, shows_progress, errors)
            }
            Err(error) => status(Err(claxon::Error::from(error)), errors),
        },
        Err(notice) => {
            let mut output = output;
            PROGRAM.print(rt.alloc(), notice, &mut output, errors)
        }
    }
}

// The name of a command, and its arguments.
#[derive(Clone, Copy)]
struct Call<'a> {
    name: &'a str,
    words: &'a [String],
}

// What a command line asks for.
#[derive(Clone, Copy)]
enum Action<'a> {
    // A command.
    Run(Call<'a>),
    // What a command says about itself.
    Help(&'a str),
}

fn parse<'a>(words: &'a [String]) -> Result<Action<'a>, Notice<'a>> {
    let call = split_name(words)?;
    if call.name != "help" {
        return Ok(Action::Run(call));
    }
    if call.words.is_empty() {
        return Err(Notice::Help);
    }
    let asked = split_name(call.words)?;
    if !asked.words.is_empty() {
        return Err(Notice::Usage);
    }
    match asked.name {
        "help" => Err(Notice::Help),
        name => Ok(Action::Help(name)),
    }
}

// The first word as the name of a command.
fn split_name<'a>(words: &'a [String]) -> Result<Call<'a>, Notice<'a>> {
    let mut arguments = Arguments::new(words);
    match arguments.next() {
        Some(Argument::Operand(name)) if not_utf8_name(name).is_some() => Err(Notice::NotUtf8),
        Some(Argument::Operand(name)) => {
            let words = arguments.rest();
            Ok(Call { name, words })
        }
        Some(Argument::Option(option)) => Err(Notice::of_option(option)),
        None => Err(Notice::Usage),
    }
}

fn help_option(alloc: Global) -> Result<[String; 1], AllocError> {
    Ok([String::from_str(alloc, "--help")?])
}

fn run<Q: Files + AllocGlobal, I: Read + Copy, W: Write + Drop, E: Write>(
    rt: &Q,
    call: Call<'_>,
    input: I,
    output: W,
    shows_progress: bool,
    errors: &mut E,
) -> u8
where
    Q::File: Read,
{
    let words = call.words;
    let mut output = output;
    match call.name {
        "info" => info::command(rt, words, input, &mut output, errors),
        "wav" => wav::command(rt, words, input, output, shows_progress, errors),
        "verify" => verify::command(rt, words, input, &mut output, shows_progress, errors),
        "trace" => trace::command(rt, words, input, output, errors),
        name => PROGRAM.print(
            rt.alloc(),
            Notice::UnknownCommand(name),
            &mut output,
            errors,
        ),
    }
}
