//! Decodes files, and replays lines of subframes, metadata blocks, frames and streams with answers of another decoder.
#![tactic(auto)]

mod answers;
mod blocks;
mod frames;
mod heads;
mod replay;
mod samples;
mod streams;
mod subframes;

use claxon::Result;
use claxon_command_line::status;
use replay::{Kind, replay};
use samples::print_tally;
use std::io::{Read, Write};
use std::process::ExitCode;
use std::rt::{Env, Files};
use std::{env, fs};

// The kind of the lines of a file, if it has lines.
fn kind_of(name: &str) -> Option<Kind> {
    match name {
        "subframes.txt" => Some(Kind::Subframe),
        "blocks.txt" => Some(Kind::Block),
        "frames.txt" | "written_frames.txt" => Some(Kind::Frame),
        "streams.txt" => Some(Kind::Stream),
        _ => None,
    }
}

// One line for each file in the arguments.
fn print_all<Q: Env + Files + AllocGlobal, W: Write>(rt: &Q, output: &mut W) -> Result<()>
where
    Q::File: Read,
{
    for name in env::args(rt)?.skip(1) {
        print_lines(rt, name.as_str(), output)?;
    }
    Ok(())
}

fn print_lines<Q: Files + AllocGlobal, W: Write>(rt: &Q, name: &str, output: &mut W) -> Result<()>
where
    Q::File: Read,
{
    match kind_of(name) {
        Some(kind) => {
            let lines = fs::read_to_string(rt, name)?;
            replay(rt.alloc(), kind, name, lines.as_str(), output)
        }
        None => print_tally(rt.alloc(), name, fs::open(rt, name)?, output),
    }
}

fn main(rt: HostRuntime) -> ExitCode {
    let outcome = print_all(&rt, &mut rt.stdout());
    ExitCode::from(status(outcome, &mut rt.stderr()))
}
