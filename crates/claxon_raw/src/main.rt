//! Writes the samples of a FLAC file as bytes, or prints its tags.
#![tactic(auto)]

use claxon_command_line::run_command;
use claxon_write::command;
use std::process::ExitCode;

fn main(rt: HostRuntime) -> ExitCode {
    run_command(&rt, &mut rt.stderr(), |words, errors| {
        command(&rt, words.unwrap_or(&[]), &mut rt.stdout(), errors)
    })
}
