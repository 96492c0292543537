//! Shows, converts, verifies and traces FLAC files.
#![tactic(auto)]

use claxon_command_line::arguments::all_words;
use claxon_command_line::status;
use claxon_commands::command;
use std::io::IsTerminal;
use std::process::ExitCode;

fn main(rt: HostRuntime) -> ExitCode {
    let (mut errors, shows_progress) = (rt.stderr(), rt.stderr().is_terminal());
    ExitCode::from(match all_words(&rt) {
        Ok(words) => command(
            &rt,
            words.as_slice(),
            rt.stdin(),
            rt.stdout(),
            shows_progress,
            &mut errors,
        ),
        Err(error) => status(Err(error), &mut errors),
    })
}
