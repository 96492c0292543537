//! What programs share: their arguments and their exit status.
ghost use Rattle.std.specs.Prelude.{◌≡◌, OnErr, OnOk};

use crate::arguments::words;
use std::fmt::Display;
use std::io::Write;
use std::process::ExitCode;
use std::rt::Env;

/// Passes the arguments after the program's name to a command, or None if one of them isn't UTF-8, and returns its status; if
/// memory for them is refused, the status of that fault.
pub fn run_command<Q: Env + AllocGlobal, E: Write, C: FnOnce(Option<&[String]>, &mut E) -> u8>(
    rt: &Q,
    errors: &mut E,
    command: C,
) -> ExitCode
    requires { C.IsAlwaysCallable command }
{
    ExitCode::from(match words(rt) {
        Ok(Some(words)) => command(Some(&words), errors),
        Ok(None) => command(None, errors),
        Err(error) => status(Err(error), errors),
    })
}

/// The exit status for an outcome: 0, or 1 for a fault, whose text goes to `errors`. A failed write to `errors` is ignored.
pub fn status<F: Display + Drop, E: Write>(outcome: Result<(), F>, errors: &mut E) -> u8
    ensures ok { OnOk outcome (result ≡ 0) }
    ensures err { OnErr outcome (result ≡ 1) }
{
    match outcome {
        Ok(()) => 0,
        Err(fault) => {
            let _ = writeln!(errors, "{fault}");
            1
        }
    }
}
