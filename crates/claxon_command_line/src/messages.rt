//! Lines about what failed, on standard error.
ghost use Rattle.claxon_command_line.specs.Messages.{ErrorTextIsSound, IoTextIsSound, IsShownName};
ghost use Rattle.claxon_command_line.specs.Text.{IsText, escaped_text, line};

use crate::input::STANDARD;
use crate::text::escaped_text;
use claxon_input::error::Error;
use std::alloc::{AllocError, Allocator, Global};
use std::io::{self, ErrorKind, Write};

/// What failed.
#[derive(Clone, Copy)]
pub enum Part {
    /// The metadata of an input, or what is before them.
    Head,

    /// A frame of an input.
    Frame,

    /// An output.
    Output,
}

/// Prints a line `NAME: TEXT` for an error. The name is on one line, as `escaped_text` has it. Where an input ends inside
/// its metadata or a frame, the text says that it is truncated. A failed write to `errors` is ignored, and so is memory that
/// is refused.
pub fn print_error<E: Write>(alloc: Global, name: &str, part: Part, error: &Error, errors: &mut E) {
    let text = error_text(alloc, part, error);
    print_message(alloc, name, part, text, errors);
}

/// Prints a line `NAME: TEXT`, as `print_error` does.
pub fn print_message<E: Write>(
    alloc: Global,
    name: &str,
    part: Part,
    text: Result<String, AllocError>,
    errors: &mut E,
) {
    if let Ok(text) = text
        && let Ok(line) = line(alloc, shown_name(name, part), text.as_str())
    {
        let _ = errors.write_all(line.as_bytes());
    }
}

/// The name that is printed for an input or an output: `-` is a standard stream.
pub fn shown_name(name: &str, part: Part) -> &str
    ensures is_shown_name { IsShownName name.now part result.now }
{
    match part {
        Part::Head | Part::Frame if name == STANDARD => "standard input",
        Part::Output if name == STANDARD => "standard output",
        _ => name,
    }
}

/// A line `NAME: TEXT`, with the text as `escaped_text` has it.
#[tactic(auto, unfolding(crate::specs::Text::line))]
pub fn line<A: Allocator + Copy>(alloc: A, name: &str, text: &str) -> Result<String<A>, AllocError>
    ensures is_text { IsText (line (escaped_text name.now) (escaped_text text.now)) result }
{
    let (name, text) = (escaped_text(alloc, name)?, escaped_text(alloc, text)?);
    format!(in alloc; "{name}: {text}\n")
}

/// The text of an error, where that part failed.
pub fn error_text<A: Allocator + Copy>(
    alloc: A,
    part: Part,
    error: &Error,
) -> Result<String<A>, AllocError>
    ensures is_sound { ErrorTextIsSound part error.now result }
{
    match error {
        Error::IoError(cause) => io_text(alloc, part, cause),
        _ => format!(in alloc; "{error}"),
    }
}

// The text of a failed read or write, without its number.
fn io_text<A: Allocator + Copy>(
    alloc: A,
    part: Part,
    cause: &io::Error,
) -> Result<String<A>, AllocError>
    ensures is_sound { IoTextIsSound part cause.now result }
{
    let is_eof = cause.kind() == ErrorKind::UnexpectedEof;
    match part {
        Part::Head if is_eof => {
            String::from_str(alloc, "truncated: the file ends inside the metadata")
        }
        Part::Frame if is_eof => {
            String::from_str(alloc, "truncated: the file ends inside a frame")
        }
        _ => {
            let text = format!(in alloc; "{cause}")?;
            match text.as_str().rsplit_once(" (os error ") {
                Some((text, _)) => String::from_str(alloc, text),
                None => Ok(text),
            }
        }
    }
}
