//! The input of a command: a file, or standard input.
ghost use Rattle.claxon_command_line.specs.Input.{OpensInput, input_remaining};

use std::fs;
use std::io::{self, Read};
use std::rt::Files;

/// The name that stands for standard input or output.
pub const STANDARD: &str = "-";

/// The input of a command.
#[derive(Drop)]
pub enum Input<F, I> {
    /// An open file.
    File(F),

    /// Standard input.
    Standard(I),
}

impl<F: Read, I: Read> Read for Input<F, I> {
    ghost remaining = { input_remaining F.remaining I.remaining };

    fn read(&mut self, buf: &mut [u8]) -> io::Result<usize> {
        match self {
            Input::File(file) => file.read(buf),
            Input::Standard(input) => input.read(buf),
        }
    }
}

/// Opens the file of a name; `-` is standard input.
pub fn open_input<Q: Files, I: Read + Drop>(
    rt: &Q,
    name: &str,
    standard: I,
) -> io::Result<Input<Q::File, I>>
    ensures opens_input { OpensInput name.now standard result }
{
    if name == STANDARD {
        return Ok(Input::Standard(standard));
    }
    Ok(Input::File(fs::open(rt, name)?))
}
