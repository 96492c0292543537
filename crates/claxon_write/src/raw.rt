//! The command of `claxon_raw`: the samples of a FLAC file as bytes, or its tags.
use crate::output::Output;
use crate::stream::run;
use claxon::metadata::Tags;
use claxon::{FlacReader, FlacReaderOptions, Result};
use claxon_command_line::status;
use std::alloc::{Allocator, Global};
use std::fs;
use std::io::{Read, Write};
use std::rt::Files;

/// Does what the arguments say, and returns the exit status: 0, 1 for a fault, whose text goes to `errors`, or 2 for
/// arguments that the usage line doesn't have. A failed write to `errors` is ignored.
pub fn command<Q: Files + AllocGlobal, W: Write, E: Write>(
    rt: &Q,
    words: &[String],
    output: &mut W,
    errors: &mut E,
) -> u8
where
    Q::File: Read,
{
    let outcome = match words {
        [option, name] if option.as_str() == "--tags" => print_tags(rt, name.as_str(), output),
        [name] if name.as_str() != "--tags" => decode(rt, name.as_str(), output),
        _ => {
            let _ = writeln!(errors, "usage: claxon_raw [--tags] FILE");
            return 2;
        }
    };
    status(outcome, errors)
}

fn decode<Q: Files + AllocGlobal, W: Write>(rt: &Q, name: &str, output: &mut W) -> Result<()>
where
    Q::File: Read,
{
    let input = fs::open(rt, name)?;
    run(rt.alloc(), input, output)?;
    Ok(())
}

/// Reads the head of an open file, with its tags, and none of its frames.
pub fn open_head<R: Read + Drop>(alloc: Global, input: R) -> Result<FlacReader<R>> {
    let options = FlacReaderOptions {
        metadata_only: true,
        read_vorbis_comment: true,
    };
    FlacReader::new_ext(alloc, input, options)
}

fn print_tags<Q: Files + AllocGlobal, W: Write>(rt: &Q, name: &str, output: &mut W) -> Result<()>
where
    Q::File: Read,
{
    let input = fs::open(rt, name)?;
    put_tags(open_head(rt.alloc(), input)?.tags(), output)
}

// A line `NAME=value` for each tag.
fn put_tags<A: Allocator, W: Write>(tags: Tags<'_, A>, output: &mut W) -> Result<()> {
    let mut output = Output::new(output);
    for (name, value) in tags {
        put_tag(&mut output, name, value)?;
    }
    output.flush()
}

fn put_tag<W: Write>(output: &mut Output<'_, W>, name: &str, value: &str) -> Result<()> {
    output.put(name.as_bytes())?;
    output.put(b"=")?;
    output.put(value.as_bytes())?;
    output.put(b"\n")
}
