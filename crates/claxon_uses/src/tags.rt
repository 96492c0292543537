//! Tags as text.
ghost use Rattle.std.specs.Prelude.{◌≡◌, true, IfErr, IfOk};
ghost use Rattle.claxon_uses.specs.TagLines.{
  AreTags,
  TagFaultIsComplete,
  TagFaultIsSound,
  TagLinesAreComplete,
  TagLinesAreSound,
};

use claxon::{Error, FlacReader, FlacReaderOptions, Result};
use std::alloc::Allocator;
use std::fs::File;
use std::io::Read;
use std::rt::Files;

/// The tags of a file, in order, each as NAME=value. No frame is read.
pub fn list_tags<Q: Files<File = File> + AllocGlobal>(rt: &Q, name: &str) -> Result<Vec<String>> {
    let flac = FlacReader::open_ext(rt, name, head_options())?;
    tag_lines(rt.alloc(), &flac)
}

/// The tags of a stream, in order, each as NAME=value. No frame is read.
///
/// An error names the fault of the head; it is an `IoError` where its bytes end.
pub fn stream_tags<R: Read + Drop, A: Allocator + Copy>(
    alloc: A,
    reader: R,
) -> Result<Vec<String<A>, A>>
    ensures are_sound { TagLinesAreSound R.remaining reader result }
    ensures are_complete { TagLinesAreComplete R.remaining reader result }
    ensures fault_is_sound { TagFaultIsSound R.remaining reader result }
    ensures fault_is_complete { TagFaultIsComplete R.remaining reader result }
{
    let flac = FlacReader::new_ext(alloc, reader, head_options())?;
    tag_lines(alloc, &flac)
}

// The options for a head with its comments, and nothing after it.
fn head_options() -> FlacReaderOptions
    ensures only { result.metadata_only ≡ true }
    ensures comment { result.read_vorbis_comment ≡ true }
{
    FlacReaderOptions {
        metadata_only: true,
        read_vorbis_comment: true,
    }
}

/// The tags that a reader shows, in order, each as NAME=value.
pub fn tag_lines<R: Read, A: Allocator + Copy>(
    alloc: A,
    flac: &FlacReader<R, A>,
) -> Result<Vec<String<A>, A>>
    ensures lines { IfOk result (AreTags flac.now) }
    ensures memory { IfErr result (λ error. error ≡ Error.OutOfMemory) }
{
    let mut lines = Vec::new(alloc);
    for (name, value) in flac.tags() {
        lines.push(format!(in alloc; "{name}={value}")?)?;
    }
    Ok(lines)
}
