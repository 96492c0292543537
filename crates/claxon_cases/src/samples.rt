//! Files by their samples.
use claxon::input::ReadBytes;
use claxon::{FlacReader, FlacSamples, Result};
use claxon_command_line::fnv::{OFFSET_BASIS, hash_on};
use claxon_command_line::result_text::ResultText;
use std::alloc::Global;
use std::io::{Read, Write};

/// Collects the samples up to the end or the first error; none for a stream that was opened for its metadata only.
pub fn gather<R: Read + Drop>(flac: &mut FlacReader<R>, samples: &mut Vec<i32>) -> Result<()> {
    if flac.is_metadata_only() {
        return Ok(());
    }
    gather_all(flac.samples(), samples)
}

// For any source of bytes, since a loop over a borrowed reader takes long to prove.
fn gather_all<R: ReadBytes + Drop>(given: FlacSamples<R>, samples: &mut Vec<i32>) -> Result<()> {
    for sample in given.take(usize::MAX) {
        samples.push(sample?)?;
    }
    Ok(())
}

fn decode<R: Read + Drop>(alloc: Global, input: R, samples: &mut Vec<i32>) -> Result<()> {
    gather(&mut FlacReader::new(alloc, input)?, samples)
}

/// Prints the number of samples of a file, a hash of their bytes, and how it ends.
pub fn print_tally<R: Read + Drop, W: Write>(
    alloc: Global,
    name: &str,
    input: R,
    output: &mut W,
) -> Result<()> {
    let mut samples = Vec::new(alloc);
    let outcome = decode(alloc, input, &mut samples);
    let hash = hash_on(OFFSET_BASIS, &samples);
    let mut line = ResultText::new(alloc);
    add_outcome(&outcome, &mut line);
    write!(output, "{name} {} {hash:016x} ", samples.len())?;
    output.write_all(line.as_bytes())?;
    Ok(())
}

fn add_outcome(outcome: &Result<()>, line: &mut ResultText) {
    match outcome {
        Ok(()) => line.text("ok"),
        Err(error) => line.fault(error),
    }
    line.text("\n");
}
