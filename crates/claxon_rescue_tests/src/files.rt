//! What the tests share: streams of pieces, and the files that they become.
use claxon::FlacReader;
use claxon_command_line::progress::Progress;
use claxon_recovery::Parts;
use claxon_rescue::{RescueOptions, Rescued, rescue_file};
use claxon_wav::{Plan, Result};
use std::alloc::Global;
use std::io::{Cursor, Read};

/// How many ranges are kept.
pub const MAX_RANGES: usize = 3;

/// A head, and what comes after it.
pub fn stream_of(alloc: Global, head: &[u8; 42], pieces: &[&[u8]]) -> Result<Vec<u8>> {
    let mut stream = Vec::from_slice(alloc, head)?;
    for piece in pieces {
        stream.extend_from_slice(piece)?;
    }
    Ok(stream)
}

/// Writes a stream whose head has 42 bytes.
pub fn rescue<R: Read + Drop>(
    alloc: Global,
    stream: R,
    fills_gaps: bool,
    bytes: &mut Vec<u8>,
) -> Result<Rescued> {
    let mut flac = FlacReader::new(alloc, stream)?;
    let plan = Plan::of_stream(&flac, true)?;
    let info = flac.streaminfo();
    let mut parts = Parts::new(alloc, flac.input(), Some(info), 42)?;
    let options = RescueOptions {
        start: 42,
        fills_gaps,
        max_ranges: MAX_RANGES,
    };
    let mut errors = Vec::new(alloc);
    let mut progress = Progress::new(&mut errors, None);
    let mut output = Cursor::new(bytes);
    let outcome = rescue_file(
        alloc,
        &mut parts,
        info,
        &mut output,
        plan,
        options,
        &mut progress,
    );
    progress.end();
    outcome
}

/// Whether a file has these bytes of samples after a header of 44 bytes, which says how many they are.
pub fn is_file_of(file: &[u8], samples: &[u8]) -> bool {
    let Ok(size) = u32::try_from(samples.len()) else {
        return false;
    };
    file.len() >= 44
        && &file[..4] == b"RIFF".as_slice()
        && &file[4..8] == size.wrapping_add(36).to_le_bytes().as_slice()
        && &file[40..44] == size.to_le_bytes().as_slice()
        && &file[44..] == samples
}
