//! A stream of which each read fails in turn.
use crate::files::{is_file_of, rescue, stream_of};
use crate::rows::{A, B, C, HEAD};
use claxon::Error as Cause;
use claxon_testing::doubles::readers::FailsOnce;
use claxon_wav::{Error, Result};
use std::alloc::Global;
use std::io::ErrorKind;

// The samples of the three frames.
const SAMPLES: [u8; 48] = [
    129, 129, 129, 129, 129, 129, 129, 129, 129, 129, 129, 129, 129, 129, 129, 129, 130, 130, 130,
    130, 130, 130, 130, 130, 130, 130, 130, 130, 130, 130, 130, 130, 131, 131, 131, 131, 131, 131,
    131, 131, 131, 131, 131, 131, 131, 131, 131, 131,
];

// Whether the read after so many of three bytes fails, and the file is a valid one of the frames before it.
fn ends_early(alloc: Global, stream: &[u8], reads: u32) -> Result<bool> {
    let mut file = Vec::new(alloc);
    let source = FailsOnce::new(stream, 3, reads, ErrorKind::Other);
    match rescue(alloc, source, true, &mut file) {
        Err(Error::Claxon(Cause::IoError(cause))) if cause.kind() == ErrorKind::Other => {}
        _ => return Ok(false),
    }
    let whole = file.len().saturating_sub(44);
    Ok(whole % 16 == 0 && whole <= 48 && is_file_of(file.as_slice(), &SAMPLES[..whole]))
}

// The head takes 14 reads of three bytes, the frames eleven, and one more finds the end.
#[test]
fn each_read(rt: HostRuntime) -> Result<()> {
    let stream = stream_of(rt.alloc(), &HEAD, &[A, B, C])?;
    for reads in 14..26 {
        assert!(rt;
            ends_early(rt.alloc(), stream.as_slice(), reads)?,
            "{reads}"
        );
    }
    Ok(())
}
