//! A stream that is truncated at each byte, read one byte at a time.
use crate::sources::OneByte;
use claxon::FlacReader;
use claxon_testing::answers::{FRAME, Fault, Step, fault_of, head, joined, next_of};
use std::alloc::Global;
use std::io::Read;
use std::test::Fail;

// Whether the first call for a sample has this result, and all further ones are None.
fn gives_once<R: Read + Drop>(flac: &mut FlacReader<R>, first: Step) -> bool {
    if flac.is_metadata_only() {
        return false;
    }
    let mut samples = flac.samples();
    let mut all = next_of(&mut samples) == first;
    for _ in 0..20 {
        all = all && next_of(&mut samples) == Ok(None);
    }
    all
}

// Whether opening these bytes is an `IoError`, if `first` is None, else whether they are opened and give it.
fn is_answered(alloc: Global, bytes: &[u8], first: Option<Step>) -> bool {
    match (FlacReader::new(alloc, OneByte::new(bytes)), first) {
        (Ok(flac), Some(first)) => {
            let mut flac = flac;
            gives_once(&mut flac, first)
        }
        (Err(error), None) => fault_of(&error) == Fault::Io,
        _ => false,
    }
}

// One byte of a frame is no frame.
#[test]
fn cut_streams(rt: HostRuntime) -> Result<(), Fail> {
    let bytes = joined(rt.alloc(), &[&head(0x80), &FRAME])?;
    for len in 0..54 {
        let first = match len {
            0..42 => None,
            42..44 => Some(Ok(None)),
            44..53 => Some(Err(Fault::Io)),
            _ => Some(Ok(Some(5))),
        };
        let prefix = &bytes[..len.min(bytes.len())];
        assert!(rt; is_answered(rt.alloc(), prefix, first), "{len}");
    }
    Ok(())
}
