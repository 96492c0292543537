//! A source of which each read fails in turn.
use crate::parts::{FRAMES, INFO};
use claxon::Error;
use claxon::input::{BufferedReader, ReadBytes};
use claxon_recovery::{Part, Parts};
use claxon_testing::doubles::readers::FailsOnce;
use std::alloc::Global;
use std::io::ErrorKind;
use std::test::Fail;

// Two frames, six bytes that are none, and the frames again.
fn bytes_of(alloc: Global) -> claxon::Result<Vec<u8>> {
    let mut bytes = Vec::from_slice(alloc, &FRAMES)?;
    bytes.extend_from_slice(&[0xff; 6])?;
    bytes.extend_from_slice(&FRAMES)?;
    Ok(bytes)
}

// Where its parts end.
const ENDS: [u64; 5] = [11, 22, 28, 39, 50];

// What the next part is.
#[derive(Clone, Copy)]
enum Next {
    Right,
    End,
    Failure,
    Other,
}

// The same, where the part of this number should come.
fn next_of<R: ReadBytes>(parts: &mut Parts<R>, number: usize) -> Next {
    match parts.next_part() {
        Ok(Some(part)) => {
            if is_part(&part, number) {
                Next::Right
            } else {
                Next::Other
            }
        }
        Ok(None) => Next::End,
        Err(error) => {
            if is_failure(&error) {
                Next::Failure
            } else {
                Next::Other
            }
        }
    }
}

// Only the third part is damage.
fn is_part(part: &Part, number: usize) -> bool {
    match part {
        Part::Frame(there) => number != 2 && ENDS.get(number) == Some(&there.end),
        Part::Damage(damage) => number == 2 && ENDS.get(number) == Some(&damage.end),
    }
}

fn is_failure(error: &Error) -> bool {
    match error {
        Error::IoError(cause) => cause.kind() == ErrorKind::Other,
        _ => false,
    }
}

// Whether all parts come, and the end, and one call before it fails.
fn fails_once<R: ReadBytes>(parts: &mut Parts<R>) -> bool {
    let (mut failures, mut number) = (0u32, 0usize);
    for _ in 0..7 {
        match next_of(parts, number) {
            Next::Right => number = number.saturating_add(1),
            Next::End if number == 5 => {}
            Next::Failure => failures = failures.saturating_add(1),
            _ => return false,
        }
    }
    failures == 1 && number == 5
}

// After so many reads of three bytes one fails. No byte is lost, so the same parts come after the error.
fn survives(alloc: Global, bytes: &[u8], reads: u32) -> claxon::Result<bool> {
    let source = FailsOnce::new(bytes, 3, reads, ErrorKind::Other);
    let input = BufferedReader::new(alloc, source)?;
    let mut parts = Parts::new(alloc, input, Some(INFO), 0)?;
    Ok(fails_once(&mut parts))
}

// 17 reads of three bytes at most, and one at the end.
#[test]
fn each_read(rt: HostRuntime) -> Result<(), Fail> {
    let bytes = bytes_of(rt.alloc())?;
    for reads in 0..18 {
        assert!(rt; survives(rt.alloc(), bytes.as_slice(), reads)?, "{reads}");
    }
    Ok(())
}
