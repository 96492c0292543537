//! Inputs of which a read fails, after some bytes and before others.
use claxon_command_line::input::Input;
use claxon_testing::doubles::readers::FailsOnce;
use std::io::{ErrorKind, Read};

// The answer of the next read into four bytes.
fn next<R: Read>(input: &mut R) -> Result<usize, ErrorKind> {
    let mut buffer = [0; 4];
    match input.read(&mut buffer) {
        Ok(count) => Ok(count),
        Err(cause) => Err(cause.kind()),
    }
}

// Whether four bytes, two at each read, are given around a read that fails like this, and then none.
fn tells_failure<R: Read>(input: &mut R, kind: ErrorKind) -> bool {
    let mut all = true;
    for want in [Ok(2), Err(kind), Ok(2), Ok(0)] {
        all = all && next(input) == want;
    }
    all
}

// The failure is neither the end nor left out, in a file and in standard input.
#[test]
fn failed_reads(rt: HostRuntime) {
    for kind in [
        ErrorKind::Other,
        ErrorKind::Interrupted,
        ErrorKind::UnexpectedEof,
    ] {
        let source = FailsOnce::new(b"fLaC", 2, 1, kind);
        let mut file: Input<FailsOnce<'_>, FailsOnce<'_>> = Input::File(source);
        let mut standard: Input<FailsOnce<'_>, FailsOnce<'_>> = Input::Standard(source);
        assert!(rt; tells_failure(&mut file, kind), "{kind:?}");
        assert!(rt; tells_failure(&mut standard, kind), "{kind:?}");
    }
}
