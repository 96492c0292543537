//! Outputs whose seeks fail.
use claxon::Error;
use claxon_write::CountingWriter;
use std::io::{self, ErrorKind, Seek, SeekFrom, Write};

// Takes all bytes. Each seek fails like this.
#[derive(Drop)]
struct Unseekable {
    kind: ErrorKind,
    seeks: u32,
}

impl Write for Unseekable {
    fn write(&mut self, bytes: &[u8]) -> io::Result<usize> {
        Ok(bytes.len())
    }

    fn flush(&mut self) -> io::Result<()> {
        Ok(())
    }
}

impl Seek for Unseekable {
    fn seek(&mut self, _to: SeekFrom) -> io::Result<u64> {
        self.seeks = self.seeks.wrapping_add(1);
        Err(io::Error::from(self.kind))
    }
}

// Whether the error of the seek is returned, after one call.
fn fails_once(kind: ErrorKind) -> bool {
    let mut output = Unseekable { kind, seeks: 0 };
    let mut writer = CountingWriter::new(&mut output);
    let is_failed = match writer.rewind() {
        Err(Error::IoError(cause)) => cause.kind() == kind,
        _ => false,
    };
    let output = writer.into_inner();
    is_failed && output.seeks == 1
}

#[test]
fn one_seek_failed(rt: HostRuntime) {
    for kind in [ErrorKind::NotSeekable, ErrorKind::Interrupted] {
        assert!(rt; fails_once(kind));
    }
}
