//! Writers that fail, or count.
ghost use Rattle.std.specs.Prelude.{◌≤◌};

use std::io;
use std::io::{ErrorKind, Write};

/// A writer for up to 512 bytes. It takes a limited number of bytes per call, and fails from some write on, and perhaps at each
/// flush.
#[derive(Drop)]
pub struct Sink {
    bytes: [u8; 512],
    used: usize,
    most: usize,
    writes_left: u32,
    fails_at_flush: bool,
    kind: ErrorKind,
    flushes: u32,
    ghost in_bounds: { used ≤ 512 },
}

impl Sink {
    /// Takes at most `most` bytes per write, and `writes_left` writes before one fails. Failures are of this kind.
    pub const fn new(most: usize, writes_left: u32, fails_at_flush: bool, kind: ErrorKind) -> Sink {
        Sink {
            bytes: [0; 512],
            used: 0,
            most,
            writes_left,
            fails_at_flush,
            kind,
            flushes: 0,
        }
    }

    /// The bytes that it took.
    pub fn written(&self) -> &[u8] {
        &self.bytes[..self.used]
    }

    /// The number of flushes.
    pub fn flushes(&self) -> u32 {
        self.flushes
    }
}

impl Write for Sink {
    fn write(&mut self, buf: &[u8]) -> io::Result<usize> {
        if self.writes_left == 0 {
            return Err(io::Error::from(self.kind));
        }
        self.writes_left -= 1;
        let count = buf.len().min(self.most).min(512 - self.used);
        self.bytes[self.used..self.used + count].copy_from_slice(&buf[..count]);
        self.used += count;
        Ok(count)
    }

    fn flush(&mut self) -> io::Result<()> {
        self.flushes = self.flushes.wrapping_add(1);
        if self.fails_at_flush {
            return Err(io::Error::from(self.kind));
        }
        Ok(())
    }
}

/// A writer that keeps no byte. One write fails, and its calls are counted.
#[derive(Drop)]
pub struct FailsAtOneWrite {
    writes_left: u32,
    failure: Option<ErrorKind>,
    pub writes: u32,
    pub flushes: u32,
}

impl FailsAtOneWrite {
    /// After `writes` writes one fails like this.
    pub const fn new(writes: u32, failure: ErrorKind) -> FailsAtOneWrite {
        FailsAtOneWrite {
            writes_left: writes,
            failure: Some(failure),
            writes: 0,
            flushes: 0,
        }
    }
}

impl Write for FailsAtOneWrite {
    fn write(&mut self, buf: &[u8]) -> io::Result<usize> {
        self.writes = self.writes.wrapping_add(1);
        if self.writes_left == 0
            && let Some(kind) = self.failure.take()
        {
            return Err(io::Error::from(kind));
        }
        self.writes_left = self.writes_left.saturating_sub(1);
        Ok(buf.len())
    }

    fn flush(&mut self) -> io::Result<()> {
        self.flushes = self.flushes.wrapping_add(1);
        Ok(())
    }
}

/// A writer that keeps no byte, and counts them.
#[derive(Drop)]
pub struct ByteCounter {
    pub bytes: u64,
}

impl Write for ByteCounter {
    fn write(&mut self, buf: &[u8]) -> io::Result<usize> {
        self.bytes = self.bytes.wrapping_add(buf.len() as u64);
        Ok(buf.len())
    }

    fn flush(&mut self) -> io::Result<()> {
        Ok(())
    }
}
