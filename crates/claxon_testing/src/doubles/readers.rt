//! A reader that fails once.
use std::io::{self, ErrorKind, Read};

/// Gives a fixed number of bytes per read. After some reads one fails, and consumes none.
#[derive(Clone, Copy)]
pub struct FailsOnce<'a> {
    bytes: &'a [u8],
    piece: usize,
    reads_left: u32,
    failure: Option<ErrorKind>,
}

impl<'a> FailsOnce<'a> {
    /// Gives `piece` bytes per read. After `reads` reads one fails like this.
    pub fn new(bytes: &'a [u8], piece: usize, reads: u32, failure: ErrorKind) -> FailsOnce<'a> {
        FailsOnce {
            bytes,
            piece,
            reads_left: reads,
            failure: Some(failure),
        }
    }
}

impl Read for FailsOnce<'_> {
    fn read(&mut self, buf: &mut [u8]) -> io::Result<usize> {
        if self.reads_left == 0
            && let Some(kind) = self.failure.take()
        {
            return Err(io::Error::from(kind));
        }
        self.reads_left = self.reads_left.saturating_sub(1);
        let count = self.piece.min(self.bytes.len()).min(buf.len());
        let (prefix, rest) = self.bytes.split_at(count);
        buf[..count].copy_from_slice(prefix);
        self.bytes = rest;
        Ok(count)
    }
}
