//! A reader that counts the bytes that it gives.
use std::cell::Cell;
use std::io::{self, Read};
use std::rc::Rc;

/// A reader that adds the number of bytes that it gives to a counter, modulo 2^64.
#[derive(Drop)]
pub(crate) struct CountedReader<R> {
    inner: R,
    count: Rc<Cell<u64>>,
}

impl<R> CountedReader<R> {
    /// Wraps the reader.
    pub(crate) fn new(inner: R, count: Rc<Cell<u64>>) -> CountedReader<R> {
        CountedReader { inner, count }
    }
}

impl<R: Read> Read for CountedReader<R> {
    ghost remaining = { λ reader. R.remaining reader.inner };

    fn read(&mut self, buf: &mut [u8]) -> io::Result<usize> {
        let read = self.inner.read(buf);
        if let Ok(bytes) = &read {
            self.count.set(self.count.get().wrapping_add(*bytes as u64));
        }
        read
    }
}
