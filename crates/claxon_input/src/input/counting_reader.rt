//! A reader that counts its failed reads, by which an `IoError` is excused.
//!
//! Nothing outside this module can change the counts. That `read` asks the wrapped reader, and just once, no clause can say: these
//! few lines have to be read.
ghost use Rattle.std.specs.Prelude.{◌≡◌, ◌<◌, length};
ghost use Rattle.std.specs.Io.{ReadsAtMost};
ghost use Rattle.claxon_input.specs.CountingReader.{
  CountsRead,
  NothingIsCounted,
  ReadConsumesInner,
  counted_inner,
};

use std::io;
use std::io::Read;

/// A reader, and how many of its reads failed and how many gave no bytes. The counts wrap.
#[derive(Drop)]
pub struct CountingReader<R> {
    inner: R,
    errors: u64,
    empty_reads: u64,
}

impl<R: io::Read> CountingReader<R> {
    /// Wraps the reader. All counts are 0.
    pub fn new(inner: R) -> CountingReader<R>
        ensures inner { counted_inner result ≡ inner }
        ensures nothing_is_counted { NothingIsCounted result }
    {
        CountingReader {
            inner,
            errors: 0,
            empty_reads: 0,
        }
    }

    /// Gives the wrapped reader back.
    pub fn into_inner(self) -> R
        ensures { result ≡ counted_inner self }
    {
        self.inner
    }

    /// Reads into the buffer, as the wrapped reader does, and counts a read that fails or gives no bytes. A buffer with no room
    /// would count as a read of no bytes, so there has to be some.
    pub fn read(&mut self, buf: &mut [u8]) -> io::Result<usize>
        requires { 0 < length buf.old }
        ensures reads_at_most { ReadsAtMost result buf.new }
        ensures consumes_inner { ReadConsumesInner R.remaining self.old result self.new buf.new }
        ensures counts_read { CountsRead self.old result self.new }
    {
        match self.inner.read(buf) {
            Ok(0) => {
                self.empty_reads = self.empty_reads.wrapping_add(1);
                Ok(0)
            }
            Ok(n) => Ok(n),
            Err(cause) => {
                self.errors = self.errors.wrapping_add(1);
                Err(cause)
            }
        }
    }
}
