//! Readers that keep a value of what they read, such as its CRC.
ghost use Rattle.std.specs.Prelude.{
  ◌≡◌,
  ℕ,
  ◌<◌,
  ◌≤◌,
  List,
  ◌∷◌,
  ◌++◌,
  IfOk,
};
ghost use Rattle.claxon_input.specs.Source.{with_value};
ghost use Rattle.claxon_input.specs.ReadBytes.{BytesFailureOrEof, SomeAreSkipped};

use crate::input::ReadBytes;
use std::io;

/// A value of the bytes that were read so far, such as their CRC or their number, which each byte updates.
pub trait Running: Copy + Drop {
    /// A number that stands for the value after more bytes.
    ghost update: { Self → List ℕ → ℕ };

    /// The value of no bytes.
    ghost start: { Self };

    /// The value of no bytes.
    fn zero() -> Self
        ensures { result ≡ start };

    /// The value after one more byte.
    fn next(self, byte: u8) -> Self
        ensures { (more : List ℕ) → update result more ≡ update self (byte ∷ more) };

    /// The value after more bytes.
    fn after(self, bytes: &[u8]) -> Self
        ensures { (more : List ℕ) → update result more ≡ update self (bytes.now ++ more) };
}

/// A reader that keeps a value of what it reads.
#[derive(Drop)]
pub struct RunningReader<R, S> {
    inner: R,
    state: S,
}

impl<R: ReadBytes, S: Running> RunningReader<R, S> {
    ghost use Rattle.claxon_input.specs.RunningReader.{
      running_source,
      running_inner,
      running_value,
    };

    /// Wraps the reader. Nothing was read so far.
    pub fn new(inner: R) -> RunningReader<R, S>
        ensures source { running_source R.source S.update result
            ≡ with_value (S.update S.start) (R.source inner) }
        ensures state { running_value result ≡ S.start }
        ensures inner { running_inner result ≡ inner }
    {
        RunningReader {
            inner,
            state: S::zero(),
        }
    }

    /// Wraps the reader. What was read so far has this value.
    #[inline(always)]
    pub fn resume(inner: R, value: S) -> RunningReader<R, S>
        ensures source { running_source R.source S.update result
            ≡ with_value (S.update value) (R.source inner) }
        ensures value { running_value result ≡ value }
        ensures inner { running_inner result ≡ inner }
    {
        RunningReader {
            inner,
            state: value,
        }
    }

    /// The value of what was read so far.
    pub fn value(&self) -> S
        ensures { result ≡ running_value self.now }
    {
        let RunningReader { state, .. } = self;
        *state
    }

    // Consumes at most this many bytes, buffered ones or a single one, and returns how many.
    #[inline(always)]
    fn skip_some(&mut self, most: u32) -> io::Result<u32>
        requires { 0 < most }
        ensures some { IfOk result (λ n. 0 < n) }
        ensures bound { IfOk result (λ n. n ≤ most) }
        ensures are_skipped { SomeAreSkipped (running_source R.source S.update) self.old result
            self.new }
        ensures failure_or_eof { BytesFailureOrEof (running_source R.source S.update) most
            self.old result self.new }
    {
        let bytes = self.inner.buffered();
        let count = bytes.len().min(most as usize);
        if count == 0 {
            self.read_u8()?;
            return Ok(1);
        }
        let state = self.state.after(&bytes[..count]);
        self.inner.skip(count as u32)?;
        self.state = state;
        Ok(count as u32)
    }
}

impl<R: ReadBytes, S: Running> ReadBytes for RunningReader<R, S> {
    ghost use Rattle.claxon_input.specs.RunningReader.{running_source};

    ghost source = { running_source R.source S.update };

    #[inline(always)]
    fn read_u8(&mut self) -> io::Result<u8> {
        let byte = self.inner.read_u8()?;
        self.state = self.state.next(byte);
        Ok(byte)
    }

    fn read_u8_or_eof(&mut self) -> io::Result<Option<u8>> {
        let found = self.inner.read_u8_or_eof()?;
        if let Some(byte) = found {
            self.state = self.state.next(byte);
        }
        Ok(found)
    }

    fn read_into(&mut self, buffer: &mut [u8]) -> io::Result<()> {
        self.inner.read_into(buffer)?;
        self.state = self.state.after(buffer);
        Ok(())
    }

    fn skip(&mut self, amount: u32) -> io::Result<()> {
        let mut left = amount;
        while left > 0 {
            left -= self.skip_some(left)?;
        }
        Ok(())
    }

    #[inline(always)]
    fn buffered(&self) -> &[u8] {
        self.inner.buffered()
    }

    #[inline(always)]
    fn next_buffered(&mut self) -> Option<u8> {
        let byte = self.inner.next_buffered()?;
        self.state = self.state.next(byte);
        Some(byte)
    }
}
