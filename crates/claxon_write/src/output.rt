//! A writer with a buffer for bytes and interleaved samples.
ghost use Rattle.std.specs.Prelude.{
  ◌≡◌,
  ◌≤◌,
  ◌<◌,
  ◌+◌,
  ◌*◌,
  ◌-◌,
  ◌++◌,
  IfErr,
  OnOk,
  OnErr,
  [],
  length,
  take,
};
ghost use Rattle.claxon.specs.Error.{IsIo};
ghost use Rattle.claxon.specs.Streams.{duration_of};
ghost use Rattle.claxon_write.specs.Capacity.{capacity};
ghost use Rattle.claxon_write.specs.SampleBytes.{bytes_between};

use crate::counting_writer::CountingWriter;
use claxon::interleave::interleave;
use claxon::{Block, Result};
use std::alloc::Allocator;
use std::io::Write;

// The most bytes that are pending.
const CAPACITY: usize = 16384;

// The most samples per channel that fit in the buffer, for eight channels.
const MAX_PER_CHANNEL: usize = 512;

impl<'w, W: Write> CountingWriter<'w, W> {
    ghost use Rattle.claxon_write.specs.CountingWriter.{
      CountsFailedWrite,
      CountsNoFailure,
      CountsNoFlush,
      SameInner,
    };
    ghost use Rattle.claxon_write.specs.WriteWhole.{WritesAll, WritesPrefix};

    /// Writes all of the bytes.
    ///
    /// # Errors
    ///
    /// Those of `write_some`, `Interrupted` too. Then a prefix of the bytes was written.
    pub fn write_whole(&mut self, bytes: &[u8]) -> Result<()>
        ensures same_inner { SameInner self.old self.new }
        ensures writes_all { WritesAll W.contents bytes.now result self.old self.new }
        ensures writes_prefix { WritesPrefix W.contents bytes.now result self.old self.new }
        ensures io { IfErr result (λ error. IsIo error) }
        ensures succeeded { OnOk result (CountsNoFailure self.old self.new) }
        ensures failed { OnErr result (CountsFailedWrite self.old self.new) }
        ensures counts_no_flush { CountsNoFlush self.old self.new }
    {
        let mut at = 0;
        while at < bytes.len() {
            at += self.write_some(&bytes[at..])?;
        }
        Ok(())
    }
}

/// Bytes that are not written yet.
#[derive(Drop)]
struct Gathered {
    // The first `used` bytes are pending.
    bytes: [u8; CAPACITY],
    used: usize,
    ghost in_bounds: { used ≤ capacity },
}

impl Gathered {
    ghost use Rattle.claxon_write.specs.Written.{pending_in};

    fn pending(&self) -> &[u8]
        ensures value { result.now ≡ pending_in self.now }
        ensures few { length result.now ≤ capacity }
    {
        &self.bytes[..self.used]
    }

    // Adds as many of the bytes as fit, and returns their number.
    fn add_prefix(&mut self, bytes: &[u8]) -> usize
        requires not_full { length (pending_in self.old) < capacity }
        requires some { 0 < length bytes.now }
        ensures some { 0 < result }
        ensures most { result ≤ length bytes.now }
        ensures added { pending_in self.new ≡ pending_in self.old ++ take result bytes.now }
    {
        let count = bytes.len().min(CAPACITY - self.used);
        self.bytes[self.used..self.used + count].copy_from_slice(&bytes[..count]);
        self.used += count;
        count
    }

    // Adds the interchannel samples of a block from index `from` up to `to`, which take `size` bytes.
    fn add_samples<A: Allocator>(&mut self, block: &Block<A>, from: usize, to: usize, size: usize)
        requires order { from ≤ to }
        requires in_block { to ≤ duration_of block.now.channels }
        requires size { size ≡ (to - from) * (4 * length block.now.channels) }
        requires fits { length (pending_in self.old) + size ≤ capacity }
        ensures added { pending_in self.new ≡ pending_in self.old
            ++ bytes_between block.now.channels from to }
    {
        let end = self.used + size;
        interleave(block, from, to, &mut self.bytes[self.used..end]);
        self.used = end;
    }
}

/// A writer with a buffer of bytes that are gathered for it.
#[derive(Drop)]
pub struct Output<'w, W> {
    writer: CountingWriter<'w, W>,
    gathered: Gathered,
}

impl<'w, W: Write> Output<'w, W> {
    ghost use Rattle.claxon_write.specs.InnerWriter.{IsWriterOf, SameWriter};
    ghost use Rattle.claxon_write.specs.Output.{
      FlushFaultIsSound,
      FlushIsSound,
      IsNewOutput,
      PutFaultIsSound,
      PutIsSound,
      block_bytes,
    };
    ghost use Rattle.claxon_write.specs.Written.{
      OneFlushFailed,
      IsFlushed,
      IsUnflushed,
      KeepsContents,
      NonePending,
      NothingFailed,
      pending,
    };

    /// Borrows the writer. No bytes are gathered yet, and all counts are 0.
    pub fn new(inner: &'w mut W) -> Output<'w, W>
        ensures is_new_output { IsNewOutput inner.entry result }
    {
        Output {
            writer: CountingWriter::new(inner),
            gathered: Gathered {
                bytes: [0; CAPACITY],
                used: 0,
            },
        }
    }

    /// Returns the writer. Bytes that were gathered and not written are lost.
    pub fn into_inner(self) -> &'w mut W
        ensures is_writer_of { IsWriterOf self.entry result }
    {
        let Output {
            writer,
            gathered: _,
        } = self;
        writer.into_inner()
    }

    /// Writes all gathered bytes.
    ///
    /// # Errors
    ///
    /// An `IoError` if a write fails, or writes nothing. Then a prefix of the gathered bytes was written, and the others are
    /// lost.
    pub fn write_gathered(&mut self) -> Result<()>
        ensures same_writer { SameWriter self.old self.new }
        ensures none_pending { NonePending self.new }
        ensures is_unflushed { IsUnflushed self.old self.new }
        ensures is_sound { PutIsSound W.contents [] result self.old self.new }
        ensures fault_is_sound { PutFaultIsSound W.contents [] result self.old self.new }
    {
        let outcome = self.writer.write_whole(self.gathered.pending());
        self.gathered.used = 0;
        outcome
    }

    // Flushes the writer. Pending bytes stay pending.
    pub(crate) fn flush_writer(&mut self) -> Result<()>
        ensures same_writer { SameWriter self.old self.new }
        ensures pending { pending self.new ≡ pending self.old }
        ensures keeps_contents { KeepsContents W.contents self.old self.new }
        ensures io { IfErr result (λ error. IsIo error) }
        ensures succeeded { OnOk result (NothingFailed self.old self.new) }
        ensures failed { OnErr result (OneFlushFailed self.old self.new) }
        ensures is_flushed { IsFlushed self.old self.new }
    {
        self.writer.flush()
    }

    /// Writes all gathered bytes, and flushes the writer.
    ///
    /// # Errors
    ///
    /// Those of `write_gathered`, without a flush; or an `IoError` if the flush fails, after all bytes were written.
    pub fn flush(&mut self) -> Result<()>
        ensures same_writer { SameWriter self.old self.new }
        ensures none_pending { NonePending self.new }
        ensures is_sound { FlushIsSound W.contents result self.old self.new }
        ensures fault_is_sound { FlushFaultIsSound W.contents result self.old self.new }
    {
        self.write_gathered()?;
        self.flush_writer()
    }

    // Writes the gathered bytes if `size` more would not fit.
    fn reserve(&mut self, size: usize) -> Result<()>
        requires { size ≤ capacity }
        ensures same_writer { SameWriter self.old self.new }
        ensures fits { OnOk result (length (pending self.new) + size ≤ capacity) }
        ensures is_unflushed { IsUnflushed self.old self.new }
        ensures is_sound { PutIsSound W.contents [] result self.old self.new }
        ensures fault_is_sound { PutFaultIsSound W.contents [] result self.old self.new }
    {
        if CAPACITY - self.gathered.used < size {
            return self.write_gathered();
        }
        Ok(())
    }

    /// Gathers bytes, and writes whenever the buffer is full.
    ///
    /// # Errors
    ///
    /// Those of `write_gathered`.
    pub fn put(&mut self, bytes: &[u8]) -> Result<()>
        ensures same_writer { SameWriter self.old self.new }
        ensures is_unflushed { IsUnflushed self.old self.new }
        ensures is_sound { PutIsSound W.contents bytes.now result self.old self.new }
        ensures fault_is_sound { PutFaultIsSound W.contents bytes.now result self.old self.new }
    {
        let mut from = 0;
        while from < bytes.len() {
            self.reserve(1)?;
            from += self.gathered.add_prefix(&bytes[from..]);
        }
        Ok(())
    }

    /// Gathers the samples of a block, interleaved, each as four little-endian bytes.
    ///
    /// # Errors
    ///
    /// Those of `write_gathered`.
    #[tactic(auto, using(crate::proofs::BufferBounds::bytes_fit))]
    pub fn put_block<A: Allocator>(&mut self, block: &Block<A>) -> Result<()>
        ensures same_writer { SameWriter self.old self.new }
        ensures is_unflushed { IsUnflushed self.old self.new }
        ensures is_sound { PutIsSound W.contents (block_bytes block.now) result self.old self.new }
        ensures fault_is_sound { PutFaultIsSound W.contents (block_bytes block.now) result self.old
            self.new }
    {
        let duration = block.duration() as usize;
        let channels = block.channels() as usize;
        let mut from = 0;
        while from < duration {
            let count = MAX_PER_CHANNEL.min(duration - from);
            let size = count * (4 * channels);
            self.reserve(size)?;
            self.gathered.add_samples(block, from, from + count, size);
            from += count;
        }
        Ok(())
    }
}
