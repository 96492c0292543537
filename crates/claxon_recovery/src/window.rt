//! The next bytes of a source, in memory.
ghost use Rattle.std.specs.Prelude.{
  ◌≡◌,
  ◌+◌,
  ◌<◌,
  ◌≤◌,
  [],
  IfErr,
  IfOk,
  drop,
  length,
  vec_capacity,
  vec_len,
};

use claxon::input::ReadBytes;
use claxon::{Error, Result};
use std::alloc::Global;
use std::mem;

// How many bytes are read at once at most.
const MAX_READ: usize = 4096;

// The next bytes of a source.
#[derive(Drop)]
pub(crate) struct Window<R> {
    source: R,
    // How many bytes are kept at most.
    most: usize,
    // The bytes that were read; the first `taken` of them are passed.
    bytes: Vec<u8>,
    taken: usize,
    // Memory to which the pending bytes are moved when there is no room after them. Memory that wasn't written costs little.
    spare: Vec<u8>,
    ghost ordered: { taken ≤ vec_len bytes },
    ghost bounded: { most ≤ 4194304 },
    ghost room: { most + 4096 ≤ vec_capacity bytes },
    ghost spare_room: { most + 4096 ≤ vec_capacity spare },
}

impl<R: ReadBytes> Window<R> {
    ghost use Rattle.claxon_recovery.specs.Window.{
      FillIs,
      MoreIs,
      ReadsOn,
      ReadFails,
      most_pending,
      pending,
      window_source,
    };

    // Nothing was read so far, and so many bytes are kept at most.
    pub(crate) fn new(alloc: Global, source: R, most: usize) -> Result<Window<R>>
    where
        R: Drop,
        requires { most ≤ 4194304 }
        ensures source { IfOk result (λ w. window_source w ≡ source) }
        ensures most { IfOk result (λ w. most_pending w ≡ most) }
        ensures none_pending { IfOk result (λ w. pending w ≡ []) }
        ensures err { IfErr result (λ e. e ≡ Error.OutOfMemory) }
    {
        let capacity = most + MAX_READ;
        let bytes = Vec::with_capacity(alloc, capacity)?;
        let spare = Vec::with_capacity(alloc, capacity)?;
        Ok(Window {
            source,
            most,
            bytes,
            taken: 0,
            spare,
        })
    }

    // The bytes that were read and not passed.
    pub(crate) fn pending(&self) -> &[u8]
        ensures { result.now ≡ pending self.now }
    {
        &self.bytes.as_slice()[self.taken..]
    }

    // Passes so many of them.
    pub(crate) fn pass(&mut self, count: usize)
        requires { count ≤ length (pending self.old) }
        ensures pending { pending self.new ≡ drop count (pending self.old) }
        ensures source { window_source self.new ≡ window_source self.old }
        ensures most { most_pending self.new ≡ most_pending self.old }
    {
        self.taken += count;
    }

    // The source, from which the pending bytes were read.
    pub(crate) fn into_source(self) -> R
        ensures { result ≡ window_source self }
    {
        let Window {
            source,
            most: _,
            bytes: _,
            taken: _,
            spare: _,
        } = self;
        source
    }

    // Reads on until so many bytes are pending. Returns whether there were so many.
    pub(crate) fn fill(&mut self, wanted: usize) -> Result<bool>
        requires { wanted ≤ most_pending self.old }
        ensures ok { IfOk result (λ is_full. FillIs R.source wanted self.old self.new is_full) }
        ensures err { IfErr result (ReadFails R.source self.old self.new) }
        ensures most { most_pending self.new ≡ most_pending self.old }
    {
        while self.pending().len() < wanted {
            if !self.read_more()? {
                return Ok(false);
            }
        }
        Ok(true)
    }

    // Reads more bytes after those that are pending. Returns whether there were any.
    fn read_more(&mut self) -> Result<bool>
        requires { length (pending self.old) < most_pending self.old }
        ensures ok { IfOk result (λ more. MoreIs R.source self.old self.new more) }
        ensures err { IfErr result (ReadFails R.source self.old self.new) }
        ensures most { most_pending self.new ≡ most_pending self.old }
    {
        self.make_room();
        match self.source.read_u8_or_eof()? {
            Some(byte) => {
                self.bytes.push(byte)?;
                self.take_buffered()?;
                Ok(true)
            }
            None => Ok(false),
        }
    }

    // Makes room for a read after the pending bytes.
    fn make_room(&mut self)
        requires { length (pending self.old) < most_pending self.old }
        ensures pending { pending self.new ≡ pending self.old }
        ensures source { window_source self.new ≡ window_source self.old }
        ensures room { vec_len self.new.bytes + 4096 ≤ vec_capacity self.new.bytes }
        ensures most { most_pending self.new ≡ most_pending self.old }
    {
        if self.bytes.len() <= self.most {
            return;
        }
        self.spare.clear();
        let moved = self
            .spare
            .extend_from_slice(&self.bytes.as_slice()[self.taken..]);
        if moved.is_ok() {
            mem::swap(&mut self.bytes, &mut self.spare);
            self.taken = 0;
        }
    }

    // Moves what the source has buffered to the pending bytes, as far as there is room.
    fn take_buffered(&mut self) -> Result<()>
        requires { vec_len self.old.bytes + 4095 ≤ vec_capacity self.old.bytes }
        ensures ok { IfOk result (λ _. ReadsOn R.source self.old self.new) }
        ensures err { IfErr result (ReadFails R.source self.old self.new) }
        ensures most { most_pending self.new ≡ most_pending self.old }
    {
        let chunk = self.source.buffered();
        let count = chunk.len().min(MAX_READ - 1);
        self.bytes.extend_from_slice(&chunk[..count])?;
        self.source.skip(count as u32)?;
        Ok(())
    }
}
