//! A writer whose failed calls and flushes are counted.
//!
//! Only the calls here reach the writer, and only they change the counts. Their few lines have to be read, since clauses don't
//! refuse all that could go wrong in them: a failure might be counted though the writer wasn't called, a call be made again after
//! an Err that wasn't counted, and a flush be counted that never was. Std says of a flush, and of an Err, only that what the
//! writer holds stays.
ghost use Rattle.std.specs.Prelude.{◌≡◌, ◌<◌, IfErr, OnErr, OnOk, length};
ghost use Rattle.claxon.specs.Error.{IsIo};
ghost use Rattle.claxon_write.specs.CountingWriter.{inner_writer};

use claxon::{Error, Result};
use std::io;
use std::io::{ErrorKind, Seek, Write};

/// A writer that counts its failed calls and its flushes. The counts wrap.
pub struct CountingWriter<'w, W> {
    inner: &'w mut W,
    failed_writes: u64,
    failed_flushes: u64,
    failed_seeks: u64,
    // The number of flushes, and whether the last call was one.
    flushes: u64,
    is_flushed: bool,
}

impl<'w, W> Drop for CountingWriter<'w, W> {
    fn drop(self)
        ensures { self.exit.0.now ≡ inner_writer self.entry }
    {
        let CountingWriter {
            inner: _,
            failed_writes: _,
            failed_flushes: _,
            failed_seeks: _,
            flushes: _,
            is_flushed: _,
        } = self;
    }
}

impl<'w, W: Write> CountingWriter<'w, W> {
    ghost use Rattle.claxon_write.specs.CountingWriter.{
      CountsFailedFlush,
      CountsFailedWrite,
      CountsFlush,
      CountsNoFailure,
      CountsOtherCall,
      IsInnerOf,
      IsNewCountingWriter,
      KeepsInner,
      SameInner,
      WritesSome,
    };

    /// Borrows the writer. All counts are 0.
    pub fn new(inner: &'w mut W) -> CountingWriter<'w, W>
        ensures is_new_counting_writer { IsNewCountingWriter inner.entry result }
    {
        CountingWriter {
            inner,
            failed_writes: 0,
            failed_flushes: 0,
            failed_seeks: 0,
            flushes: 0,
            is_flushed: false,
        }
    }

    /// Returns the writer.
    pub fn into_inner(self) -> &'w mut W
        ensures is_inner_of { IsInnerOf self.entry result }
    {
        let CountingWriter {
            inner: writer,
            failed_writes: _,
            failed_flushes: _,
            failed_seeks: _,
            flushes: _,
            is_flushed: _,
        } = self;
        writer
    }

    /// Writes some of the bytes, at least one, and returns their number. It is the only call of the writer's `write`.
    ///
    /// # Errors
    ///
    /// An `IoError` if the write fails, or writes nothing.
    pub fn write_some(&mut self, bytes: &[u8]) -> Result<usize>
        requires some { 0 < length bytes.now }
        ensures same_inner { SameInner self.old self.new }
        ensures writes_some { WritesSome W.contents bytes.now result self.old self.new }
        ensures kept { OnErr result (KeepsInner W.contents self.old self.new) }
        ensures io { IfErr result (λ error. IsIo error) }
        ensures succeeded { OnOk result (CountsNoFailure self.old self.new) }
        ensures failed { OnErr result (CountsFailedWrite self.old self.new) }
        ensures counts_other_call { CountsOtherCall self.old self.new }
    {
        self.is_flushed = false;
        match self.inner.write(bytes) {
            Ok(0) => {
                self.failed_writes = self.failed_writes.wrapping_add(1);
                Err(Error::IoError(io::Error::from(ErrorKind::WriteZero)))
            }
            Ok(count) => Ok(count),
            Err(error) => {
                self.failed_writes = self.failed_writes.wrapping_add(1);
                Err(Error::IoError(error))
            }
        }
    }

    /// Flushes the writer. It is the only call of the writer's `flush`.
    ///
    /// # Errors
    ///
    /// An `IoError` if the flush fails.
    pub fn flush(&mut self) -> Result<()>
        ensures same_inner { SameInner self.old self.new }
        ensures keeps_inner { KeepsInner W.contents self.old self.new }
        ensures io { IfErr result (λ error. IsIo error) }
        ensures succeeded { OnOk result (CountsNoFailure self.old self.new) }
        ensures failed { OnErr result (CountsFailedFlush self.old self.new) }
        ensures counts_flush { CountsFlush self.old self.new }
    {
        self.flushes = self.flushes.wrapping_add(1);
        self.is_flushed = true;
        match self.inner.flush() {
            Ok(()) => Ok(()),
            Err(error) => {
                self.failed_flushes = self.failed_flushes.wrapping_add(1);
                Err(Error::IoError(error))
            }
        }
    }
}

impl<'w, W: Write + Seek> CountingWriter<'w, W> {
    ghost use Rattle.claxon_write.specs.CountingWriter.{
      CountsFailedSeek,
      CountsNoFailure,
      CountsOtherCall,
      RewindKeepsBytes,
      RewindMovesToStart,
      SameInner,
    };

    /// Seeks to the start. It is the only seek: a caller that chose the position could make one fail.
    ///
    /// # Errors
    ///
    /// An `IoError` if the seek fails.
    pub fn rewind(&mut self) -> Result<()>
        ensures same_inner { SameInner self.old self.new }
        ensures moves_to_start { RewindMovesToStart W.stream_position result self.old self.new }
        ensures keeps_bytes { RewindKeepsBytes W.stream_bytes self.old self.new }
        ensures io { IfErr result (λ error. IsIo error) }
        ensures succeeded { OnOk result (CountsNoFailure self.old self.new) }
        ensures failed { OnErr result (CountsFailedSeek self.old self.new) }
        ensures counts_other_call { CountsOtherCall self.old self.new }
    {
        self.is_flushed = false;
        if let Err(error) = self.inner.rewind() {
            self.failed_seeks = self.failed_seeks.wrapping_add(1);
            return Err(Error::IoError(error));
        }
        Ok(())
    }
}
