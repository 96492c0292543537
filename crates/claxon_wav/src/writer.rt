//! Writing a WAV file.
ghost use Rattle.std.specs.Prelude.{◌≡◌, ◌≤◌, IfErr, OnErr, OnOk, replicate, vec_capacity};
ghost use Rattle.claxon.specs.Error.{IsIo};
ghost use Rattle.claxon_write.specs.CountingWriter.{
  CountsFailedWrite,
  CountsNoFailure,
  CountsNoFlush,
  SameInner,
};
ghost use Rattle.claxon_write.specs.WriteWhole.{WritesAll, WritesPrefix};
ghost use Rattle.claxon_wav.specs.DataSize.{max_data_size, max_header_size};

use crate::error::{Error, Result, of_output};
use crate::header::{Layout, MAX_DATA_SIZE};
use crate::samples::{pack, silence};
use claxon::Block;
use claxon_write::CountingWriter;
use std::alloc::{Allocator, Global};
use std::io::{Seek, Write};

/// A WAV file in an output, with the samples written so far.
#[derive(Drop)]
pub struct WavWriter<'w, W> {
    output: CountingWriter<'w, W>,
    layout: Layout,
    // The number of bytes of samples that the header announces, and the number written.
    announced: u32,
    written: u32,
    // These are kept to reuse their memory.
    header: Vec<u8>,
    interleaved: Vec<i32>,
    bytes: Vec<u8>,
    ghost announced_fits: { announced ≤ max_data_size },
    ghost written_fits: { written ≤ max_data_size },
    ghost header_has_room: { max_header_size ≤ vec_capacity header },
}

impl<'w, W: Write> WavWriter<'w, W> {
    ghost use Rattle.claxon_wav.specs.Writer.{
      BeginIsSound,
      FewWritesFailed,
      FailsToPad,
      FinishFaultIsSound,
      FinishFlushes,
      FinishStreamIsSound,
      IsNewWriter,
      IsOutputOf,
      KeepsRoom,
      PadIsSound,
      PutBlockFaultIsSound,
      PutBlockFaultKeeps,
      PutBlockFits,
      PutBlockHasMemory,
      PutBlockIsSound,
      PutBlockTakesRoom,
      PutSilenceFaultIsSound,
      PutSilenceFaultKeeps,
      PutSilenceIsSound,
      SameHeader,
      SameOutput,
      StartFaultIsSound,
      StartIsSound,
      StartUnknownIsSound,
      TriesToEndStream,
      Unflushed,
      samples_written,
    };

    /// Borrows the output, for a file of this layout. `header` is memory for the header, with capacity for `MAX_HEADER_SIZE`
    /// bytes. `start` or `start_unknown` comes next.
    pub fn new(
        alloc: Global,
        header: Vec<u8>,
        output: &'w mut W,
        layout: Layout,
    ) -> WavWriter<'w, W>
        requires has_room { max_header_size ≤ vec_capacity header }
        ensures is_new_writer { IsNewWriter layout output.entry result }
    {
        WavWriter {
            output: CountingWriter::new(output),
            layout,
            announced: 0,
            written: 0,
            header,
            interleaved: Vec::new(alloc),
            bytes: Vec::new(alloc),
        }
    }

    /// Returns the output.
    pub fn into_output(self) -> &'w mut W
        ensures is_output_of { IsOutputOf self.entry result }
    {
        let WavWriter {
            output,
            layout: _,
            announced: _,
            written: _,
            header: _,
            interleaved: _,
            bytes: _,
        } = self;
        output.into_inner()
    }

    /// Writes a header that announces this number of bytes of samples. If there are others, `finish` corrects it.
    pub fn start(&mut self, announced: u32) -> Result<()>
        requires { announced ≤ max_data_size }
        ensures same_output { SameOutput self.old self.new }
        ensures is_sound { StartIsSound W.contents announced result self.old self.new }
        ensures fault_is_sound { StartFaultIsSound result self.old self.new }
    {
        self.layout.put_header(announced, &mut self.header)?;
        self.begin(announced)
    }

    /// Writes a header for samples of unknown number. It is never corrected: `finish_stream` ends the file.
    pub fn start_unknown(&mut self) -> Result<()>
        ensures same_output { SameOutput self.old self.new }
        ensures is_sound { StartUnknownIsSound W.contents result self.old self.new }
        ensures fault_is_sound { StartFaultIsSound result self.old self.new }
    {
        self.layout.put_unknown_header(&mut self.header)?;
        self.begin(0)
    }

    // Writes the header, which announces this number of bytes.
    fn begin(&mut self, announced: u32) -> Result<()>
        requires { announced ≤ max_data_size }
        ensures same_output { SameOutput self.old self.new }
        ensures is_sound { BeginIsSound W.contents self.old.header.items announced result self.old
            self.new }
        ensures fault_is_sound { StartFaultIsSound result self.old self.new }
    {
        self.announced = announced;
        self.written = 0;
        of_output(self.output.write_whole(self.header.as_slice()))
    }

    /// Writes the samples of a block.
    ///
    /// # Errors
    ///
    /// `OtherChannels`, `WideSample`, `TooLong` or `OutOfMemory`, and then nothing was written. `Output` if a write fails, and
    /// then a prefix of the block's bytes was written. The samples of the block aren't counted. The memory for a block is kept:
    /// one that is no larger takes no more.
    pub fn put_block<A: Allocator>(&mut self, block: &Block<A>) -> Result<()>
        ensures same_output { SameOutput self.old self.new }
        ensures is_sound { PutBlockIsSound W.contents block.now result self.old self.new }
        ensures fits { PutBlockFits block.now result self.old }
        ensures fault_is_sound { PutBlockFaultIsSound block.now result self.old }
        ensures fault_keeps { PutBlockFaultKeeps W.contents block.now result self.old self.new }
        ensures same_header { SameHeader self.old self.new }
        ensures unflushed { Unflushed self.old self.new }
        ensures has_memory { PutBlockHasMemory block.now result self.old }
        ensures keeps_room { KeepsRoom self.old self.new }
        ensures takes_room { PutBlockTakesRoom block.now result self.new }
    {
        if block.channels() != self.layout.channels() {
            return Err(Error::OtherChannels);
        }
        let valid_bits = self.layout.valid_bits();
        pack(block, valid_bits, &mut self.interleaved, &mut self.bytes)?;
        let free = (MAX_DATA_SIZE - self.written) as usize;
        let size = self.bytes.len();
        if size > free {
            return Err(Error::TooLong);
        }
        of_output(self.output.write_whole(self.bytes.as_slice()))?;
        self.written += size as u32;
        Ok(())
    }

    /// Writes so many samples of silence per channel.
    ///
    /// # Errors
    ///
    /// `TooLong`, and then nothing was written. `Output` if a write fails, and then a part of the silence was written, and isn't
    /// counted.
    pub fn put_silence(&mut self, count: u64) -> Result<()>
        ensures same_output { SameOutput self.old self.new }
        ensures is_sound { PutSilenceIsSound W.contents count result self.old self.new }
        ensures fault_is_sound { PutSilenceFaultIsSound count result self.old }
        ensures fault_keeps { PutSilenceFaultKeeps W.contents count result self.old self.new }
        ensures same_header { SameHeader self.old self.new }
        ensures unflushed { Unflushed self.old self.new }
        ensures keeps_room { KeepsRoom self.old self.new }
    {
        let Some(size) = self.layout.data_size(count) else {
            return Err(Error::TooLong);
        };
        if size > MAX_DATA_SIZE - self.written {
            return Err(Error::TooLong);
        }
        let byte = silence(self.layout.sample_size() as usize) as u8;
        of_output(write_repeated(&mut self.output, byte, size))?;
        self.written += size;
        Ok(())
    }

    /// The number of samples per channel written so far.
    pub fn samples(&self) -> u32
        ensures { result ≡ samples_written self.now }
    {
        self.written / self.layout.block_align()
    }

    /// Finishes the file of an output that can't seek, so the header stays as it is. Where it announced the bytes that were
    /// written, the pad byte is written.
    pub fn finish_stream(&mut self) -> Result<()>
        ensures same_output { SameOutput self.old self.new }
        ensures is_sound { FinishStreamIsSound W.contents result self.old self.new }
        ensures flushes { FinishFlushes result self.old self.new }
        ensures fault_is_sound { FinishFaultIsSound result self.old self.new }
        ensures few_writes_failed { FewWritesFailed self.old self.new }
        ensures same_header { SameHeader self.old self.new }
        ensures tries_to_end { TriesToEndStream W.contents self.old self.new }
    {
        if self.written == self.announced {
            self.pad()?;
        }
        let flushed = self.output.flush();
        of_output(flushed)
    }

    // The pad byte after an odd number of bytes.
    fn pad(&mut self) -> Result<()>
        ensures same_output { SameOutput self.old self.new }
        ensures is_sound { PadIsSound W.contents result self.old self.new }
        ensures same_header { SameHeader self.old self.new }
        ensures count { self.new.written ≡ self.old.written }
        ensures err { IfErr result (FailsToPad self.old self.new) }
        ensures unflushed { Unflushed self.old self.new }
    {
        if self.written % 2 == 1 {
            of_output(self.output.write_whole(&[0]))?;
        }
        Ok(())
    }
}

impl<'w, W: Write + Seek> WavWriter<'w, W> {
    ghost use Rattle.claxon_wav.specs.Writer.{
      FewWritesFailed,
      FinishFaultIsSound,
      FinishFlushes,
      FinishIsSound,
      SameOutput,
      TriesToEnd,
      UpdateFaultIsSound,
      UpdateHeaderIsSound,
    };

    /// Finishes the file with the samples written so far. There is no seek if the header was right. After a failed write of the
    /// pad byte the header is corrected too.
    pub fn finish(&mut self) -> Result<()>
        ensures same_output { SameOutput self.old self.new }
        ensures is_sound { FinishIsSound W.contents W.stream_position result self.old self.new }
        ensures flushes { FinishFlushes result self.old self.new }
        ensures fault_is_sound { FinishFaultIsSound result self.old self.new }
        ensures few_writes_failed { FewWritesFailed self.old self.new }
        ensures tries_to_end { TriesToEnd W.contents self.old self.new }
    {
        let padded = self.pad();
        let updated = self.update_header();
        padded?;
        updated
    }

    fn update_header(&mut self) -> Result<()>
        ensures same_output { SameOutput self.old self.new }
        ensures is_sound { UpdateHeaderIsSound W.contents W.stream_position result self.old
            self.new }
        ensures flushes { FinishFlushes result self.old self.new }
        ensures fault_is_sound { UpdateFaultIsSound result self.old self.new }
    {
        if self.written != self.announced {
            self.layout.put_header(self.written, &mut self.header)?;
            of_output(self.output.rewind())?;
            of_output(self.output.write_whole(self.header.as_slice()))?;
            self.announced = self.written;
        }
        of_output(self.output.flush())
    }
}

// How many bytes of silence are written at once.
const SILENT_BYTES: usize = 4096;

// Writes this byte so many times.
fn write_repeated<W: Write>(
    output: &mut CountingWriter<'_, W>,
    byte: u8,
    size: u32,
) -> claxon::Result<()>
    ensures same_inner { SameInner output.old output.new }
    ensures writes_all { WritesAll W.contents (replicate size byte) result output.old output.new }
    ensures writes_prefix { WritesPrefix W.contents (replicate size byte) result output.old
        output.new }
    ensures io { IfErr result (λ error. IsIo error) }
    ensures succeeded { OnOk result (CountsNoFailure output.old output.new) }
    ensures failed { OnErr result (CountsFailedWrite output.old output.new) }
    ensures counts_no_flush { CountsNoFlush output.old output.new }
{
    let silent = [byte; SILENT_BYTES];
    let mut left = size as usize;
    while left > 0 {
        let count = left.min(SILENT_BYTES);
        output.write_whole(&silent[..count])?;
        left -= count;
    }
    Ok(())
}
