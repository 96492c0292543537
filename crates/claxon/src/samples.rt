//! Samples one by one.
ghost use Rattle.std.specs.Prelude.{◌≡◌, ◌≤◌, ◌<◌, ◌∷◌, true, false, IfOk, IsTrue, length, Some};
ghost use Rattle.claxon_format.specs.Streams.{duration_of};

use crate::error::Result;
use crate::input::ReadBytes;
use claxon_frame::frame::{Block, FrameReader};
use claxon_metadata::metadata::StreamInfo;
use std::alloc::{Allocator, Global};
use std::mem;

/// An iterator over interleaved samples: for each sample index of a block the sample of each channel, then the next
/// block.
///
/// After an error it returns None for good. After None it asks the reader again. A block is read into the buffer of the
/// one before it, where that has capacity for it.
#[derive(Drop)]
pub struct FlacSamples<R, A: Allocator = Global> {
    frame_reader: FrameReader<R>,
    block: Block<A>,

    // The index, and the channel, of the next sample.
    sample: u32,
    channel: u32,
    has_failed: bool,
    alloc: A,
    ghost in_block: { sample ≤ duration_of block.channels },
    ghost in_place: { sample < duration_of block.channels → channel < length block.channels },
}

impl<R: ReadBytes, A: Allocator + Copy> FlacSamples<R, A> {
    ghost use Rattle.std.specs.Prelude.{[]};
    ghost use Rattle.claxon_format.specs.Streams.{interleave};
    ghost use Rattle.claxon.specs.FlacReader.{samples_input};
    ghost use Rattle.claxon_frame.specs.FrameReader.{
      BlockKeepsCapacity,
      MaxCapacityIsEnough,
      stream_with,
    };
    ghost use Rattle.claxon.specs.FlacSamples.{
      NextBlock,
      NextSample,
      NextBlockIsRead,
      OutOfMemoryForLargerBlock,
      block_answer,
      have_failed,
      samples_left,
      samples_capacity,
      samples_stream,
    };

    /// The samples of the frames of the stream with this streaminfo, whose bits per sample are 1 to 32.
    pub fn new(alloc: A, input: R, info: StreamInfo) -> FlacSamples<R, A>
        requires min_bit_depth { 1 ≤ info.bits_per_sample }
        requires max_bit_depth { info.bits_per_sample ≤ 32 }
        ensures input { samples_input result ≡ input }
        ensures stream { samples_stream result ≡ Some (stream_with info) }
        ensures none_left { samples_left result ≡ [] }
        ensures goes_on { have_failed result ≡ false }
    {
        FlacSamples {
            frame_reader: FrameReader::with_streaminfo(input, info),
            block: Block::empty(alloc),
            sample: 0,
            channel: 0,
            has_failed: false,
            alloc,
        }
    }

    // Reads the next block into the buffer of the last one. Returns whether there was one.
    fn read_block(&mut self) -> Result<bool>
        ensures more { IfOk result
            (λ more. IsTrue more → self.new.sample < duration_of self.new.block.channels) }
        ensures stream { samples_stream self.new ≡ samples_stream self.old }
        ensures has_failed { have_failed self.new ≡ have_failed self.old }
        ensures is_read { NextBlockIsRead R.source self.old result self.new }
        ensures out_of_memory_for_larger_block { OutOfMemoryForLargerBlock R.source self.old
            (block_answer result self.new) self.new }
        ensures max_capacity_is_enough { MaxCapacityIsEnough (samples_capacity self.old)
            (block_answer result self.new) }
        ensures keeps_capacity { BlockKeepsCapacity (samples_capacity self.old)
            (block_answer result self.new) }
        ensures none_left { IfOk result (λ more. more ≡ false → samples_left self.new ≡ []) }
        ensures left { IfOk result
            (λ more. more ≡ true → samples_left self.new ≡ interleave self.new.block.channels) }
    {
        self.sample = 0;
        self.channel = 0;
        let last = mem::replace(&mut self.block, Block::empty(self.alloc));
        match self.frame_reader.read_next_or_eof(last.into_buffer())? {
            Some(block) => {
                self.block = block;
                Ok(true)
            }
            None => Ok(false),
        }
    }

    // The next sample of the current block, or else the first one of the next block.
    fn next_sample(&mut self) -> Option<Result<i32>>
        requires { have_failed self.old ≡ false }
        ensures next_sample { NextSample R.source self.old result self.new }
    {
        if self.sample < self.block.duration() {
            return Some(Ok(self.give()));
        }
        self.first_of_next_block()
    }

    // Reads the next block, and gives its first sample.
    fn first_of_next_block(&mut self) -> Option<Result<i32>>
        requires { have_failed self.old ≡ false }
        ensures stream { samples_stream self.new ≡ samples_stream self.old }
        ensures next_block { NextBlock R.source self.old result self.new }
    {
        match self.read_block() {
            Ok(more) => { if more { Some(Ok(self.give())) } else { None } }
            Err(error) => {
                self.has_failed = true;
                Some(Err(error))
            }
        }
    }

    // Gives the next sample of the current block.
    fn give(&mut self) -> i32
        requires { self.old.sample < duration_of self.old.block.channels }
        ensures stream { self.new.frame_reader ≡ self.old.frame_reader }
        ensures capacity { samples_capacity self.new ≡ samples_capacity self.old }
        ensures has_failed { have_failed self.new ≡ have_failed self.old }
        ensures sample { samples_left self.old ≡ result ∷ samples_left self.new }
    {
        let sample = self.block.sample(self.channel, self.sample);
        let (channels, duration) = (self.block.channels(), self.block.duration());
        let in_block = self.sample < duration;
        prove!(in_block);
        if self.channel + 1 < channels {
            self.channel += 1;
        } else {
            self.channel = 0;
            self.sample += 1;
        }
        sample
    }
}

impl<R: ReadBytes + Drop, A: Allocator + Copy> Iterator for FlacSamples<R, A> {
    ghost use Rattle.claxon.specs.FlacSamples.{SamplesStep};

    type Item = Result<i32>;

    ghost next_gives = { SamplesStep R.source };

    fn next(&mut self) -> Option<Result<i32>> {
        if self.has_failed {
            return None;
        }
        self.next_sample()
    }
}
