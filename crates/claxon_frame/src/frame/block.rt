//! Blocks: the samples of a frame.
ghost use Rattle.std.specs.Prelude.{
  Some,
  ◌≡◌,
  ◌<◌,
  ◌≤◌,
  ◌*◌,
  [],
  length,
  slice_get,
  vec_capacity,
  IfSome,
};
ghost use Rattle.std.specs.Iterator.{YieldsFirst, item_count};
ghost use Rattle.claxon_frame.specs.Block.{AreOfLength, BlockValue, chunks, joined};
ghost use Rattle.claxon_format.specs.Streams.{duration_of};
ghost use Rattle.claxon_frame.specs.Decorrelation.{remaining_pairs};

use std::alloc::{Allocator, Global};
use std::marker::Model;

/// The samples of a frame: channels of equal length, and their time in the stream.
#[derive(Drop)]
pub struct Block<A: Allocator = Global> {
    time: u64,
    channels: u32,
    duration: u32,
    buffer: Vec<i32, A>,
}

impl<A: Allocator> Model for Block<A> {
    ghost use Rattle.std.specs.Prelude.{◌≡◌, ◌<◌, ◌≤◌, ◌*◌, length, vec_capacity};
    ghost use Rattle.claxon_frame.specs.Block.{BlockValue, chunks};

    ghost Value = { BlockValue };

    ghost view = { λ b. record {
      time = b.time;
      channels = chunks b.channels b.duration b.buffer.items;
      capacity = vec_capacity b.buffer;
    } };

    ghost invariant = { λ b. (length b.buffer.items ≡ b.channels * b.duration) × (b.channels ≤ 8)
        × (b.duration < 65536) × (b.channels ≡ 0 → b.duration ≡ 0) };
}

impl<A: Allocator> Block<A> {
    // The buffer holds the channels one after another.
    pub(super) fn new(time: u64, channels: u32, duration: u32, buffer: Vec<i32, A>) -> Block<A>
        requires whole { length buffer.items ≡ channels * duration }
        requires some { 1 ≤ channels }
        requires few { channels ≤ 8 }
        requires short { duration < 65536 }
        ensures channels { length result.channels ≡ channels }
        ensures duration { duration_of result.channels ≡ duration }
        ensures fits { channels * duration ≤ result.capacity }
        ensures value { result ≡ record {
          time = time;
          channels = chunks channels duration buffer.items;
          capacity = vec_capacity buffer;
        } }
    {
        Block {
            time,
            channels,
            duration,
            buffer,
        }
    }

    /// A block at time 0 with no channel and no sample.
    pub fn empty(alloc: A) -> Block<A>
        ensures { result ≡ record { time = 0; channels = []; capacity = 0 } }
    {
        Block {
            time: 0,
            channels: 0,
            duration: 0,
            buffer: Vec::new(alloc),
        }
    }

    /// The number of samples of each channel before this block. Divided by the sample rate it is a time in seconds.
    pub fn time(&self) -> u64
        ensures { result ≡ self.now.time }
    {
        self.time
    }

    /// The number of all samples: channels times duration.
    pub fn len(&self) -> u32
        ensures { result ≡ length self.now.channels * duration_of self.now.channels }
    {
        self.channels * self.duration
    }

    /// The number of samples of each channel. Divided by the sample rate it is a duration in seconds.
    pub fn duration(&self) -> u32
        ensures value { result ≡ duration_of self.now.channels }
        ensures are_of_length { AreOfLength result self.now.channels }
        ensures short { result < 65536 }
    {
        self.duration
    }

    /// The number of channels.
    pub fn channels(&self) -> u32
        ensures value { result ≡ length self.now.channels }
        ensures few { result ≤ 8 }
    {
        self.channels
    }

    /// The samples of a channel. The first one is channel 0.
    pub fn channel(&self, ch: u32) -> &[i32]
        requires { ch < length self.now.channels }
        ensures samples { slice_get self.now.channels ch ≡ Some result.now }
        ensures len { length result.now ≡ duration_of self.now.channels }
    {
        let start = ch as usize * self.duration as usize;
        let end = start + self.duration as usize;
        &self.buffer[start..end]
    }

    /// A sample of a channel. Channels and samples are counted from 0.
    pub fn sample(&self, ch: u32, sample: u32) -> i32
        requires channel { ch < length self.now.channels }
        requires place { sample < duration_of self.now.channels }
        ensures { IfSome (slice_get self.now.channels ch)
            (λ samples. slice_get samples sample ≡ Some result) }
    {
        self.channel(ch)[sample as usize]
    }

    /// The samples of all channels, one channel after another.
    pub fn into_buffer(self) -> Vec<i32, A>
        ensures items { result.items ≡ joined self.channels }
        ensures capacity { vec_capacity result ≡ self.capacity }
    {
        let Block {
            time: _,
            channels: _,
            duration: _,
            buffer,
        } = self;
        buffer
    }

    /// The pairs of samples of the first and the second channel: `duration()` many.
    pub fn stereo_samples(&self) -> StereoSamples<'_>
        requires { length self.now.channels ≡ 2 }
        ensures left { slice_get self.now.channels 0 ≡ Some result.left.now }
        ensures right { slice_get self.now.channels 1 ≡ Some result.right.now }
        ensures count { length (remaining_pairs result) ≡ duration_of self.now.channels }
    {
        StereoSamples {
            left: self.channel(0),
            right: self.channel(1),
        }
    }
}

/// An iterator over the stereo pairs of a block.
#[derive(Drop)]
pub struct StereoSamples<'a> {
    left: &'a [i32],
    right: &'a [i32],
}

impl Iterator for StereoSamples<'_> {
    type Item = (i32, i32);

    ghost next_gives = { YieldsFirst remaining_pairs };

    ghost remaining = { item_count remaining_pairs };

    fn next(&mut self) -> Option<(i32, i32)> {
        let (left, left_rest) = self.left.split_first()?;
        let (right, right_rest) = self.right.split_first()?;
        self.left = left_rest;
        self.right = right_rest;
        Some((*left, *right))
    }
}
