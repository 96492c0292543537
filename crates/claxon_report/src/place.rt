//! Places of a stream that aren't right, and what is wrong there.
use claxon_blocks::frames::FrameError;
use std::alloc::{Allocator, Global};

/// The places of a stream that aren't right, in order: the first ones.
#[derive(Debug, Drop)]
pub struct Places<A: Allocator = Global> {
    /// The first of them.
    pub first: Option<Place>,
    /// Those after it, as many as were wanted, and as there was memory for.
    pub more: Vec<Place, A>,
    /// How many are left out after them.
    pub left_out: u64,
}

/// A part of a stream that isn't right: from the first thing that is wrong to the next frame that goes on in order.
#[derive(Debug, Drop)]
pub struct Place {
    /// The byte at which it begins, modulo 2^64. The first byte of the stream is 0.
    pub start_byte: u64,
    /// The byte after it: that of the next frame, or the length of the stream.
    pub end_byte: u64,
    /// The number, in the stream that was encoded, of the sample that was due there.
    pub start_sample: u64,
    /// The number of the first sample after it; where the stream ends, how many samples the streaminfo says.
    pub end_sample: u64,
    /// What is wrong first.
    pub damage: Damage,
}

/// What is wrong in a place.
#[derive(Debug, Drop)]
pub enum Damage {
    /// No frame is decoded: what is wrong with the first.
    Fault(FrameError),
    /// Frames have this number of channels, which isn't that of the streaminfo.
    Channels(u32),
    /// Frames have this bit depth, which isn't that of the streaminfo.
    BitDepth(u32),
    /// Frames have this sample rate, which isn't that of the streaminfo.
    SampleRate(u32),
    /// Frames have another blocking strategy than the first frame.
    BlockingStrategy,
    /// Frames or samples are missing before a frame, or samples at the end.
    Missing(Gap),
    /// Frames are there once more.
    Repeated,
    /// Frames come before others that were due.
    OutOfOrder,
    /// Frames have a sample that doesn't fit in the bit depth.
    WideSample,
    /// Frames end after the last sample that the streaminfo says.
    Beyond,
}

/// A number of frames, or of samples of each channel where the block size is variable.
#[derive(Clone, Copy, Debug)]
pub struct Gap {
    /// How many there are.
    pub count: u64,
    /// They are samples.
    pub is_variable: bool,
}
