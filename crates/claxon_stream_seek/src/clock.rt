//! Where a block begins in time.
ghost use Rattle.std.specs.Prelude.{◌≡◌, ◌↔◌, IsTrue};
ghost use Rattle.claxon_stream_seek.specs.Clock.{
  counted_after,
  one_block_size,
  shown_time,
  time_after,
};

mod kept;

use claxon::frame::BlockInfo;
use claxon::metadata::StreamInfo;
pub use kept::KeptClock;

// What coded numbers count.
#[derive(Clone, Copy, Debug)]
enum Counted {
    NotKnown,
    // Samples of each channel, as encoders wrote them before the header had a bit for a variable block size.
    Samples,
    // Frames, whose blocks have one size, but for the last.
    Blocks,
    // Frames, whose blocks have more than one size.
    VaryingBlocks,
    // Samples of each channel, where the bit for a variable block size says so. Nothing is known of other frames.
    VariableBlocks,
}

/// At which sample blocks begin, by the frames that were noted.
///
/// `Block.time` is the coded number of a frame, times the size of its own block where the header says that sizes are fixed and
/// the streaminfo says that they aren't. So it is wrong of a shorter last block, of each frame where numbers count samples
/// although that bit says otherwise, and of a stream that changes its block size. A clock knows better by two frames, one after
/// another.
///
/// C keeps it as a `KeptClock`.
#[derive(Clone, Copy, Debug)]
pub struct Clock {
    // Whether a frame was noted: the last one has this coded number and so many samples of each channel, and ends there.
    has_frame: bool,
    // Whether the sample is known at which the next one begins.
    has_time: bool,
    counted: Counted,
    duration: u32,
    number: u64,
    end: u64,
    time: u64,
    // The number of samples of each channel of a block, if frames are counted.
    block_size: u32,
}

impl Clock {
    ghost use Rattle.claxon_stream_seek.specs.Clock.{
      HasLast,
      IsLearnt,
      IsLearntBy,
      NeedsFrames,
      NoteKeepsOrder,
      NoteKeepsRight,
      NoteKnowsUnit,
      NoteKnowsVariable,
      StartsRightOf,
      TimeIsExact,
      TimeIsInOrder,
      TimeIsKnown,
      clock_time,
      follows,
      time_by_number,
    };

    /// Nothing is known but what the streaminfo says: if it has one block size, that is believed until frames say otherwise.
    pub fn new(known: Option<StreamInfo>) -> Clock
        ensures starts_right { StartsRightOf known result }
    {
        let block_size = one_block_size(known);
        Clock {
            has_frame: false,
            has_time: false,
            counted: if block_size > 0 {
                Counted::Blocks
            } else {
                Counted::NotKnown
            },
            duration: 0,
            number: 0,
            end: 0,
            time: 0,
            block_size,
        }
    }

    /// Whether it isn't known what the coded numbers count. The first two frames of a stream show it, and one frame where the block
    /// size is variable.
    pub fn needs_frames(&self) -> bool
        ensures { IsTrue result ↔ NeedsFrames self.now }
    {
        match self.counted {
            Counted::NotKnown => true,
            Counted::Samples => false,
            Counted::Blocks => false,
            Counted::VaryingBlocks => false,
            Counted::VariableBlocks => false,
        }
    }

    /// The sample of each channel at which the block begins of a frame at this position of the stream; None where that isn't
    /// known.
    ///
    /// It is known of each frame after those that were noted, one after another from the first; where the block size is
    /// variable; and after a seek too, once two frames that follow one another were noted, unless these show that the block size
    /// changes.
    pub fn time(&self, at: u64, frame: &BlockInfo) -> Option<u64>
        ensures is_exact { TimeIsExact self.now at frame.now result }
        ensures is_known { TimeIsKnown self.now at frame.now result }
        ensures is_in_order { TimeIsInOrder self.now at frame.now result }
        ensures is { result ≡ clock_time self.now at frame.now }
    {
        if frame.is_variable {
            return Some(frame.number);
        }
        if frame.number == 0 {
            return Some(0);
        }
        if self.has_time && self.follows(at, frame) {
            return Some(self.time);
        }
        self.time_by_number(frame.number)
    }

    /// The sample to show as the first of a frame's block, of which `Block.time` is `said`: that is kept where the streaminfo has
    /// one block size, or the clock doesn't know better.
    pub fn shown_time(
        &self,
        known: Option<StreamInfo>,
        at: u64,
        frame: &BlockInfo,
        said: u64,
    ) -> u64
        ensures is_shown { result ≡ shown_time self.now known at frame.now said }
    {
        if one_block_size(known) == 0 {
            self.time(at, frame).unwrap_or(said)
        } else {
            said
        }
    }

    fn time_by_number(&self, number: u64) -> Option<u64>
        ensures { result ≡ time_by_number self.now.counted number self.now.block_size }
    {
        match self.counted {
            Counted::Samples => Some(number),
            Counted::Blocks => number.checked_mul(u64::from(self.block_size)),
            Counted::NotKnown => None,
            Counted::VaryingBlocks => None,
            Counted::VariableBlocks => None,
        }
    }

    /// Notes a frame that was decoded: from this position of the stream up to the one after its last byte.
    pub fn note(&mut self, at: u64, end: u64, frame: &BlockInfo)
        ensures keeps_right { NoteKeepsRight at end frame.now self.old self.new }
        ensures keeps_order { NoteKeepsOrder at end frame.now self.old self.new }
        ensures knows_unit { NoteKnowsUnit at end frame.now self.old self.new }
        ensures knows_variable { NoteKnowsVariable frame.now self.new }
    {
        let time = self.time(at, frame);
        let learnt = self.learnt_by(at, frame);
        *self = learnt.with_last(end, frame, time_after(time, frame.duration));
    }

    // After what a frame at this position shows of what numbers count.
    fn learnt_by(self, at: u64, frame: &BlockInfo) -> Clock
        ensures { IsLearntBy at frame.now self result }
    {
        if frame.is_variable {
            return Clock {
                counted: Counted::VariableBlocks,
                ..self
            };
        }
        if !self.follows(at, frame) {
            return self;
        }
        self.learnt(frame.number)
    }

    // With this frame as the last one, and the sample after it, if that is known.
    fn with_last(self, end: u64, frame: &BlockInfo, after: Option<u64>) -> Clock
        ensures { HasLast end frame.now after self result }
    {
        Clock {
            has_frame: true,
            has_time: after.is_some(),
            counted: self.counted,
            duration: frame.duration,
            number: frame.number,
            end,
            time: after.unwrap_or(0),
            block_size: self.block_size,
        }
    }

    // Whether a frame at this position is the next one after the last.
    fn follows(&self, at: u64, frame: &BlockInfo) -> bool
        ensures { result ≡ follows self.now at frame.now }
    {
        let step = frame.number.saturating_sub(self.number);
        self.has_frame && at == self.end && (step == 1 || step == u64::from(self.duration))
    }

    // After what the number shows of the frame that follows the last one.
    fn learnt(self, number: u64) -> Clock
        ensures { IsLearnt number self result }
    {
        let mut learnt = self;
        if self.duration == 1 {
            return learnt;
        }
        if number.saturating_sub(self.number) != 1 {
            learnt.counted = Counted::Samples;
            return learnt;
        }
        learnt.counted = counted_after(self.counted, self.block_size, self.duration);
        learnt.block_size = self.duration;
        learnt
    }
}

// What numbers count, where they count frames and a block that isn't the last has this size.
fn counted_after(counted: Counted, block_size: u32, duration: u32) -> Counted
    ensures { result ≡ counted_after counted block_size duration }
{
    match counted {
        Counted::NotKnown => Counted::Blocks,
        Counted::Samples => Counted::Blocks,
        Counted::Blocks if block_size == duration => Counted::Blocks,
        Counted::Blocks => Counted::VaryingBlocks,
        Counted::VaryingBlocks => Counted::VaryingBlocks,
        Counted::VariableBlocks => Counted::Blocks,
    }
}

// The sample after a block of so many.
fn time_after(time: Option<u64>, duration: u32) -> Option<u64>
    ensures { result ≡ time_after time duration }
{
    match time {
        Some(time) => time.checked_add(u64::from(duration)),
        None => None,
    }
}

// The block size of the streaminfo, if it has just one; else 0.
fn one_block_size(known: Option<StreamInfo>) -> u32
    ensures { result ≡ one_block_size known }
{
    match known {
        Some(info) if info.min_block_size == info.max_block_size => u32::from(info.min_block_size),
        Some(_) => 0,
        None => 0,
    }
}
