//! Whether a frame is the one that is due.
ghost use Rattle.std.specs.Prelude.{◌≡◌};
ghost use Rattle.claxon.specs.MetadataBlock.{info_view};
ghost use Rattle.claxon_report.specs.Places.{
  due_after,
  first_sample,
  has_strategy,
  is_beyond,
  other_stream,
  rate_or,
};

use crate::place::Damage;
use claxon::frame::BlockInfo;
use claxon::metadata::StreamInfo;

/// What the next frame of a stream has to be.
#[derive(Clone, Copy)]
pub struct Due {
    /// Whether the block size is variable; None before the first frame.
    pub is_variable: Option<bool>,
    /// The coded number, modulo 2^64.
    pub number: u64,
    /// The number of its first sample, in the stream that was encoded, modulo 2^64.
    pub sample: u64,
}

/// What is known of a frame that was decoded.
#[derive(Clone, Copy)]
pub struct FoundFrame {
    /// What its header says.
    pub header: BlockInfo,
    /// How many samples of each channel it has.
    pub duration: u32,
    /// Whether they fit in the bit depth of the streaminfo.
    pub fits: bool,
}

impl Due {
    /// Why a frame isn't one of this stream; None if it is.
    pub(crate) fn other_stream(self, info: &StreamInfo, frame: &FoundFrame) -> Option<Damage>
        ensures is_other_stream { result ≡ other_stream (info_view info.now) self frame.now }
    {
        let header = frame.header;
        if header.channels != info.channels {
            return Some(Damage::Channels(header.channels));
        }
        if header.bit_depth != info.bits_per_sample {
            return Some(Damage::BitDepth(header.bit_depth));
        }
        let rate = rate_of(info, &header);
        if rate != info.sample_rate {
            return Some(Damage::SampleRate(rate));
        }
        if !self.has_strategy(&header) {
            return Some(Damage::BlockingStrategy);
        }
        if !frame.fits {
            return Some(Damage::WideSample);
        }
        if self.is_beyond(info, frame) {
            return Some(Damage::Beyond);
        }
        None
    }

    // Whether a frame has the blocking strategy of the frames before it.
    fn has_strategy(self, header: &BlockInfo) -> bool
        ensures { result ≡ has_strategy self.is_variable header.now.is_variable }
    {
        match self.is_variable {
            Some(true) => header.is_variable,
            Some(false) => !header.is_variable,
            None => true,
        }
    }

    // Whether fewer samples are due up to the last one that the streaminfo says than a frame has.
    fn is_beyond(self, info: &StreamInfo, frame: &FoundFrame) -> bool
        ensures { result ≡ is_beyond (info_view info.now) self frame.now }
    {
        let samples = info.samples.unwrap_or(0);
        let duration = u64::from(frame.duration);
        samples != 0 && self.sample <= samples && self.sample.wrapping_add(duration) > samples
    }

    /// The number of a frame's first sample, as its coded number tells where it isn't the one that is due.
    pub(crate) fn first_sample(self, info: &StreamInfo, header: &BlockInfo) -> u64
        ensures { result ≡ first_sample (info_view info.now) self header.now }
    {
        if header.number == self.number {
            return self.sample;
        }
        if header.is_variable {
            return header.number;
        }
        header.number.wrapping_mul(u64::from(info.max_block_size))
    }

    /// What the next frame has to be after this one of the stream.
    pub(crate) fn after(self, info: &StreamInfo, frame: &FoundFrame) -> Due
        ensures { result ≡ due_after (info_view info.now) self frame.now }
    {
        let header = &frame.header;
        let duration = u64::from(frame.duration);
        let step = if header.is_variable { duration } else { 1 };
        Due {
            is_variable: Some(header.is_variable),
            number: header.number.wrapping_add(step),
            sample: self.first_sample(info, header).wrapping_add(duration),
        }
    }
}

// The sample rate of a frame, which is that of the streaminfo where its header gives none.
fn rate_of(info: &StreamInfo, header: &BlockInfo) -> u32
    ensures { result ≡ rate_or header.now.sample_rate info.now.sample_rate }
{
    match header.sample_rate {
        Some(rate) => rate,
        None => info.sample_rate,
    }
}
