//! The sample that is sought.
ghost use Rattle.std.specs.Prelude.{◌≡◌, ◌↔◌, IsTrue};
ghost use Rattle.claxon_seek.specs.Find.{HasFormat};

use crate::clock::Clock;
use claxon::frame::BlockInfo;
use claxon::metadata::StreamInfo;

// A sample of each channel, in a stream of this clock, from the first frame on.
#[derive(Clone, Copy, Debug)]
pub(crate) struct Sought {
    pub(crate) clock: Clock,
    pub(crate) sample: u64,
    pub(crate) first_frame: u64,
}

impl Sought {
    ghost use Rattle.claxon_stream_seek.specs.Sought.{HasSample, start_of};

    // The sample at which the block begins of a frame at this position.
    pub(crate) fn start_of(&self, at: u64, info: &BlockInfo) -> u64
        ensures { result ≡ start_of self.now at info.now }
    {
        match self.clock.time(at, info) {
            Some(time) => time,
            None => info.time,
        }
    }

    // Whether the block of a frame at this position has the sample.
    pub(crate) fn is_in(&self, at: u64, info: &BlockInfo) -> bool
        ensures { IsTrue result ↔ HasSample self.now at info.now }
    {
        let start = self.start_of(at, info);
        start <= self.sample && self.sample - start < u64::from(info.duration)
    }
}

// Whether the header has the number of channels and the bit depth of the streaminfo, if that is known.
pub(crate) fn has_format(info: &BlockInfo, known: Option<StreamInfo>) -> bool
    ensures { IsTrue result ↔ HasFormat known info.now }
{
    match known {
        Some(stream) => {
            info.channels == stream.channels && info.bit_depth == stream.bits_per_sample
        }
        None => true,
    }
}
