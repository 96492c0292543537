//! What joins verifying and seeking: the frames of a right stream are a timeline.
#![tactic(auto)]

ghost use Rattle.claxon_timelines.specs.RightTimelines.{
  RightStreamsAreSteady,
  RightStreamsAreTimelines,
};

/// The frames of a stream that `claxon_verify::verify` finds right are a timeline, as the clauses of `claxon_stream_seek::Clock`
/// take it: each begins in the byte where the one before it ends, and at as many samples as those before it have, and is numbered
/// by one of the two ways of the format. So the clock tells the time of frames that are read in turn, whatever their sizes. The
/// frames have fewer than 2^64 samples.
pub fn right_streams_are_timelines()
    ensures are_timelines { RightStreamsAreTimelines }
{}

/// Where the block size of a right stream is fixed, and no other than the streaminfo's, its frames are steady, as the clauses of
/// `Clock` on frames that weren't noted in turn take it.
pub fn right_streams_are_steady()
    ensures are_steady { RightStreamsAreSteady }
{}
