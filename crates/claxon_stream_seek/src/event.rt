//! What a seek answers.

use claxon::frame::DecodedFrame;
use claxon_stream::NeededBytes;

/// What a seek answers.
#[derive(Drop)]
pub enum SeekEvent {
    /// A frame whose block has the sample.
    Found(SoughtFrame),
    /// No frame from the first one on has it.
    NotFound,
    /// None was found, and headers were passed over, as very much work had led to no frame.
    OverBudget,
    /// Nothing can be said before these bytes are handed in.
    ReadOn(NeededBytes),
}

/// A frame whose block has the sample.
#[derive(Drop)]
pub struct SoughtFrame {
    /// Its position in the stream.
    pub position: u64,
    /// The position after its last byte.
    pub end: u64,
    /// The sample of each channel at which its block begins: by the clock, or as the header says where the clock doesn't know.
    pub time: u64,
    /// Its block, and what its header says.
    pub frame: DecodedFrame,
}
