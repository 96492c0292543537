//! What comes next in a stream.

use claxon::Error;
use claxon::frame::DecodedFrame;

/// What comes next in a stream.
#[derive(Drop)]
pub enum Event {
    /// A frame: its block, and what its header says.
    Decoded(DecodedFrame),
    /// The stream ends after the last frame, or fewer than two bytes later.
    End,
    /// There is no frame.
    Faulty(StreamFault),
    /// The stream ends within the frame that begins at this position.
    Cut(u64),
    /// Nothing can be said before more bytes are handed in.
    ReadOn(NeededBytes),
}

/// What a search for a frame finds.
#[derive(Drop)]
pub enum FindEvent {
    /// The position of a frame of the stream, and the frame.
    Found(u64, DecodedFrame),
    /// The stream ends, and there is none up to its end.
    NotFound,
    /// Nothing can be said before more bytes are handed in.
    ReadOn(NeededBytes),
}

/// Why there is no frame, or no head.
#[derive(Debug, Drop)]
pub struct StreamFault {
    /// The position at which the frame, or the marker or the metadata block of the head, should begin.
    pub position: u64,
    /// A `FormatError` or `Unsupported`.
    pub error: Error,
}

/// Which bytes are needed before a call can answer more.
#[derive(Clone, Copy, Debug)]
pub struct NeededBytes {
    /// The position in the stream of the first of them. Those before it aren't needed any more.
    pub position: u64,
    /// How many they are at least, unless the stream ends before.
    pub count: usize,
}
