//! The parts of a stream.

use claxon::Error;
use claxon::frame::{BlockInfo, DecodedFrame};
use claxon_blocks::frames::FirstBytes;

/// A part of a stream.
#[derive(Drop)]
pub enum Part {
    /// A frame of the stream.
    Frame(FrameThere),
    /// Bytes that are no frame, up to the next one or to the end.
    Damage(Damage),
}

/// A frame of the stream, and where it is. Positions are modulo 2^64.
#[derive(Drop)]
pub struct FrameThere {
    /// The position of its first byte.
    pub start: u64,
    /// The position after its last byte.
    pub end: u64,
    /// The frame.
    pub frame: DecodedFrame,
}

/// Bytes that are no frame of the stream. Positions are modulo 2^64.
#[derive(Debug, Drop)]
pub struct Damage {
    /// The position of the first byte.
    pub start: u64,
    /// The position after the last byte: the next frame begins there, or the stream ends.
    pub end: u64,
    /// Why no frame begins at the first byte.
    pub cause: Cause,
    /// At how many positions it wasn't searched whether a frame begins, modulo 2^64.
    pub unsearched: u64,
    /// The first bytes.
    pub first: FirstBytes,
    /// Whether each byte is 0.
    pub are_zeros: bool,
}

/// Why no frame of the stream begins at a byte.
#[derive(Debug, Drop)]
pub enum Cause {
    /// The bytes have a fault, which the decoder's error names.
    Fault(Error),
    /// There is the header of a frame that has another number of channels or another bit depth than the streaminfo.
    OtherFormat(BlockInfo),
    /// The stream ends within what may be a frame, or after one byte.
    Cut,
    /// The first bytes don't tell, and no more are kept: 512 KiB, or as many as a verbatim frame of the largest block may have.
    TooLong,
}
