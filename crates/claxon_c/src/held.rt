//! Bytes of a stream that the caller holds and hands in.
ghost use Rattle.std.specs.Prelude.{◌≡◌, ◌↔◌, ◌+◌, IsTrue, length};
ghost use Rattle.claxon_stream.specs.HeadDecoder.{PositionFits};
ghost use Rattle.claxon_c.specs.HeldBytes.{PositionIsReported, frame_bytes, frame_end, is_full};

use crate::status::{UNSUPPORTED, put_text};
use claxon_stream::held_from;

// Positions are those of a file: less than this.
const MAX_POSITION: u64 = 1 << 63;

// The greatest number of bytes of a frame that a streaminfo can give, in 24 bits.
pub(crate) const MAX_FRAME_BYTES: usize = 0xff_ffff;

// Whether bytes that stand at this position end within the positions of a file.
pub(crate) fn position_fits(at: u64, bytes: &[u8]) -> bool
    ensures { IsTrue result ↔ PositionFits (at + length bytes.now) }
{
    (bytes.len() as u64) < MAX_POSITION.saturating_sub(at)
}

// Says that they don't.
pub(crate) fn report_position(error: &mut [u8]) -> u32
    ensures is_reported { PositionIsReported result error.old error.new }
{
    put_text("positions from 2^63 on are not supported", error);
    UNSUPPORTED
}

// The bytes up to as many as a frame at this position may have.
pub(crate) fn bytes_of_a_frame(bytes: &[u8], at: u64, position: u64) -> &[u8]
    ensures { result.now ≡ frame_bytes at position bytes.now }
{
    let held = held_from(bytes, at, position).len();
    &bytes[..bytes.len() - held.saturating_sub(MAX_FRAME_BYTES)]
}

// Whether they are that many.
pub(crate) fn is_full(bytes: &[u8], at: u64, position: u64) -> bool
    ensures { result ≡ is_full at position bytes.now }
{
    held_from(bytes, at, position).len() >= MAX_FRAME_BYTES
}

// Whether a frame at this position ends with them, or not at all: 0 if it may go on.
pub(crate) fn end_of_a_frame(bytes: &[u8], at: u64, position: u64, is_end: u32) -> u32
    ensures { result ≡ frame_end at position bytes.now is_end }
{
    if is_full(bytes, at, position) {
        1
    } else {
        is_end
    }
}
