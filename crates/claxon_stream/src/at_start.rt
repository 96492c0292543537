//! The frame that bytes begin with, and what its header says.
ghost use Rattle.std.specs.Prelude.{◌≡◌, ◌≤◌, IfSome, length, vec_capacity};
ghost use Rattle.std.specs.Option.{option_map};
ghost use Rattle.std.specs.Io.Cursor.{cursor_inner, cursor_position};
ghost use Rattle.claxon.specs.Cursor.{cursor_left};
ghost use Rattle.claxon.specs.ShownHead.{HasBitDepth};
ghost use Rattle.claxon.specs.FrameReader.{frame_input, frame_stream, stream_with};
ghost use Rattle.claxon_stream.specs.DecodedAtStart.{DecodedAtStart, SamplesAreSaid};

use claxon::frame::{DecodedFrameResult, FrameReader};
use claxon::metadata::StreamInfo;
use claxon_seek::header_at_start;
use std::io::Cursor;

// The frame that the bytes begin with, and in `taken` the number of bytes of it or of its fault.
pub(crate) fn frame_at_start(
    buffer: Vec<i32>,
    bytes: &[u8],
    known: Option<StreamInfo>,
    taken: &mut usize,
) -> DecodedFrameResult
    requires { IfSome known (λ info. HasBitDepth info) }
    ensures at_start { DecodedAtStart (option_map stream_with known) bytes.now
        (vec_capacity buffer) result taken.new }
    ensures within { taken.new ≤ length bytes.now }
{
    let mut frames = frames_of(bytes, known);
    let found = frames.read_next_with_info_or_eof(buffer);
    *taken = bytes.len().saturating_sub(left_in(&frames.into_inner()));
    found
}

// The number of samples, of all channels, that the header says with which the bytes begin; 0 if none is there.
pub(crate) fn samples_said(bytes: &[u8], known: Option<StreamInfo>) -> u64
    requires { IfSome known (λ info. HasBitDepth info) }
    ensures are_said { SamplesAreSaid (option_map stream_with known) bytes.now result }
{
    match header_at_start(bytes, known) {
        Ok(Some(header)) => {
            let info = header.info();
            u64::from(info.channels) * u64::from(info.duration)
        }
        Ok(None) => 0,
        Err(_) => 0,
    }
}

// A reader of the frames in the bytes.
fn frames_of(bytes: &[u8], known: Option<StreamInfo>) -> FrameReader<Cursor<&[u8]>>
    requires { IfSome known (λ info. HasBitDepth info) }
    ensures position { cursor_position (frame_input result) ≡ 0 }
    ensures inner { cursor_inner (frame_input result) ≡ bytes.entry }
    ensures stream { frame_stream result ≡ option_map stream_with known }
{
    let input = Cursor::new(bytes);
    match known {
        Some(info) => FrameReader::with_streaminfo(input, info),
        None => FrameReader::new(input),
    }
}

// The number of bytes that it hasn't given.
fn left_in(input: &Cursor<&[u8]>) -> usize
    ensures { result ≡ cursor_left (λ slice. slice.now) input.now }
{
    input
        .get_ref()
        .len()
        .saturating_sub(input.position() as usize)
}
