//! The frames of a stream whose bytes the caller holds and hands in.
ghost use Rattle.std.specs.Prelude.{◌≡◌, ◌+◌, IfSome, length};
ghost use Rattle.std.specs.Option.{option_map};
ghost use Rattle.claxon.specs.FrameReader.{stream_with};
ghost use Rattle.claxon.specs.ShownHead.{HasBitDepth};
ghost use Rattle.claxon_stream.specs.FrameDecoder.{IsFromPosition};
ghost use Rattle.claxon_stream.specs.HeadDecoder.{PositionFits};
ghost use Rattle.claxon_c.specs.Frames.{
  CFrameIsAnswered,
  CFrameLargerIsTold,
  CFrameTooFarIsUnsupported,
  FramesBegin,
  FramesWait,
  IsBlockOrStatus,
  IsLargerHeader,
  NextFrame,
  NextLargerIsTold,
  last_frame,
  needed_by,
  needed_frames,
};
ghost use Rattle.claxon_c.specs.NextBlock.{InterleavedArePut, PlanarArePut};

use crate::frame::ClaxonFrame;
use crate::heads::ClaxonInfo;
use crate::held::{bytes_of_a_frame, end_of_a_frame, is_full, position_fits, report_position};
use crate::interleave::put_interleaved;
use crate::next_block::{ClaxonBlock, has_larger};
use crate::planar::put_planar;
use crate::status::{
    BUFFER_TOO_SMALL, FORMAT_ERROR, INPUT_ENDS, NEED_MORE, NO_MORE, OK, put_text, report,
};
use claxon::Block;
use claxon::frame::BlockInfo;
use claxon::metadata::StreamInfo;
use claxon_seek::header_at_start;
use claxon_stream::{Event, FrameDecoder, held_from};
use std::alloc::Global;

/// The frames of a stream, one after another.
#[repr(C)]
#[derive(Clone, Copy)]
pub struct ClaxonFrames {
    pub(crate) decoder: FrameDecoder,
    /// After `NEED_MORE` how many bytes are needed at least, from the decoder's position on; else 0.
    pub needed: usize,
    /// The frame that was decoded last.
    pub last: ClaxonFrame,
}

/// Begins with the frame at this position of the stream.
#[unsafe(no_mangle)]
pub extern "C" fn claxon_frames_start(frames: &mut ClaxonFrames, position: u64)
    ensures begin { FramesBegin position frames.new }
{
    *frames = ClaxonFrames {
        decoder: FrameDecoder::new(position),
        needed: 0,
        last: ClaxonFrame::none(),
    };
}

/// Goes on from another position, as after damage. What tries in vain cost is kept, so that the time stays linear.
#[unsafe(no_mangle)]
pub extern "C" fn claxon_frames_go_on(frames: &mut ClaxonFrames, position: u64)
    ensures from_position { IsFromPosition frames.old.decoder position frames.new.decoder }
    ensures needed { frames.new.needed ≡ 0 }
    ensures last { frames.new.last ≡ frames.old.last }
{
    *frames = ClaxonFrames {
        decoder: frames.decoder.from_position(position),
        needed: 0,
        last: frames.last,
    };
}

/// Decodes the next frame into interleaved samples, by the bytes that are held: from the position `at` of the stream on, and up to
/// its end if `is_end` isn't 0. A frame with more bytes than a streaminfo can give is a fault.
#[unsafe(no_mangle)]
pub extern "C" fn claxon_frames_next(
    alloc: Global,
    frames: &mut ClaxonFrames,
    bytes: &[u8],
    at: u64,
    is_end: u32,
    info: &ClaxonInfo,
    samples: &mut [i32],
    block: &mut ClaxonBlock,
    error: &mut [u8],
) -> u32
    ensures is_answered { CFrameIsAnswered info.now at bytes.now is_end InterleavedArePut
        frames.old result frames.new samples.old samples.new block.old block.new
        error.old error.new }
    ensures larger_is_told { CFrameLargerIsTold info.now at bytes.now frames.old result
        samples.old }
    ensures too_far_is_unsupported { CFrameTooFarIsUnsupported at bytes.now frames.old result
        frames.new samples.old samples.new block.old block.new error.old error.new }
{
    if !position_fits(at, bytes) {
        return report_position(error);
    }
    if is_waiting(frames, bytes, at, is_end) {
        return NEED_MORE;
    }
    let capacity = samples.len();
    match next_frame(
        alloc, frames, bytes, at, is_end, info, capacity, block, error,
    ) {
        Ok(found) => {
            put_interleaved(&found, samples);
            OK
        }
        Err(status) => status,
    }
}

/// As `claxon_frames_next`, with the samples of one channel after those of another.
#[unsafe(no_mangle)]
pub extern "C" fn claxon_frames_next_planar(
    alloc: Global,
    frames: &mut ClaxonFrames,
    bytes: &[u8],
    at: u64,
    is_end: u32,
    info: &ClaxonInfo,
    samples: &mut [i32],
    block: &mut ClaxonBlock,
    error: &mut [u8],
) -> u32
    ensures is_answered { CFrameIsAnswered info.now at bytes.now is_end PlanarArePut
        frames.old result frames.new samples.old samples.new block.old block.new
        error.old error.new }
    ensures larger_is_told { CFrameLargerIsTold info.now at bytes.now frames.old result
        samples.old }
    ensures too_far_is_unsupported { CFrameTooFarIsUnsupported at bytes.now frames.old result
        frames.new samples.old samples.new block.old block.new error.old error.new }
{
    if !position_fits(at, bytes) {
        return report_position(error);
    }
    if is_waiting(frames, bytes, at, is_end) {
        return NEED_MORE;
    }
    let capacity = samples.len();
    match next_frame(
        alloc, frames, bytes, at, is_end, info, capacity, block, error,
    ) {
        Ok(found) => {
            put_planar(found, samples);
            OK
        }
        Err(status) => status,
    }
}

// Whether nothing can be said yet, and how many bytes are needed then. Most calls answer that where bytes come one by one.
fn is_waiting(frames: &mut ClaxonFrames, bytes: &[u8], at: u64, is_end: u32) -> bool
    requires fits { PositionFits (at + length bytes.now) }
    ensures { FramesWait at bytes.now is_end frames.old result frames.new }
{
    let mut decoder = frames.decoder;
    let position = decoder.position();
    let window = bytes_of_a_frame(bytes, at, position);
    let ends = end_of_a_frame(bytes, at, position, is_end);
    match decoder.waits(window, at, ends != 0) {
        Some(needed) => {
            *frames = needed_frames(decoder, needed.count, frames.last);
            true
        }
        None => false,
    }
}

// The block of the next frame, if the capacity suffices for its samples. Else the status.
#[inline(never)]
fn next_frame(
    alloc: Global,
    frames: &mut ClaxonFrames,
    bytes: &[u8],
    at: u64,
    is_end: u32,
    info: &ClaxonInfo,
    capacity: usize,
    block: &mut ClaxonBlock,
    error: &mut [u8],
) -> Result<Block, u32>
    requires fits { PositionFits (at + length bytes.now) }
    ensures next_frame { NextFrame info.now at bytes.now is_end capacity frames.old result
        frames.new block.old block.new error.old error.new }
    ensures larger_is_told { NextLargerIsTold info.now at bytes.now capacity frames.old result }
{
    let known = info.known_stream();
    let mut decoder = frames.decoder;
    let position = decoder.position();
    let rest = held_from(bytes, at, position);
    if let Some(said) = larger_header(rest, known, capacity) {
        *block = ClaxonBlock::from_header(&said);
        return Err(BUFFER_TOO_SMALL);
    }
    let window = bytes_of_a_frame(bytes, at, position);
    let ends = end_of_a_frame(bytes, at, position, is_end);
    let event = decoder.decode_next(Vec::new(alloc), window, at, ends != 0, known);
    let last = last_frame(&event, position, decoder.position(), frames.last);
    *frames = needed_frames(decoder, needed_by(&event), last);
    block_or_status(event, is_full(bytes, at, position), block, error)
}

// What the header says that the bytes begin with, if its block has more samples than the capacity.
fn larger_header(bytes: &[u8], known: Option<StreamInfo>, capacity: usize) -> Option<BlockInfo>
    requires { IfSome known (λ info. HasBitDepth info) }
    ensures { IsLargerHeader (option_map stream_with known) bytes.now capacity result }
{
    match header_at_start(bytes, known) {
        Ok(Some(header)) => {
            let said = header.info();
            if has_larger(&said, capacity) {
                Some(said)
            } else {
                None
            }
        }
        Ok(None) => None,
        Err(_) => None,
    }
}

// How many bytes are needed after this event.
fn needed_by(event: &claxon::Result<Event>) -> usize
    ensures { result ≡ needed_by event.now }
{
    match event {
        Ok(Event::ReadOn(needed)) => needed.count,
        _ => 0,
    }
}

// The frame of this event, between these positions. Else the one before.
fn last_frame(
    event: &claxon::Result<Event>,
    position: u64,
    end: u64,
    last: ClaxonFrame,
) -> ClaxonFrame
    ensures { result ≡ last_frame event.now position end last }
{
    match event {
        Ok(Event::Decoded(frame)) => ClaxonFrame::new(position, end, &frame.info),
        _ => last,
    }
}

// The block of a frame, whose properties are shown. Else the status, and the text of a fault. A frame that doesn't end in as many bytes
// as it may have has one.
fn block_or_status(
    event: claxon::Result<Event>,
    is_full: bool,
    block: &mut ClaxonBlock,
    error: &mut [u8],
) -> Result<Block, u32>
    ensures { IsBlockOrStatus is_full block.old block.new error.old error.new event result }
{
    match event {
        Ok(Event::Decoded(frame)) => {
            *block = ClaxonBlock::from_header(&frame.info);
            Ok(frame.block)
        }
        Ok(Event::End) => Err(NO_MORE),
        Ok(Event::Faulty(fault)) => Err(report(&fault.error, error)),
        Ok(Event::Cut(_)) if is_full => {
            put_text("frame longer than 16777215 bytes", error);
            Err(FORMAT_ERROR)
        }
        Ok(Event::Cut(_)) => {
            put_text("the bytes end", error);
            Err(INPUT_ENDS)
        }
        Ok(Event::ReadOn(_)) => Err(NEED_MORE),
        Err(fault) => Err(report(&fault, error)),
    }
}

fn needed_frames(decoder: FrameDecoder, needed: usize, last: ClaxonFrame) -> ClaxonFrames
    ensures { result ≡ needed_frames decoder needed last }
{
    ClaxonFrames {
        decoder,
        needed,
        last,
    }
}
