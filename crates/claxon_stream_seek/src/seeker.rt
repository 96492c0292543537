//! Seeking to a sample.
ghost use Rattle.std.specs.Prelude.{◌≡◌, ◌↔◌, ◌+◌, ◌<◌, ◌≤◌, IfSome, IsTrue, length};
ghost use Rattle.claxon.specs.ShownHead.{HasBitDepth};

mod kept;

use crate::clock::Clock;
use crate::event::{SeekEvent, SoughtFrame};
use crate::search::ByteSearch;
use crate::sought::{Sought, has_format};
use claxon::Result;
use claxon::frame::{BlockInfo, DecodedFrame};
use claxon::metadata::StreamInfo;
use claxon_seek::{FoundFrame, MAX_STEPS, Span, Step, bytes_without_ff, max_block_size};
use claxon_stream::{
    Event, FrameDecoder, HeaderThere, NeededBytes, ends_there, header_there, held_from,
};
pub use kept::KeptSeeker;
use std::alloc::Global;

// How many bytes are asked for at once on the way to a sample: a header stands in them mostly.
const STEP_BYTES: usize = 8 * 1024;

// How many bytes are asked for where a frame is likely, if the streaminfo doesn't say how many a frame has at most: mostly one
// try suffices.
const FRAME_BYTES: usize = 16 * 1024;

// The same at most, whatever the streaminfo says.
const MAX_FRAME_BYTES: usize = 1 << 20;

// How many bytes are read for headers between known times, before all bytes are searched: as many as four of the largest
// frames have.
const MAX_BYTES_BY_TIMES: u64 = 1 << 24;

// What is done next.
#[derive(Clone, Copy, Debug)]
enum Stage {
    // Headers between known times are read.
    Headers,
    // The frame is tried to which they led.
    LikelyFrame,
    // They led to none: all bytes are searched.
    AllBytes,
}

// The first header after a position.
#[derive(Clone, Copy)]
enum NextHeader {
    There(FoundFrame),
    Nowhere,
    Needs(NeededBytes),
}

/// A seek to a sample, by the bytes that the caller holds and hands in.
///
/// ```
/// let mut seeker = Seeker::new(first_frame, Some(length), Some(streaminfo), sample, clock);
/// loop {
///     match seeker.seek_next(alloc, held, held_at, is_end, Some(streaminfo))? {
///         SeekEvent::Found(found) => // found.frame.block; found.end is where the next frame begins ..
///         SeekEvent::ReadOn(needed) => // go to needed.position, unless it is held, and read needed.count bytes ..
///         SeekEvent::NotFound | SeekEvent::OverBudget => break,
///     }
/// }
/// ```
///
/// Headers between known times lead to the frame. They, their times and the length are never believed: the frame is decoded
/// before it is answered, and where they mislead all bytes are searched, within the budget of a `FrameFinder`.
///
/// C keeps it as a `KeptSeeker`.
#[derive(Clone, Copy, Debug)]
pub struct Seeker {
    stage: Stage,
    // How many headers were read, and the bytes that may be read for more.
    steps: u32,
    bytes_left: u64,
    // Where the frame is, if times ascend.
    span: Span,
    // The bytes before this position have no header that is looked for.
    scanned: u64,
    // At the frame to which headers led, and whether its bytes were asked for.
    likely: FrameDecoder,
    has_asked: bool,
    // Of all bytes from the first frame on.
    search: ByteSearch,
}

impl Seeker {
    ghost use Rattle.claxon_stream_seek.specs.Search.{NeedsMore, SearchNeedsMore};
    ghost use Rattle.claxon_stream_seek.specs.Seeker.{
      IsLikelySought,
      KeepsSearch,
      LikelyIsAnswered,
      LikelyIsHeld,
      LikelyIsOfStream,
      LikelyNeedsMore,
      NextNeeds,
      NextNeedsMore,
      SeekFindsHeld,
      SeekIsOfStream,
      SeekKeepsSought,
      SeekStartsRight,
      likely_found,
      sought_by,
      sought_with,
    };

    /// A seek to this sample of each channel, in a stream whose first frame is at this position, and which has so many bytes if
    /// that is known. The sample at which a block begins is that of the clock, or `Block.time` where the clock doesn't know.
    pub fn new(
        first_frame: u64,
        length: Option<u64>,
        known: Option<StreamInfo>,
        sample: u64,
        clock: Clock,
    ) -> Seeker
        ensures sought { sought_by result ≡ sought_with clock sample first_frame }
        ensures starts_right { SeekStartsRight result }
    {
        let end = length.unwrap_or(u64::MAX / 2).max(first_frame);
        let sought = Sought {
            clock,
            sample,
            first_frame,
        };
        Seeker {
            stage: Stage::Headers,
            steps: 0,
            bytes_left: MAX_BYTES_BY_TIMES,
            span: Span::whole(first_frame as usize, end as usize, known, sample),
            scanned: first_frame,
            likely: FrameDecoder::new(first_frame),
            has_asked: false,
            search: ByteSearch::new(sought),
        }
    }

    /// What comes next, by the bytes that are held: from the position `at` of the stream on, and up to its end if `is_end`.
    /// They have to be those of one stream in all calls.
    ///
    /// `ReadOn` asks for bytes from a position on, before or after those that are held; fewer may be handed in. After another
    /// answer the seek is at its end.
    ///
    /// # Errors
    ///
    /// `OutOfMemory` alone, after the header of a frame. The call can be made again.
    pub fn seek_next(
        &mut self,
        alloc: Global,
        bytes: &[u8],
        at: u64,
        is_end: bool,
        known: Option<StreamInfo>,
    ) -> Result<SeekEvent>
        requires depth { IfSome known (λ info. HasBitDepth info) }
        requires fits { at + length bytes.now < u64.MAX }
        ensures keeps_sought { SeekKeepsSought self.old self.new }
        ensures is_of_stream { SeekIsOfStream known at bytes.now is_end self.old result self.new }
        ensures needs_more { SearchNeedsMore at bytes.now is_end result }
        ensures finds_held { SeekFindsHeld known at bytes.now self.old result self.new }
    {
        if let Some(needed) = self.go_by_headers(bytes, at, is_end, &known) {
            return Ok(SeekEvent::ReadOn(needed));
        }
        if let Some(answer) = self.try_likely(alloc, bytes, at, is_end, known)? {
            return Ok(answer);
        }
        self.search.search(alloc, bytes, at, is_end, known)
    }

    // Reads headers between known times, up to one that says that its block has the sample. Some where bytes are needed.
    fn go_by_headers(
        &mut self,
        bytes: &[u8],
        at: u64,
        is_end: bool,
        known: &Option<StreamInfo>,
    ) -> Option<NeededBytes>
        requires depth { IfSome known.now (λ info. HasBitDepth info) }
        requires fits { at + length bytes.now < u64.MAX }
        ensures keeps_search { KeepsSearch self.old self.new }
        ensures needs_more { IfSome result (λ needed. NeedsMore at bytes.now is_end needed) }
    {
        let sample = self.search.sought.sample;
        for _ in self.steps..MAX_STEPS {
            let Stage::Headers = self.stage else {
                return None;
            };
            let span = self.span;
            let from = span.guess(self.steps, sample, max_block_size(*known));
            let found = match self.next_header(from, bytes, at, is_end, known) {
                NextHeader::There(found) => Some(found),
                NextHeader::Nowhere => None,
                NextHeader::Needs(needed) => return Some(needed),
            };
            let found = within(found, from, span.end);
            self.take(span.step(from, found, sample));
        }
        if let Stage::Headers = self.stage {
            self.stage = Stage::AllBytes;
        }
        None
    }

    // The first header from a position on that the span can have.
    fn next_header(
        &mut self,
        from: usize,
        bytes: &[u8],
        at: u64,
        is_end: bool,
        known: &Option<StreamInfo>,
    ) -> NextHeader
        requires depth { IfSome known.now (λ info. HasBitDepth info) }
        requires fits { at + length bytes.now < u64.MAX }
        ensures keeps_search { KeepsSearch self.old self.new }
        ensures needs_more { NextNeedsMore at bytes.now is_end result }
    {
        let start = self.scanned.max(from as u64);
        let held = held_from(bytes, at, start).len() as u64;
        let end = start.saturating_add(held).min(self.span.end as u64);
        let mut next = start;
        while next < end {
            let position = next_ff(bytes, at, next).min(end);
            next = position.saturating_add(1);
            let rest = held_from(bytes, at, position);
            match header_there(rest, known) {
                HeaderThere::Wanted(info) if position < end => {
                    if let Some(found) = self.likely_header(position, info) {
                        return NextHeader::There(found);
                    }
                }
                HeaderThere::CutHeader if position < end && !ends_there(is_end, at, position) => {
                    return self.needs(start, position, rest.len());
                }
                _ => {}
            }
        }
        let position = start.max(end);
        if position >= self.span.end as u64
            || ends_there(is_end, at, position)
            || self.bytes_left == 0
        {
            return NextHeader::Nowhere;
        }
        let held = held_from(bytes, at, position).len();
        self.needs(start, position, held)
    }

    // More bytes from the position on, where so many are held. Those before it were read.
    fn needs(&mut self, start: u64, position: u64, held: usize) -> NextHeader
        requires { held < usize.MAX }
        ensures keeps_search { KeepsSearch self.old self.new }
        ensures needs { NextNeeds position held result }
    {
        self.bytes_left = self
            .bytes_left
            .saturating_sub(position.saturating_sub(start));
        self.scanned = position;
        NextHeader::Needs(NeededBytes {
            position,
            count: (held + 1).max(STEP_BYTES),
        })
    }

    // The header at the position, with the time by the clock, if the span can have it.
    fn likely_header(&self, position: u64, info: BlockInfo) -> Option<FoundFrame> {
        let time = self.search.sought.start_of(position, &info);
        let block = BlockInfo { time, ..info };
        if self.span.is_likely(&block) {
            let position = position as usize;
            Some(FoundFrame { position, block })
        } else {
            None
        }
    }

    // After what a header says.
    fn take(&mut self, step: Step)
        ensures { KeepsSearch self.old self.new }
    {
        self.steps = self.steps.saturating_add(1);
        self.scanned = 0;
        match step {
            Step::There(position) => {
                self.stage = Stage::LikelyFrame;
                self.likely = FrameDecoder::new(position as u64);
            }
            Step::Between(span) => self.span = span,
            Step::Nowhere => self.stage = Stage::AllBytes,
        }
    }

    // What is answered of the frame to which headers led; None if it isn't sought.
    fn try_likely(
        &mut self,
        alloc: Global,
        bytes: &[u8],
        at: u64,
        is_end: bool,
        known: Option<StreamInfo>,
    ) -> Result<Option<SeekEvent>>
        requires depth { IfSome known (λ info. HasBitDepth info) }
        requires fits { at + length bytes.now < u64.MAX }
        ensures keeps_search { KeepsSearch self.old self.new }
        ensures is_of_stream { LikelyIsOfStream at bytes.now is_end known self.old result }
        ensures needs_more { LikelyNeedsMore at bytes.now is_end result }
        ensures is_held { LikelyIsHeld at bytes.now is_end known self.old result }
    {
        let Stage::LikelyFrame = self.stage else {
            return Ok(None);
        };
        let position = self.likely.position();
        if position < self.search.sought.first_frame {
            self.stage = Stage::AllBytes;
            return Ok(None);
        }
        let held = held_from(bytes, at, position).len();
        let count = frame_bytes(known);
        if !self.has_asked && held < count && !ends_there(is_end, at, position) {
            self.has_asked = true;
            return Ok(Some(SeekEvent::ReadOn(NeededBytes { position, count })));
        }
        let event = self
            .likely
            .decode_next(Vec::new(alloc), bytes, at, is_end, known);
        self.likely_answer(position, event, known)
    }

    // What is answered where the frame at the position was tried.
    fn likely_answer(
        &mut self,
        position: u64,
        event: Result<Event>,
        known: Option<StreamInfo>,
    ) -> Result<Option<SeekEvent>>
        ensures keeps_search { KeepsSearch self.old self.new }
        ensures is_answered { LikelyIsAnswered known position event self.old result }
    {
        match event {
            Ok(Event::Decoded(frame)) => {
                if self.is_sought(position, &frame.info, known) {
                    return Ok(Some(self.found(position, frame)));
                }
            }
            Ok(Event::ReadOn(needed)) => return Ok(Some(SeekEvent::ReadOn(needed))),
            Ok(Event::Faulty(_)) => {}
            Ok(Event::Cut(_)) => {}
            Ok(Event::End) => {}
            Err(error) => return Err(error),
        }
        self.stage = Stage::AllBytes;
        Ok(None)
    }

    // Whether the frame of this header is one of the stream and has the sample.
    fn is_sought(&self, position: u64, info: &BlockInfo, known: Option<StreamInfo>) -> bool
        ensures { IsTrue result ↔ IsLikelySought known self.now position info.now }
    {
        has_format(info, known) && self.search.sought.is_in(position, info)
    }

    // The frame that was decoded.
    fn found(&self, position: u64, frame: DecodedFrame) -> SeekEvent
        ensures { result ≡ likely_found self.now position frame }
    {
        SeekEvent::Found(SoughtFrame {
            position,
            end: self.likely.position(),
            time: self.search.sought.start_of(position, &frame.info),
            frame,
        })
    }
}

// The header, if it is between these positions.
fn within(found: Option<FoundFrame>, from: usize, end: usize) -> Option<FoundFrame>
    ensures { IfSome result (λ f. (from ≤ f.position) × (f.position < end)) }
{
    match found {
        Some(found) if from <= found.position && found.position < end => Some(found),
        Some(_) => None,
        None => None,
    }
}

// The first position from this one on that has a byte 0xff, with which each header begins, or else that after the bytes held.
fn next_ff(bytes: &[u8], at: u64, position: u64) -> u64
    requires { at + length bytes.now < u64.MAX }
    ensures { position ≤ result }
{
    let rest = held_from(bytes, at, position);
    let passed = bytes_without_ff(rest);
    let left = &rest[passed..];
    let more = left
        .iter()
        .position(|byte| *byte == 0xff)
        .unwrap_or(left.len());
    position
        .saturating_add(passed as u64)
        .saturating_add(more as u64)
}

// How many bytes are asked for where a frame is likely.
fn frame_bytes(known: Option<StreamInfo>) -> usize {
    let most = known.and_then(|info| info.max_frame_size);
    match most {
        Some(size) => (size as usize).min(MAX_FRAME_BYTES),
        None => FRAME_BYTES,
    }
}
