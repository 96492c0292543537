//! The frames of a stream, one after another.
ghost use Rattle.std.specs.Prelude.{
  ◌≡◌,
  ◌+◌,
  ◌<◌,
  ◌≤◌,
  ◌↔◌,
  IfSome,
  IsTrue,
  length,
  vec_capacity,
};
ghost use Rattle.std.specs.Option.{option_map};
ghost use Rattle.claxon.specs.FrameReader.{stream_with};
ghost use Rattle.claxon.specs.ShownHead.{HasBitDepth};
ghost use Rattle.claxon_stream.specs.Event.{event_of, faulty, moved_by, needed_after};
ghost use Rattle.claxon_stream.specs.Noted.{EndIsAfter, IsWorkOf, IsWorkOfFault};
ghost use Rattle.claxon_stream.specs.Held.{ends_there, held_from};

use crate::at_start::{frame_at_start, samples_said};
use crate::budget::{Budget, cost_of_try};
use crate::ending::FrameEnd;
use crate::event::{Event, NeededBytes, StreamFault};
use claxon::frame::DecodedFrameResult;
use claxon::metadata::StreamInfo;
use claxon::{Error, Result};

/// The frames of a stream, whose bytes the caller holds and hands in.
///
/// ```
/// let mut frames = FrameDecoder::new(position);
/// loop {
///     match frames.decode_next(buffer, held, held_at, is_end, Some(streaminfo))? {
///         Event::Decoded(frame) => // frame.info, frame.block ..
///         Event::ReadOn(needed) => // drop the bytes before needed.position, and read more ..
///         Event::Faulty(fault) => // fault.error at fault.position ..
///         Event::Cut(_) | Event::End => break,
///     }
/// }
/// ```
///
/// A copy goes on by itself. In memory a decoder is laid out as the same struct in C.
#[repr(C)]
#[derive(Clone, Copy, Debug)]
pub struct FrameDecoder {
    position: u64,
    // What is known of the end of the frame at the position.
    end: FrameEnd,
    budget: Budget,
    // What faults cost that no search was charged yet.
    faults: u64,
}

impl FrameDecoder {
    ghost use Rattle.claxon_stream.specs.FrameDecoder.{
      CutIsComplete,
      EndIsComplete,
      EventIsOfStream,
      EventIsSound,
      FaultIsCharged,
      FaultIsComplete,
      FaultIsTimely,
      FrameIsComplete,
      FrameIsTimely,
      IsDue,
      IsFromPosition,
      IsOverBudget,
      IsWaiting,
      IsWorthATry,
      KeepsNotes,
      ReadOnIsComplete,
      StartsRight,
      WasteIsInVain,
      cost_of_faults,
      decoder_position,
      tries_wasted,
      without_faults,
    };

    /// A decoder of the frames from this position of the stream on.
    pub fn new(position: u64) -> FrameDecoder
        ensures position { decoder_position result ≡ position }
        ensures starts_right { StartsRight result }
        ensures wastes_nothing { tries_wasted result ≡ 0 }
        ensures no_faults { cost_of_faults result ≡ 0 }
    {
        FrameDecoder {
            position,
            end: FrameEnd::new(),
            budget: Budget::new(position),
            faults: 0,
        }
    }

    /// A decoder of the frames from another position on, as after damage. What was charged is kept, so that the time stays linear.
    pub fn from_position(&self, at: u64) -> FrameDecoder
        ensures { IsFromPosition self.now at result }
    {
        FrameDecoder {
            position: at,
            end: FrameEnd::new(),
            budget: self.budget,
            faults: self.faults,
        }
    }

    /// The position in the stream of what comes next.
    pub fn position(&self) -> u64
        ensures { result ≡ decoder_position self.now }
    {
        self.position
    }

    /// Whether so many tries to decode a frame were in vain that a frame may be answered late. No stream of an encoder leads to it.
    pub fn is_over_budget(&self) -> bool
        ensures { IsTrue result ↔ IsOverBudget self.now }
    {
        self.budget.is_spent()
    }

    /// What the faults cost that were answered, which a search is charged: the bytes that were read, and the samples of the blocks. Then it
    /// is 0 again.
    pub fn take_cost_of_faults(&mut self) -> u64
        ensures cost { result ≡ cost_of_faults self.old }
        ensures taken { self.new ≡ without_faults self.old }
    {
        let cost = self.faults;
        self.faults = 0;
        cost
    }

    /// What comes next, by the bytes that are held: from the position `at` of the stream on, and up to its end if `is_end`. A frame is
    /// decoded into the buffer's memory if it is large enough.
    ///
    /// The position moves to the first byte after the frame, or after the fault. Where the stream ends it moves to the end. Bytes before
    /// the position aren't needed. However the stream is cut into what is handed in, the answers other than `ReadOn` are the same.
    /// (RFC 9639, section 9.)
    ///
    /// `ReadOn` says that no whole frame is there, unless the decoder is over budget. A fault is answered at the latest when twice its
    /// bytes are there.
    ///
    /// # Errors
    ///
    /// `OutOfMemory` alone, after the header of a block with more samples than the buffer's capacity. The call can be made again.
    pub fn decode_next(
        &mut self,
        buffer: Vec<i32>,
        bytes: &[u8],
        at: u64,
        is_end: bool,
        known: Option<StreamInfo>,
    ) -> Result<Event>
        requires depth { IfSome known (λ info. HasBitDepth info) }
        requires fits { at + length bytes.now < u64.MAX }
        ensures is_sound { EventIsSound known (vec_capacity buffer) at bytes.now is_end
            self.old result self.new }
        ensures is_of_stream { EventIsOfStream known (vec_capacity buffer) at bytes.now is_end
            self.old result self.new }
        ensures frame_is_complete { FrameIsComplete known at bytes.now self.old result }
        ensures fault_is_complete { FaultIsComplete known at bytes.now self.old result }
        ensures end_is_complete { EndIsComplete at bytes.now is_end self.old result }
        ensures cut_is_complete { CutIsComplete known at bytes.now is_end self.old result }
        ensures read_on_is_complete { ReadOnIsComplete known at bytes.now is_end self.old result }
        // By what the decoder noted of the bytes before.
        ensures keeps_notes { KeepsNotes known at bytes.now is_end self.old self.new }
        ensures frame_is_timely { FrameIsTimely known at bytes.now is_end
            self.old result self.new }
        ensures fault_is_timely { FaultIsTimely known at bytes.now is_end self.old result }
        ensures waste_is_in_vain { WasteIsInVain known at bytes.now is_end
            self.old result self.new }
        ensures fault_is_charged { FaultIsCharged known at bytes.now is_end
            self.old result self.new }
    {
        if let Some(needed) = self.waits(bytes, at, is_end) {
            return Ok(Event::ReadOn(needed));
        }
        let rest = held_from(bytes, at, self.position);
        let ends = ends_there(is_end, at, self.position);
        let is_due = self.is_due(rest, ends);
        let mut taken = 0;
        let found = frame_at_start(buffer, rest, known, &mut taken);
        let event = event_of(found, self.position, rest.len(), ends);
        self.end = end_after(&event, self.end, rest);
        self.budget.charge(work_in_vain(&event, is_due, rest));
        let moved = moved_by(&event, taken, rest.len());
        self.faults = self
            .faults
            .saturating_add(work_of_fault(&event, moved, rest, known));
        self.position += moved as u64;
        event
    }

    /// How many bytes are needed at least, where it is known without a try to decode them that no frame and no fault can be answered
    /// yet. Then `decode_next` answers that for the same bytes. Most bytes of a frame that come one by one are asked for so.
    pub fn waits(&mut self, bytes: &[u8], at: u64, is_end: bool) -> Option<NeededBytes>
        requires fits { at + length bytes.now < u64.MAX }
        ensures { IsWaiting at bytes.now is_end self.old result self.new }
    {
        let rest = held_from(bytes, at, self.position);
        let ends = ends_there(is_end, at, self.position);
        self.budget.make_tries_good(at + bytes.len() as u64);
        let is_due = self.is_due(rest, ends);
        if self.is_worth_a_try(rest, is_due) {
            return None;
        }
        Some(needed_after(self.position, rest.len()))
    }

    // Whether the bytes are tried whatever the CRC is: at the end of the stream, and where they are twice as many as were tried last.
    fn is_due(&self, rest: &[u8], ends: bool) -> bool
        ensures { IsDue rest.now ends self.now result }
    {
        ends || self.end.is_doubled(rest)
    }

    // Whether the bytes are tried.
    fn is_worth_a_try(&mut self, rest: &[u8], is_due: bool) -> bool
        ensures { IsWorthATry rest.now is_due self.old result self.new }
    {
        if is_due {
            return true;
        }
        self.end.may_be_in(rest) && !self.budget.is_spent()
    }
}

/// The bytes that are held from a position on: none where they begin after it.
pub fn held_from(bytes: &[u8], at: u64, position: u64) -> &[u8]
    ensures { result.now ≡ held_from at position bytes.now }
{
    if position < at {
        return &bytes[..0];
    }
    let passed = ((position - at) as usize).min(bytes.len());
    &bytes[passed..]
}

/// Whether the stream is known to end with them.
pub fn ends_there(is_end: bool, at: u64, position: u64) -> bool
    ensures { result ≡ ends_there at position is_end }
{
    at <= position && is_end
}

// What comes next at the position, by the frame that the bytes held from there on begin with.
fn event_of(found: DecodedFrameResult, position: u64, held: usize, ends: bool) -> Result<Event>
    requires { held < usize.MAX }
    ensures { result ≡ event_of found position held ends }
{
    match found {
        Ok(Some(frame)) => Ok(Event::Decoded(frame)),
        Ok(None) if ends => Ok(Event::End),
        Ok(None) => Ok(Event::ReadOn(needed_after(position, held))),
        Err(Error::IoError(_)) if ends => Ok(Event::Cut(position)),
        Err(Error::IoError(_)) => Ok(Event::ReadOn(needed_after(position, held))),
        Err(Error::OutOfMemory) => Err(Error::OutOfMemory),
        Err(Error::FormatError(reason)) => Ok(faulty(position, Error::FormatError(reason))),
        Err(Error::Unsupported(feature)) => Ok(faulty(position, Error::Unsupported(feature))),
    }
}

fn faulty(position: u64, error: Error) -> Event
    ensures { result ≡ faulty position error }
{
    Event::Faulty(StreamFault { position, error })
}

// At least one byte more than are held, and two.
pub(crate) fn needed_after(position: u64, held: usize) -> NeededBytes
    requires { held < usize.MAX }
    ensures { result ≡ needed_after position held }
{
    NeededBytes {
        position,
        count: (held + 1).max(2),
    }
}

// What is known of the end of the frame at the position after this answer.
fn end_after(event: &Result<Event>, end: FrameEnd, rest: &[u8]) -> FrameEnd
    ensures { EndIsAfter event.now end rest.now result }
{
    match event {
        Ok(Event::ReadOn(_)) => {
            let mut end = end;
            end.note_open(rest);
            end
        }
        Ok(Event::Decoded(_)) => FrameEnd::new(),
        Ok(Event::Faulty(_)) => FrameEnd::new(),
        Ok(Event::End) => FrameEnd::new(),
        Ok(Event::Cut(_)) => FrameEnd::new(),
        Err(_) => end,
    }
}

// How much work led to no answer, where the CRC alone made the bytes worth a try.
fn work_in_vain(event: &Result<Event>, is_due: bool, rest: &[u8]) -> u64
    ensures { IsWorkOf event.now is_due rest.now result }
{
    match event {
        Ok(Event::ReadOn(_)) if !is_due => cost_of_try(rest.len()),
        _ => 0,
    }
}

// How much work a fault or a cut frame took: the bytes that were read, and the samples of the block that its header says.
fn work_of_fault(event: &Result<Event>, moved: usize, rest: &[u8], known: Option<StreamInfo>) -> u64
    requires { IfSome known (λ info. HasBitDepth info) }
    ensures { IsWorkOfFault (option_map stream_with known) rest.now event.now moved result }
{
    match event {
        Ok(Event::Faulty(_)) => (moved as u64).saturating_add(samples_said(rest, known)),
        Ok(Event::Cut(_)) => (moved as u64).saturating_add(samples_said(rest, known)),
        Ok(Event::Decoded(_)) => 0,
        Ok(Event::End) => 0,
        Ok(Event::ReadOn(_)) => 0,
        Err(_) => 0,
    }
}

// By how many bytes the position moves: those of the frame or its fault, or all up to the end of the stream.
fn moved_by(event: &Result<Event>, taken: usize, held: usize) -> usize
    ensures { result ≡ moved_by event.now taken held }
{
    match event {
        Ok(Event::Decoded(_)) => taken,
        Ok(Event::Faulty(_)) => taken,
        Ok(Event::End) => held,
        Ok(Event::Cut(_)) => held,
        Ok(Event::ReadOn(_)) => 0,
        Err(_) => 0,
    }
}
