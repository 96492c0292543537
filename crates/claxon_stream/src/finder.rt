//! The next frame of a stream after damage.
ghost use Rattle.std.specs.Prelude.{◌≡◌, ◌+◌, ◌-◌, ◌*◌, ◌<◌, ◌↔◌, IfSome, IsTrue, length, true};
ghost use Rattle.claxon.specs.ShownHead.{HasBitDepth};
ghost use Rattle.claxon_stream.specs.FrameDecoder.{without_faults};
ghost use Rattle.claxon_stream.specs.FrameFinder.{read_on};
ghost use Rattle.claxon_stream.specs.Search.{samples_of};

use crate::budget::Budget;
use crate::event::{Event, FindEvent};
use crate::frames::{FrameDecoder, ends_there, held_from, needed_after};
use crate::header::{HeaderThere, header_there};
use claxon::Result;
use claxon::frame::BlockInfo;
use claxon::metadata::StreamInfo;
use std::alloc::Global;

/// Finds the next frame of a stream after damage, by the bytes that the caller holds and hands in.
///
/// ```
/// let mut finder = FrameFinder::new(fault.position + 1);
/// loop {
///     match finder.find_next(alloc, held, held_at, is_end, Some(streaminfo))? {
///         FindEvent::Found(position, frame) => // frame.info, frame.block ..
///         FindEvent::ReadOn(needed) => // drop the bytes before needed.position, and read more ..
///         FindEvent::NotFound => break,
///     }
/// }
/// ```
///
/// After a frame was found a `FrameDecoder` may go on at `finder.position()`. After its next fault `go_on` keeps what was charged, so that
/// the time of all searches and faults is linear.
///
/// In memory it is laid out as the same struct in C.
#[repr(C)]
#[derive(Clone, Copy, Debug)]
pub struct FrameFinder {
    // At the position from which on is searched.
    decoder: FrameDecoder,
    // What the headers cost that led to no frame.
    budget: Budget,
    has_passed_over: bool,
}

impl FrameFinder {
    ghost use Rattle.claxon_stream.specs.FrameFinder.{
      FindIsOfStream,
      FindIsTimely,
      FindKeepsNotes,
      FindNeedsMore,
      FindStartsRight,
      FindWasteIsInVain,
      FinderIsOverBudget,
      GoesOn,
      HasPassedOver,
      IsNotedInVain,
      IsTriedOrPassedOver,
      MovesTo,
      PassesUnread,
      finder_cost,
      finder_position,
    };

    /// A search from this position of the stream on.
    pub fn new(position: u64) -> FrameFinder
        ensures position { finder_position result ≡ position }
        ensures starts_right { FindStartsRight result }
    {
        FrameFinder {
            decoder: FrameDecoder::new(position),
            budget: Budget::new(position),
            has_passed_over: false,
        }
    }

    /// The position in the stream from which on is searched.
    pub fn position(&self) -> u64
        ensures { result ≡ finder_position self.now }
    {
        self.decoder.position()
    }

    /// Whether a header was passed over without a try to decode its frame, as very much work had led to none. It takes bytes that were
    /// made to cost time, or minutes of silence with damage in each frame.
    pub fn has_passed_over(&self) -> bool
        ensures { IsTrue result ↔ HasPassedOver self.now }
    {
        self.has_passed_over
    }

    /// Whether a frame may be answered late, as `FrameDecoder::is_over_budget` says it.
    pub fn is_over_budget(&self) -> bool
        ensures { IsTrue result ↔ FinderIsOverBudget self.now }
    {
        self.decoder.is_over_budget()
    }

    /// Goes on from another position, as after frames that this decoder answered. Bytes up to there make good what was charged. What its
    /// faults cost is charged, so that the time stays linear where each frame that is found leads to another fault.
    pub fn go_on(&mut self, position: u64, decoder: &mut FrameDecoder)
        ensures goes_on { GoesOn position decoder.old self.old self.new }
        ensures taken { decoder.new ≡ without_faults decoder.old }
    {
        self.budget = self.budget.counted_from(self.position());
        self.move_to(position);
        self.budget.charge(decoder.take_cost_of_faults());
    }

    /// The next frame of the stream, by the bytes that are held: from the position `at` of the stream on, and up to its end if
    /// `is_end`. It has the number of channels and the bit depth of the streaminfo where that is known.
    ///
    /// The position moves to the first byte after the frame. Where there is none it moves to the end. Bytes before the position
    /// aren't needed. However the stream is cut into what is handed in, the answers other than `ReadOn` are the same.
    /// (RFC 9639, section 9.)
    ///
    /// The samples of blocks whose headers lead to no frame are charged, and the bytes that are read of these frames. Bytes that are
    /// passed make that good. Where a block has more samples than are left of the budget its header is passed over, so that the time is
    /// linear in the bytes.
    ///
    /// # Errors
    ///
    /// `OutOfMemory` alone, after the header of a frame of the stream. The call can be made again.
    pub fn find_next(
        &mut self,
        alloc: Global,
        bytes: &[u8],
        at: u64,
        is_end: bool,
        known: Option<StreamInfo>,
    ) -> Result<FindEvent>
        requires depth { IfSome known (λ info. HasBitDepth info) }
        requires fits { at + length bytes.now < u64.MAX }
        ensures is_of_stream { FindIsOfStream known at bytes.now is_end
            self.old result self.new }
        ensures needs_more { FindNeedsMore at bytes.now is_end result self.new }
        // By what was noted of the bytes before.
        ensures keeps_notes { FindKeepsNotes known at bytes.now is_end self.old self.new }
        ensures is_timely { FindIsTimely known at bytes.now is_end self.old result self.new }
        ensures waste_is_in_vain { FindWasteIsInVain known at bytes.now is_end
            self.old result self.new }
    {
        let from = self.position();
        let end = from + held_from(bytes, at, from).len() as u64;
        self.budget = self.budget.counted_from(from);
        for position in from..end {
            if self.passes_unread(position) {
                continue;
            }
            let rest = held_from(bytes, at, position);
            let samples = match header_there(rest, &known) {
                HeaderThere::Wanted(info) => samples_of(&info),
                HeaderThere::NotWanted => continue,
                HeaderThere::CutHeader if ends_there(is_end, at, position) => continue,
                HeaderThere::CutHeader => {
                    self.move_to(position);
                    return Ok(read_on(position, rest.len()));
                }
            };
            if !self.is_worth_a_try(position, samples) {
                continue;
            }
            match self
                .decoder
                .decode_next(Vec::new(alloc), bytes, at, is_end, known)?
            {
                Event::Decoded(frame) => {
                    let after = self.position();
                    self.budget.make_good(after);
                    return Ok(FindEvent::Found(position, frame));
                }
                Event::ReadOn(needed) => return Ok(FindEvent::ReadOn(needed)),
                Event::Faulty(_) => self.note_in_vain(position, samples),
                Event::Cut(_) => self.note_in_vain(position, samples),
                Event::End => self.note_in_vain(position, samples),
            }
        }
        self.move_to(end);
        if ends_there(is_end, at, end) {
            return Ok(FindEvent::NotFound);
        }
        Ok(read_on(end, 0))
    }

    // Whether each header would be passed over at the position, and that one was is noted already: so it needn't be read.
    fn passes_unread(&self, position: u64) -> bool
        ensures { IsTrue result → PassesUnread position self.now }
    {
        if !self.has_passed_over {
            return false;
        }
        let mut budget = self.budget;
        budget.make_good(position);
        !budget.suffices_for(1)
    }

    // Goes to a position.
    fn move_to(&mut self, position: u64)
        ensures { MovesTo position self.old self.new }
    {
        self.budget.make_good(position);
        if self.decoder.position() != position {
            self.decoder = self.decoder.from_position(position);
        }
    }

    // Whether the frame at the position, of a block with so many samples, is tried. If it is, the position moves to it.
    fn is_worth_a_try(&mut self, position: u64, samples: u64) -> bool
        ensures { IsTriedOrPassedOver position samples self.old result self.new }
    {
        self.budget.make_good(position);
        if !self.budget.suffices_for(samples) {
            self.has_passed_over = true;
            return false;
        }
        self.move_to(position);
        true
    }

    // Notes that no frame begins at the position, after a try up to the position of the decoder.
    fn note_in_vain(&mut self, position: u64, samples: u64)
        requires { position < u64.MAX }
        ensures { IsNotedInVain position samples self.old self.new }
    {
        let read = self.position().saturating_sub(position);
        self.budget.charge(read.saturating_add(samples));
        self.decoder = self.decoder.from_position(position + 1);
    }
}

// The number of samples, of all channels.
fn samples_of(info: &BlockInfo) -> u64
    ensures { result ≡ samples_of info.now }
{
    u64::from(info.channels) * u64::from(info.duration)
}

// Nothing can be said of what begins at the position, where so many bytes are held from there on.
fn read_on(position: u64, held: usize) -> FindEvent
    requires { held < usize.MAX }
    ensures { result ≡ read_on position held }
{
    FindEvent::ReadOn(needed_after(position, held))
}
