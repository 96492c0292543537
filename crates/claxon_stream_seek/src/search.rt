//! The search for a frame with a sample, byte by byte.
ghost use Rattle.std.specs.Prelude.{◌≡◌, ◌+◌, ◌*◌, ◌<◌, IfSome, length};
ghost use Rattle.claxon.specs.ShownHead.{HasBitDepth};
ghost use Rattle.claxon_stream.specs.Held.{held_from};
ghost use Rattle.claxon_stream.specs.Search.{samples_of};
ghost use Rattle.claxon_stream_seek.specs.Search.{read_on};

use crate::event::{SeekEvent, SoughtFrame};
use crate::sought::Sought;
use claxon::Result;
use claxon::frame::{BlockInfo, DecodedFrame};
use claxon::metadata::StreamInfo;
use claxon_stream::{
    Budget, Event, FrameDecoder, HeaderThere, NeededBytes, ends_there, header_there, held_from,
};
use std::alloc::Global;

// What begins at a position.
#[derive(Clone, Copy)]
pub(crate) enum SoughtThere {
    // The header of a frame whose block has the sample.
    Header(BlockInfo),
    // None, whatever follows.
    NoHeader,
    // The bytes that are held end within what may be one.
    CutHeader,
}

// A search from the first frame on, byte by byte.
#[derive(Clone, Copy, Debug)]
pub(crate) struct ByteSearch {
    pub(crate) sought: Sought,
    // The first position that isn't passed.
    pub(crate) position: u64,
    // At the position, if a frame was tried there.
    pub(crate) decoder: FrameDecoder,
    // What the headers cost that led to no frame.
    pub(crate) budget: Budget,
    pub(crate) has_passed_over: bool,
}

impl ByteSearch {
    ghost use Rattle.claxon_stream_seek.specs.Search.{
      IsAnswered,
      IsAtByte,
      IsTriedAt,
      IsVainAt,
      KeepsSought,
      SearchBegins,
      SearchFindsHeld,
      SearchIsOfStream,
      SearchNeedsMore,
      SkipsByte,
      SoughtIsThere,
      end_answer,
      found_at,
      search_position,
    };

    pub(crate) fn new(sought: Sought) -> ByteSearch
        ensures { SearchBegins sought result }
    {
        ByteSearch {
            sought,
            position: sought.first_frame,
            decoder: FrameDecoder::new(sought.first_frame),
            budget: Budget::new(sought.first_frame),
            has_passed_over: false,
        }
    }

    // The first frame that has the sample, by the bytes that are held.
    pub(crate) fn search(
        &mut self,
        alloc: Global,
        bytes: &[u8],
        at: u64,
        is_end: bool,
        known: Option<StreamInfo>,
    ) -> Result<SeekEvent>
        requires depth { IfSome known (λ info. HasBitDepth info) }
        requires fits { at + length bytes.now < u64.MAX }
        ensures keeps_sought { KeepsSought self.old self.new }
        ensures is_of_stream { SearchIsOfStream at bytes.now is_end known
            self.old result self.new }
        ensures needs_more { SearchNeedsMore at bytes.now is_end result }
        ensures finds_held { SearchFindsHeld at bytes.now known self.old result self.new }
    {
        let from = self.position;
        let end = from + held_from(bytes, at, from).len() as u64;
        while self.position < end {
            if let Some(answer) = self.pass_byte(alloc, bytes, at, is_end, known)? {
                return Ok(answer);
            }
        }
        Ok(self.at_end(at, is_end))
    }

    // What is answered at the position; None where its byte is passed.
    #[inline(always)]
    fn pass_byte(
        &mut self,
        alloc: Global,
        bytes: &[u8],
        at: u64,
        is_end: bool,
        known: Option<StreamInfo>,
    ) -> Result<Option<SeekEvent>>
        requires depth { IfSome known (λ info. HasBitDepth info) }
        requires fits { at + length bytes.now < u64.MAX }
        requires inside { 0 < length (held_from at (search_position self.old) bytes.now) }
        ensures keeps_sought { KeepsSought self.old self.new }
        ensures is_at_byte { IsAtByte at bytes.now is_end known self.old result self.new }
    {
        match self.sought_there(bytes, at, is_end, &known) {
            SoughtThere::Header(info) => self.try_frame(info, alloc, bytes, at, is_end, known),
            SoughtThere::NoHeader => {
                self.skip_byte();
                Ok(None)
            }
            SoughtThere::CutHeader => {
                let held = held_from(bytes, at, self.position).len();
                Ok(Some(read_on(self.position, held)))
            }
        }
    }

    // What begins at the position.
    #[inline(always)]
    fn sought_there(
        &self,
        bytes: &[u8],
        at: u64,
        is_end: bool,
        known: &Option<StreamInfo>,
    ) -> SoughtThere
        requires { IfSome known.now (λ info. HasBitDepth info) }
        ensures { SoughtIsThere at bytes.now is_end known.now self.now result }
    {
        match header_there(held_from(bytes, at, self.position), known) {
            HeaderThere::Wanted(info) if self.sought.is_in(self.position, &info) => {
                SoughtThere::Header(info)
            }
            HeaderThere::Wanted(_) => SoughtThere::NoHeader,
            HeaderThere::NotWanted => SoughtThere::NoHeader,
            HeaderThere::CutHeader if ends_there(is_end, at, self.position) => {
                SoughtThere::NoHeader
            }
            HeaderThere::CutHeader => SoughtThere::CutHeader,
        }
    }

    // The frame of this header, which begins at the position.
    #[inline(never)]
    fn try_frame(
        &mut self,
        info: BlockInfo,
        alloc: Global,
        bytes: &[u8],
        at: u64,
        is_end: bool,
        known: Option<StreamInfo>,
    ) -> Result<Option<SeekEvent>>
        requires depth { IfSome known (λ info. HasBitDepth info) }
        requires fits { at + length bytes.now < u64.MAX }
        requires inside { 0 < length (held_from at (search_position self.old) bytes.now) }
        requires there { SoughtIsThere at bytes.now is_end known self.old (SoughtThere.Header info) }
        ensures keeps_sought { KeepsSought self.old self.new }
        ensures is_at_byte { IsAtByte at bytes.now is_end known self.old result self.new }
    {
        let samples = samples_of(&info);
        if !self.is_worth_a_try(samples) {
            return Ok(None);
        }
        let event = self
            .decoder
            .decode_next(Vec::new(alloc), bytes, at, is_end, known);
        self.answer(event, samples)
    }

    // What is answered at the position, where the frame was tried of a block with so many samples.
    fn answer(&mut self, event: Result<Event>, samples: u64) -> Result<Option<SeekEvent>>
        requires { search_position self.old < u64.MAX }
        ensures { IsAnswered samples event self.old result self.new }
    {
        match event {
            Ok(Event::Decoded(frame)) => Ok(Some(self.found(frame))),
            Ok(Event::ReadOn(needed)) => Ok(Some(SeekEvent::ReadOn(needed))),
            Ok(Event::Faulty(_)) => Ok(self.note_in_vain(samples)),
            Ok(Event::Cut(_)) => Ok(self.note_in_vain(samples)),
            Ok(Event::End) => Ok(self.note_in_vain(samples)),
            Err(error) => Err(error),
        }
    }

    // Whether the frame at the position, of a block with so many samples, is tried. If not, its header is passed over.
    fn is_worth_a_try(&mut self, samples: u64) -> bool
        requires { search_position self.old < u64.MAX }
        ensures { IsTriedAt samples self.old result self.new }
    {
        self.budget.make_good(self.position);
        if !self.budget.suffices_for(samples) {
            self.has_passed_over = true;
            self.position += 1;
            return false;
        }
        if self.decoder.position() != self.position {
            self.decoder = self.decoder.from_position(self.position);
        }
        true
    }

    // The byte at the position is passed.
    #[inline(always)]
    fn skip_byte(&mut self)
        requires { search_position self.old < u64.MAX }
        ensures { SkipsByte self.old self.new }
    {
        self.position += 1;
    }

    // No frame begins at the position, after a try up to the position of the decoder.
    fn note_in_vain(&mut self, samples: u64) -> Option<SeekEvent>
        requires { search_position self.old < u64.MAX }
        ensures { IsVainAt samples self.old result self.new }
    {
        let read = self.decoder.position().saturating_sub(self.position);
        self.budget.charge(read.saturating_add(samples));
        self.position += 1;
        None
    }

    // The frame that was decoded at the position.
    fn found(&self, frame: DecodedFrame) -> SeekEvent
        ensures { result ≡ found_at self.now frame }
    {
        SeekEvent::Found(SoughtFrame {
            position: self.position,
            end: self.decoder.position(),
            time: self.sought.start_of(self.position, &frame.info),
            frame,
        })
    }

    // What is answered at the end of the bytes that are held.
    fn at_end(&self, at: u64, is_end: bool) -> SeekEvent
        ensures { result ≡ end_answer at is_end self.now }
    {
        if !ends_there(is_end, at, self.position) {
            return read_on(self.position, 0);
        }
        if self.has_passed_over {
            SeekEvent::OverBudget
        } else {
            SeekEvent::NotFound
        }
    }
}

// The number of samples, of all channels.
fn samples_of(info: &BlockInfo) -> u64
    ensures { result ≡ samples_of info.now }
{
    u64::from(info.channels) * u64::from(info.duration)
}

// Nothing can be said of what begins at the position, where so many bytes are held from there on.
fn read_on(position: u64, held: usize) -> SeekEvent
    requires { held < usize.MAX }
    ensures { result ≡ read_on position held }
{
    SeekEvent::ReadOn(NeededBytes {
        position,
        count: (held + 1).max(2),
    })
}
