//! The head of a stream: its marker and its metadata blocks, one after another (RFC 9639, sections 6 and 8).
ghost use Rattle.std.specs.Prelude.{◌≡◌, ◌+◌, ◌^◌, ◌<◌, length};
ghost use Rattle.claxon_stream.specs.HeadPart.{part_view};
ghost use Rattle.claxon_stream.specs.HeadState.{
  is_last,
  part_after,
  read_on,
};

mod event;
mod kept;
mod laws;
mod part;
mod rules;

use crate::event::{NeededBytes, StreamFault};
use crate::frames::{ends_there, held_from};
use claxon::{Error, FlacReaderOptions, Result};
pub use event::{HeadEvent, MetadataBlockHeader};
pub use kept::KeptHead;
pub use laws::{
    head_answers_are_complete, head_answers_are_read_heads, head_answers_are_reading,
    head_cuts_dont_matter, one_head_answer,
};
use part::{FoundPart, NextPart, needed_bytes, part_at_start, passed_bytes};
use rules::Rules;
use std::alloc::Allocator;

/// The head of a stream, whose bytes the caller holds and hands in.
///
/// ```
/// let mut head = HeadDecoder::new(0, FlacReaderOptions::default());
/// loop {
///     match head.decode_next(alloc, held, held_at, is_end)? {
///         HeadEvent::Block(MetadataBlock::StreamInfo(info)) => // ..
///         HeadEvent::Header(header) => // a picture's content: header.length bytes at header.position ..
///         HeadEvent::ReadOn(needed) => // drop the bytes before needed.position, and read more ..
///         HeadEvent::Whole(position) => // the first frame ..
///         HeadEvent::Faulty(fault) => // fault.error at fault.position ..
///         HeadEvent::Cut(_) => break,
///         _ => {}
///     }
/// }
/// ```
///
/// C keeps it as a `KeptHead`.
#[derive(Clone, Copy, Debug)]
pub struct HeadDecoder {
    // The position of the first byte that is needed.
    position: u64,
    // Where the marker or the metadata block begins that comes next or is open.
    begin: u64,
    next: NextPart,
    rules: Rules,
}

impl HeadDecoder {
    ghost use Rattle.claxon_stream.specs.HeadState.{
      FoundFits,
      PartFits,
      faulty_head,
      head_event_of,
      head_position,
      needs,
      new_head,
      part_shown,
      state_after_found,
      state_at,
    };
    ghost use Rattle.claxon_stream.specs.HeadDecoder.{
      EventHasBounds,
      HeadEventIsOfStream,
      HeadEventIsSound,
      PositionFits,
    };

    /// A decoder of the head that begins at this position of the stream, as of `read_head` with these options.
    pub fn new(position: u64, options: FlacReaderOptions) -> HeadDecoder
        ensures { result ≡ new_head position options }
    {
        HeadDecoder {
            position,
            begin: position,
            next: NextPart::Marker,
            rules: Rules::new(options),
        }
    }

    /// The position in the stream of the first byte that is needed.
    pub fn position(&self) -> u64
        ensures { result ≡ head_position self.now }
    {
        self.position
    }

    /// What comes next, by the bytes that are held: from the position `at` of the stream on, and up to its end if `is_end`.
    ///
    /// The marker comes first, and then of each metadata block its header and its content. Bytes before the position aren't needed. The
    /// content of an application or a Vorbis comment block is needed as a whole, up to 10 MiB, and of a picture or any other block
    /// whose content is skipped just the last byte: so none of it needs to be held. However the stream is cut into what is handed in,
    /// the answers other than `ReadOn` are the same. (RFC 9639, sections 6 and 8.)
    ///
    /// After `Whole`, `Faulty`, `Cut` and `ReadOn`, and after an Err, the decoder is as it was.
    ///
    /// # Errors
    ///
    /// `OutOfMemory` alone, in an application or a Vorbis comment block. The call can be made again.
    pub fn decode_next<A: Allocator + Copy>(
        &mut self,
        alloc: A,
        bytes: &[u8],
        at: u64,
        is_end: bool,
    ) -> Result<HeadEvent<A>>
        requires fits { PositionFits (at + length bytes.now) }
        ensures is_sound { HeadEventIsSound at bytes.now is_end self.old result self.new }
        ensures is_of_stream { HeadEventIsOfStream at bytes.now is_end self.old result self.new }
        ensures has_bounds { EventHasBounds result }
    {
        let now = *self;
        let position = now.position();
        let rest = held_from(bytes, at, position);
        let ends = ends_there(is_end, at, position);
        let needed = needed_bytes(now.next, now.rules);
        if rest.len() < needed && !ends {
            return Ok(read_on(position, needed));
        }
        let found = part_at_start(alloc, rest, now.next, now.rules);
        *self = now.after(&found);
        now.event_of(found)
    }

    // After what was found.
    fn after<A: Allocator>(self, found: &Result<FoundPart<A>>) -> HeadDecoder
        requires { FoundFits self found.now }
        ensures { result ≡ state_after_found self found.now }
    {
        match found {
            Ok(FoundPart::Marker) => self.at_end_of_part(NextPart::Header, self.rules),
            Ok(FoundPart::Header(header)) => HeadDecoder {
                position: self.end_of_part() + u64::from(passed_bytes(*header)),
                begin: self.begin,
                next: NextPart::Content(*header),
                rules: self.rules,
            },
            Ok(FoundPart::Block(block)) => {
                let ends = self.rules.end_after(is_last(self.next), block);
                self.at_end_of_part(part_after(ends), self.rules.after(block))
            }
            Ok(FoundPart::End) => self,
            Err(_) => self,
        }
    }

    // The position after the part that comes next.
    fn end_of_part(self) -> u64
        requires { self.position + needs self < 2 ^ 64 }
        ensures { result ≡ self.position + needs self }
    {
        needed_bytes(self.next, self.rules) as u64 + self.position
    }

    // There a metadata block begins, or the head ends.
    fn at_end_of_part(self, next: NextPart, rules: Rules) -> HeadDecoder
        requires { self.position + needs self < 2 ^ 64 }
        ensures { result ≡ state_at (self.position + needs self) next rules }
    {
        let position = self.end_of_part();
        HeadDecoder {
            position,
            begin: position,
            next,
            rules,
        }
    }

    // What is answered for what was found. The bytes are too few only where the stream ends.
    fn event_of<A: Allocator>(self, found: Result<FoundPart<A>>) -> Result<HeadEvent<A>>
        requires { FoundFits self found }
        ensures { result ≡ head_event_of self found }
    {
        match found {
            Ok(part) => Ok(self.shown(part)),
            Err(Error::IoError(_)) => Ok(HeadEvent::Cut(self.begin)),
            Err(Error::OutOfMemory) => Err(Error::OutOfMemory),
            Err(Error::FormatError(reason)) => Ok(self.faulty(Error::FormatError(reason))),
            Err(Error::Unsupported(feature)) => Ok(self.faulty(Error::Unsupported(feature))),
        }
    }

    // What is answered for a part.
    fn shown<A: Allocator>(self, part: FoundPart<A>) -> HeadEvent<A>
        requires { PartFits self (part_view part) }
        ensures { result ≡ part_shown self part }
    {
        match part {
            FoundPart::Marker => HeadEvent::Marker,
            FoundPart::Header(header) => HeadEvent::Header(MetadataBlockHeader {
                position: self.end_of_part(),
                is_last: header.is_last,
                block_type: header.block_type,
                length: header.length,
            }),
            FoundPart::Block(block) => HeadEvent::Block(block),
            FoundPart::End => HeadEvent::Whole(self.position),
        }
    }

    fn faulty<A: Allocator>(self, error: Error) -> HeadEvent<A>
        ensures { result ≡ faulty_head self error }
    {
        HeadEvent::Faulty(StreamFault {
            position: self.begin,
            error,
        })
    }
}

// Whether the block whose content comes next is marked as last.
fn is_last(next: NextPart) -> bool
    ensures { result ≡ is_last next }
{
    match next {
        NextPart::Content(header) => header.is_last,
        _ => false,
    }
}

// What comes after a block.
fn part_after(ends: bool) -> NextPart
    ensures { result ≡ part_after ends }
{
    if ends {
        NextPart::End
    } else {
        NextPart::Header
    }
}

fn read_on<A: Allocator>(position: u64, count: usize) -> HeadEvent<A>
    ensures { result ≡ read_on position count }
{
    HeadEvent::ReadOn(NeededBytes { position, count })
}
