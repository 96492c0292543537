//! The parts of a stream, one after another.
ghost use Rattle.std.specs.Prelude.{
  ◌≡◌,
  ◌+◌,
  ◌^◌,
  ◌<◌,
  ◌≤◌,
  IfErr,
  IfOk,
  IfSome,
  false,
  true,
  length,
  take,
};
ghost use Rattle.claxon.specs.Error.{is_out_of_memory};
ghost use Rattle.claxon.specs.ShownHead.{HasBitDepth};
ghost use Rattle.claxon_recovery.specs.Kept.{most_kept};
ghost use Rattle.claxon_recovery.specs.Steps.{first_step, step_count};
ghost use Rattle.claxon_recovery.specs.Stream.{stream_known};
ghost use Rattle.claxon_recovery.specs.Window.{most_pending};

use crate::at_start::{Answer, frame_at_start};
use crate::budget::Budget;
use crate::part::{Cause, Damage, FrameThere, Part};
use crate::passed::Passed;
use crate::search::{Next, next_frame};
use crate::stream::Stream;
use crate::window::Window;
use claxon::frame::DecodedFrame;
use claxon::input::ReadBytes;
use claxon::metadata::StreamInfo;
use claxon::{Error, Result};
use claxon_seek::BlockMemory;
use std::alloc::Global;

// How many bytes are read at first.
const USUAL: usize = 64 * 1024;

/// The parts of a stream whose head was read.
///
/// ```
/// let mut parts = Parts::new(alloc, &mut input, Some(info), position)?;
/// while let Some(part) = parts.next_part()? {
///     match part {
///         Part::Frame(there) => play(there.frame.block)?,
///         Part::Damage(damage) => report(damage.start, damage.end)?,
///     }
/// }
/// ```
#[derive(Drop)]
pub struct Parts<R> {
    window: Window<R>,
    stream: Stream,
    memory: BlockMemory,
    // The position of the first pending byte, modulo 2^64.
    position: u64,
    budget: Budget,
    // How many bytes are read before a frame is decoded.
    usual: usize,
    ghost most: { most_pending window ≡ most_kept (stream_known stream) },
}

// What stands at a position.
#[derive(Drop)]
pub(crate) enum Here {
    // A frame, of so many bytes.
    Frame(usize, DecodedFrame),
    // None, for this cause.
    NoFrame(Cause),
    // Nothing: the stream ends.
    End,
}

// Positions at which no frame begins.
#[derive(Clone, Copy)]
pub(crate) struct Step {
    // How many they are.
    pub searched: usize,
    // Whether the next one is passed too, though it isn't known whether a frame begins there.
    pub passes_next: bool,
    // Whether the stream ends after them, or a frame begins there.
    pub is_last: bool,
}

impl Step {
    // How many positions are passed.
    fn count(self) -> usize
        requires { self.searched + 1 < 2 ^ 64 }
        ensures { result ≡ step_count self }
    {
        if self.passes_next {
            self.searched + 1
        } else {
            self.searched
        }
    }
}

impl<R: ReadBytes> Parts<R> {
    ghost use Rattle.claxon_seek.specs.BlockMemory.{MemoryIsCounted};
    ghost use Rattle.claxon_recovery.specs.Parts.{
      BeginsParts,
      DamageGives,
      DamageIsCounted,
      FrameIsFound,
      HereGives,
      HereIsCounted,
      KeepsStream,
      PartErrIsExcused,
      PartGives,
      PartIsThere,
      PassesBytes,
      StepGives,
      StepIsCounted,
      TakesStep,
      UnsearchedIsCounted,
      parts_memory,
      parts_pending,
      parts_position,
      parts_source,
    };

    /// The parts of the stream with this streaminfo, whose next byte is at this position. Where no streaminfo is known the frames are
    /// those that say their whole format themselves, of any format.
    ///
    /// # Errors
    ///
    /// `OutOfMemory` alone, where memory for the bytes is refused.
    pub fn new(
        alloc: Global,
        source: R,
        known: Option<StreamInfo>,
        position: u64,
    ) -> Result<Parts<R>>
    where
        R: Drop,
        requires { IfSome known (λ info. HasBitDepth info) }
        ensures begins { IfOk result (BeginsParts source known position) }
        ensures err { IfErr result (λ e. e ≡ Error.OutOfMemory) }
    {
        let stream = Stream::new(known);
        Ok(Parts {
            window: Window::new(alloc, source, stream.most_kept())?,
            stream,
            memory: BlockMemory::new(alloc),
            position,
            budget: Budget::new(),
            usual: USUAL,
        })
    }

    /// The next part; None at the end. A part begins after the one before it, the first one at the position that was passed in.
    ///
    /// A frame is decoded where it has no more than 512 KiB, or no more bytes than a verbatim frame of the streaminfo's largest
    /// block may have. Damage goes up to the next frame, which is searched from its second byte on, within a budget: where very
    /// many headers lead to no frame, as in bytes that were made on purpose, further ones are passed unsearched, and counted.
    /// So the time is linear in the bytes.
    ///
    /// # Errors
    ///
    /// `IoError` if a read of the source fails; bytes may be lost then. `OutOfMemory` exactly where memory for a block was
    /// refused. `Unsupported` if 2^64 bytes or more are no frame.
    pub fn next_part(&mut self) -> Result<Option<Part>>
        ensures part_is_there { PartIsThere R.source self.old self.new result }
        ensures frame_is_found { FrameIsFound R.source self.old self.new result }
        ensures err_is_excused { PartErrIsExcused R.source self.old self.new result }
        ensures unsearched_is_counted { UnsearchedIsCounted self.old self.new result }
        ensures memory_is_counted { MemoryIsCounted result
            (parts_memory self.old) (parts_memory self.new) }
        ensures keeps_stream { KeepsStream self.old self.new }
    {
        self.next_part_exact()
    }

    /// The source. Of its bytes those are read that the parts hold, and some after them.
    pub fn into_source(self) -> R
        ensures is_source { result ≡ parts_source self }
    {
        let Parts {
            window,
            stream: _,
            memory: _,
            position: _,
            budget: _,
            usual: _,
        } = self;
        window.into_source()
    }

    // `next_part`, with one clause of what it answers.
    fn next_part_exact(&mut self) -> Result<Option<Part>>
        ensures gives { PartGives R.source self.old self.new result }
        ensures is_counted { UnsearchedIsCounted self.old self.new result }
        ensures memory_is_counted { MemoryIsCounted result
            (parts_memory self.old) (parts_memory self.new) }
        ensures keeps_stream { KeepsStream self.old self.new }
    {
        match self.part_here()? {
            Here::Frame(len, frame) => Ok(Some(Part::Frame(self.frame(len, frame)))),
            Here::NoFrame(cause) => Ok(Some(Part::Damage(self.damage(cause)?))),
            Here::End => Ok(None),
        }
    }

    // What stands at the position. As many bytes are read as it takes to tell, up to those that are kept.
    fn part_here(&mut self) -> Result<Here>
        ensures gives { HereGives R.source self.old self.new result }
        ensures is_counted { IfOk result (λ here. HereIsCounted self.old self.new here) }
        ensures memory_is_counted { MemoryIsCounted result
            (parts_memory self.old) (parts_memory self.new) }
        ensures keeps_stream { KeepsStream self.old self.new }
    {
        let known = self.stream.known();
        let most = self.stream.most_kept();
        let mut wanted = self.usual.clamp(USUAL, most);
        loop {
            let is_full = self.window.fill(wanted)?;
            let bytes = self.window.pending();
            if bytes.is_empty() {
                return Ok(Here::End);
            }
            match frame_at_start(&mut self.memory, bytes, known, &mut self.budget)? {
                Answer::Found(len, frame) => return Ok(Here::Frame(len, frame)),
                Answer::NoFrame(cause) => return Ok(Here::NoFrame(cause)),
                Answer::Undecided if !is_full => return Ok(Here::NoFrame(Cause::Cut)),
                Answer::Undecided if wanted == most => {
                    self.budget.pass_long(bytes, known);
                    return Ok(Here::NoFrame(Cause::TooLong));
                }
                Answer::Undecided => wanted = (2 * wanted).min(most),
            }
        }
    }

    // Passes a frame of so many bytes.
    fn frame(&mut self, len: usize, frame: DecodedFrame) -> FrameThere
        requires { len ≤ length (parts_pending self.old) }
        ensures passes { PassesBytes len self.old self.new }
        ensures keeps_stream { KeepsStream self.old self.new }
        ensures is_there { result ≡ (record {
          start = parts_position self.old;
          end = parts_position self.new;
          frame = frame;
        }) }
    {
        let start = self.position;
        self.usual = self.usual.max(len.saturating_mul(2));
        self.pass(len);
        FrameThere {
            start,
            end: self.position,
            frame,
        }
    }

    // Passes so many of the pending bytes.
    fn pass(&mut self, count: usize)
        requires { count ≤ length (parts_pending self.old) }
        ensures passes { PassesBytes count self.old self.new }
        ensures keeps_stream { KeepsStream self.old self.new }
    {
        self.window.pass(count);
        self.position = self.position.wrapping_add(count as u64);
        self.budget.make_good(count);
    }

    // Passes the damage that begins at the position, if no frame stands there for this cause.
    fn damage(&mut self, cause: Cause) -> Result<Damage>
        requires { 1 ≤ length (parts_pending self.old) }
        ensures gives { DamageGives R.source self.old self.new cause result }
        ensures is_counted { IfOk result (λ damage. DamageIsCounted self.old self.new cause damage) }
        ensures memory_is_counted { MemoryIsCounted result
            (parts_memory self.old) (parts_memory self.new) }
        ensures keeps_stream { KeepsStream self.old self.new }
    {
        let start = self.position;
        let mut passed = self.take(first_step(&cause), Passed::new());
        for _ in 0..u64::MAX {
            let step = self.search()?;
            passed = self.take(step, passed);
            if step.is_last {
                return Ok(Damage {
                    start,
                    end: self.position,
                    cause,
                    unsearched: passed.unsearched,
                    first: passed.first,
                    are_zeros: passed.are_zeros,
                });
            }
        }
        Err(too_long())
    }

    // Passes these positions.
    fn take(&mut self, step: Step, passed: Passed) -> Passed
        requires { step_count step ≤ length (parts_pending self.old) }
        ensures passes { PassesBytes (step_count step) self.old self.new }
        ensures keeps_stream { KeepsStream self.old self.new }
        ensures takes { TakesStep (take (step_count step) (parts_pending self.old)) step
            passed result }
    {
        let count = step.count();
        let passed = passed.with(&self.window.pending()[..count]);
        self.pass(count);
        if step.passes_next {
            passed.with_unsearched()
        } else {
            passed
        }
    }

    // The next positions at which no frame begins.
    fn search(&mut self) -> Result<Step>
        ensures gives { StepGives R.source self.old self.new result }
        ensures is_counted { IfOk result (λ step. StepIsCounted self.old self.new step) }
        ensures memory_is_counted { MemoryIsCounted result
            (parts_memory self.old) (parts_memory self.new) }
        ensures keeps_stream { KeepsStream self.old self.new }
    {
        let known = self.stream.known();
        let most = self.stream.most_kept();
        let mut wanted = USUAL;
        loop {
            let is_full = self.window.fill(wanted)?;
            let bytes = self.window.pending();
            let len = bytes.len();
            match next_frame(&mut self.memory, bytes, known, &mut self.budget)? {
                Next::Frame(at) => return Ok(last_step(at)),
                Next::OverBudget(at) => return Ok(passed_step(at)),
                Next::Undecided(at) if !is_full && at == len => return Ok(last_step(at)),
                Next::Undecided(at) if !is_full => return Ok(searched_step(at + 1)),
                Next::Undecided(at) if at > 0 => return Ok(searched_step(at)),
                Next::Undecided(at) if wanted == most => {
                    self.budget.pass_long(bytes, known);
                    return Ok(passed_step(at));
                }
                Next::Undecided(_) => wanted = (2 * wanted).min(most),
            }
        }
    }
}

// The first position, at which no frame begins for this cause.
fn first_step(cause: &Cause) -> Step
    ensures { result ≡ first_step cause.now }
{
    if matches!(cause, Cause::TooLong) {
        passed_step(0)
    } else {
        searched_step(1)
    }
}

fn searched_step(searched: usize) -> Step
    ensures { result ≡ (record { searched = searched; passes_next = false; is_last = false }) }
{
    Step {
        searched,
        passes_next: false,
        is_last: false,
    }
}

fn last_step(searched: usize) -> Step
    ensures { result ≡ (record { searched = searched; passes_next = false; is_last = true }) }
{
    Step {
        searched,
        passes_next: false,
        is_last: true,
    }
}

// Up to this position, which is passed too.
fn passed_step(searched: usize) -> Step
    ensures { result ≡ (record { searched = searched; passes_next = true; is_last = false }) }
{
    Step {
        searched,
        passes_next: true,
        is_last: false,
    }
}

// That there are more bytes than can be counted.
pub(crate) fn too_long() -> Error
    ensures { is_out_of_memory result ≡ false }
{
    Error::Unsupported("2^64 bytes or more that are no frame")
}
