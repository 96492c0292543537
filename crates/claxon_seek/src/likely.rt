//! Where the frame with a sample is likely to begin, by headers between times that are known.
//!
//! A false header or times out of order can mislead it, so nothing is promised of the position: `seek` reads the frame there.
ghost use Rattle.std.specs.Prelude.{◌≡◌, ◌+◌, ◌≤◌, ◌<◌, IfSome, length};
ghost use Rattle.claxon.specs.ShownHead.{HasBitDepth};

use crate::find::{HeaderThere, holds_sample, wanted_header};
use crate::search::FoundFrame;
use claxon::frame::BlockInfo;
use claxon::metadata::StreamInfo;

/// How many headers are read at most.
pub const MAX_STEPS: u32 = 96;

// How many before each other step halves the bytes.
const STEPS_BY_TIME: u32 = 8;

// The time of a frame of which it isn't known.
const NOT_KNOWN: u64 = u64::MAX;

/// Positions between which the frame is, if times ascend. In memory it is laid out as the same struct in C.
#[repr(C)]
#[derive(Clone, Copy, Debug)]
pub struct Span {
    // The position after a frame that ends at `start_time`, or of the first frame.
    start: usize,
    start_time: u64,
    // A position from which on frames are later than the sample, and the time of the first of them, or NOT_KNOWN.
    pub end: usize,
    end_time: u64,
    ghost ordered: { start ≤ end },
}

/// What a header says of the search.
#[derive(Clone, Copy)]
pub enum Step {
    /// The header at this position says that its block has the sample.
    There(usize),
    /// The frame is between these.
    Between(Span),
    /// There are no positions left.
    Nowhere,
}

impl Span {
    ghost use Rattle.claxon_seek.specs.Likely.{StepsWithin};

    /// All positions from the first frame's to the end.
    pub fn whole(first_frame: usize, end: usize, known: Option<StreamInfo>, sample: u64) -> Span
        requires { first_frame ≤ end }
        ensures start { result.start ≡ first_frame }
        ensures end { result.end ≡ end }
    {
        Span {
            start: first_frame,
            start_time: 0,
            end,
            end_time: known
                .and_then(|info| info.samples.filter(|samples| sample < *samples))
                .unwrap_or(NOT_KNOWN),
        }
    }

    /// The position to read on from for a header: that of the block before the sample's, if all samples took as many bytes.
    pub fn guess(&self, step: u32, sample: u64, block_size: u64) -> usize
        ensures at_least { self.now.start ≤ result }
        ensures at_most { result ≤ self.now.end }
    {
        let width = self.end - self.start;
        let halves = step >= STEPS_BY_TIME && step % 2 == 1;
        if halves || self.end_time == NOT_KNOWN || self.end_time <= self.start_time {
            return self.start + width / 2;
        }
        let ahead = sample
            .saturating_sub(self.start_time)
            .saturating_sub(block_size);
        let duration = self.end_time - self.start_time;
        let offset = match (width as u64).checked_mul(ahead) {
            Some(product) => product / duration,
            None => width as u64 / 2,
        };
        self.start + (offset as usize).min(width)
    }

    // The part after a frame.
    fn after(&self, frame: FoundFrame) -> Span
        requires after_start { self.now.start ≤ frame.position }
        requires before_end { frame.position < self.now.end }
        ensures start { self.now.start ≤ result.start }
        ensures end { result.end ≡ self.now.end }
    {
        Span {
            start: frame.position.saturating_add(1),
            start_time: frame
                .block
                .time
                .saturating_add(u64::from(frame.block.duration)),
            end: self.end,
            end_time: self.end_time,
        }
    }

    // The part before the position, from which on this is the first frame.
    fn before(&self, position: usize, frame: Option<FoundFrame>) -> Span
        requires { self.now.start ≤ position }
        ensures start { result.start ≡ self.now.start }
        ensures end { result.end ≡ position }
    {
        Span {
            start: self.start,
            start_time: self.start_time,
            end: position,
            end_time: frame.map_or(self.end_time, |frame| frame.block.time),
        }
    }

    /// What the first header from the position on says, if there is one.
    pub fn step(&self, from: usize, found: Option<FoundFrame>, sample: u64) -> Step
        requires after_start { self.now.start ≤ from }
        requires before_end { from ≤ self.now.end }
        requires found { IfSome found (λ f. (from ≤ f.position) × (f.position < self.now.end)) }
        ensures steps_within { StepsWithin self.now.start self.now.end from result }
    {
        match found {
            Some(found) if holds_sample(&found.block, Some(sample)) => Step::There(found.position),
            Some(found) if found.block.time <= sample => Step::Between(self.after(found)),
            _ if from == self.start => Step::Nowhere,
            _ => Step::Between(self.before(from, found)),
        }
    }

    /// Whether a header between the positions can say this.
    pub fn is_likely(&self, block: &BlockInfo) -> bool {
        block.time >= self.start_time && block.time < self.end_time
    }
}

// The position of a header that says that its block has the sample.
pub(crate) fn likely_position(
    bytes: &[u8],
    known: Option<StreamInfo>,
    first_frame: usize,
    sample: u64,
) -> Option<usize>
    requires { IfSome known (λ info. HasBitDepth info) }
    ensures at_least { IfSome result (λ position. first_frame ≤ position) }
    ensures at_most { IfSome result (λ position. position < length bytes.now) }
{
    if first_frame >= bytes.len() {
        return None;
    }
    let mut span = Span::whole(first_frame, bytes.len(), known, sample);
    // So that the time is linear in the bytes, also where headers are far apart.
    let mut left_to_read = bytes.len();
    for step in 0..MAX_STEPS {
        let from = span.guess(step, sample, max_block_size(known));
        let found = likely_header(&bytes[from..], from, &span, known);
        let read = found.map_or(span.end, |found| found.position) - from;
        left_to_read = left_to_read.checked_sub(read)?;
        match span.step(from, found, sample) {
            Step::There(position) => return Some(position),
            Step::Between(next) => span = next,
            Step::Nowhere => return None,
        }
    }
    None
}

/// The streaminfo's, or 0.
pub fn max_block_size(known: Option<StreamInfo>) -> u64 {
    known.map_or(0, |info| u64::from(info.max_block_size))
}

// The first header that the span can have in these bytes, of which the first is at the position `from`.
pub(crate) fn likely_header(
    bytes: &[u8],
    from: usize,
    span: &Span,
    known: Option<StreamInfo>,
) -> Option<FoundFrame>
    requires { IfSome known (λ info. HasBitDepth info) }
    ensures at_least { IfSome result (λ found. from ≤ found.position) }
    ensures before_end { IfSome result (λ found. found.position < span.now.end) }
    ensures at_most { IfSome result (λ found. found.position < from + length bytes.now) }
{
    let len = span.end.saturating_sub(from).min(bytes.len());
    let mut start = 0;
    while start < len {
        start += bytes_without_ff(&bytes[start..len]);
        let found = header_in_eight(bytes, start, from, span, known);
        if found.is_some() {
            return found;
        }
        start = start.saturating_add(8);
    }
    None
}

// The first such header that begins at one of eight positions from `start` on.
#[inline(never)]
fn header_in_eight(
    bytes: &[u8],
    start: usize,
    from: usize,
    span: &Span,
    known: Option<StreamInfo>,
) -> Option<FoundFrame>
    requires { IfSome known (λ info. HasBitDepth info) }
    ensures at_least { IfSome result (λ found. from ≤ found.position) }
    ensures before_end { IfSome result (λ found. found.position < span.now.end) }
    ensures at_most { IfSome result (λ found. found.position < from + length bytes.now) }
{
    let len = span.end.saturating_sub(from).min(bytes.len());
    for i in start..len.min(start.saturating_add(8)) {
        if let HeaderThere::Wanted(header) = wanted_header(&bytes[i..], &known, None) {
            let block = header.info();
            if span.is_likely(&block) {
                return Some(FoundFrame {
                    position: from + i,
                    block,
                });
            }
        }
    }
    None
}

/// How many bytes there are, in steps of eight, before eight that may have a byte 0xff, with which each header begins.
#[inline(never)]
pub fn bytes_without_ff(bytes: &[u8]) -> usize
    ensures { result ≤ length bytes.now }
{
    let (eights, _) = bytes.as_chunks::<8>();
    for (i, eight) in eights.iter().enumerate() {
        if may_have_ff(u64::from_le_bytes(*eight)) {
            return 8 * i;
        }
    }
    8 * eights.len()
}

// Without a byte 0xff no subtraction borrows, so none sets a highest bit that `!word` lacks.
#[inline(always)]
fn may_have_ff(word: u64) -> bool {
    (!word).wrapping_sub(LOWEST_BITS) & word & HIGHEST_BITS != 0
}

// The lowest and the highest bit of each of eight bytes.
const LOWEST_BITS: u64 = 0x0101_0101_0101_0101;

const HIGHEST_BITS: u64 = 0x8080_8080_8080_8080;
