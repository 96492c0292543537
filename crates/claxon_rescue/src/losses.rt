//! What is lost of a damaged stream.
ghost use Rattle.std.specs.Prelude.{◌≤◌, vec_capacity};

use std::alloc::{AllocError, Global};

/// Why the samples of a range aren't written.
#[derive(Clone, Copy, Debug, PartialEq, Eq)]
pub enum LossKind {
    /// No whole frame has them.
    Missing,
    /// A frame has them that is repeated, out of order, or too far away.
    LeftOut,
}

/// Samples of a damaged stream that aren't written.
#[derive(Clone, Copy, Debug, PartialEq, Eq)]
pub struct LostRange {
    /// Why they aren't.
    pub kind: LossKind,
    /// The number of the first sample.
    pub start_sample: u64,
    /// The number after that of the last sample.
    pub end_sample: u64,
    /// The position of the first byte: after the last frame that was written, or where the frame begins that is left out.
    pub start_byte: u64,
    /// The position after the last byte.
    pub end_byte: u64,
}

impl LostRange {
    ghost use Rattle.std.specs.Prelude.{◌≡◌};
    ghost use Rattle.claxon_rescue.specs.Losses.{missing_of};

    // How many samples are missing.
    fn missing(&self) -> u64
        ensures { result ≡ missing_of self.now }
    {
        match self.kind {
            LossKind::Missing => self.end_sample.saturating_sub(self.start_sample),
            LossKind::LeftOut => 0,
        }
    }
}

/// What is lost of a damaged stream.
#[derive(Debug, Drop)]
pub struct Losses {
    /// The first ranges, as many as are kept.
    pub ranges: Vec<LostRange>,
    /// How many ranges there are, modulo 2^64.
    pub count: u64,
    /// How many samples of each channel are missing, modulo 2^64.
    pub missing: u64,
    // How many ranges are kept.
    max_ranges: usize,
    ghost has_room: { max_ranges ≤ vec_capacity ranges },
}

impl Losses {
    ghost use Rattle.std.specs.Prelude.{◌≡◌, [], IfOk};
    ghost use Rattle.claxon_rescue.specs.Losses.{HasNoted, NotesRange};

    /// Nothing is lost so far. So many ranges are kept.
    pub(crate) fn new(alloc: Global, max_ranges: usize) -> Result<Losses, AllocError>
        ensures none { IfOk result (HasNoted max_ranges []) }
    {
        Ok(Losses {
            ranges: Vec::with_capacity(alloc, max_ranges)?,
            count: 0,
            missing: 0,
            max_ranges,
        })
    }

    /// One range more.
    pub(crate) fn note(&mut self, range: LostRange)
        ensures notes_range { NotesRange range self.old self.new }
    {
        self.count = self.count.wrapping_add(1);
        self.missing = self.missing.wrapping_add(range.missing());
        if self.ranges.len() < self.max_ranges {
            let _ = self.ranges.push(range);
        }
    }
}
