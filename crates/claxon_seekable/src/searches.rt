//! What searches answered. The counts are private to this module, so that nothing else can change them.
//!
//! That `seek_next` asks the engine no clause can say: these few lines have to be read.
ghost use Rattle.std.specs.Prelude.{◌+◌, ◌<◌, IfSome, length};
ghost use Rattle.claxon.specs.ShownHead.{HasBitDepth};
ghost use Rattle.claxon_stream_seek.specs.Seeker.{SeekFindsHeld, SeekKeepsSought};
ghost use Rattle.claxon_seekable.specs.Searches.{AnswerIsCounted, IsNewCount};

use claxon::Result;
use claxon::metadata::StreamInfo;
use claxon_stream_seek::{SeekEvent, Seeker};
use std::alloc::Global;

// How many searches found no frame, and how many were over their budget, modulo 2^64.
#[derive(Clone, Copy)]
pub(crate) struct SearchCounts {
    not_found: u64,
    over_budget: u64,
    // How often a seeker may still be asked.
    calls_left: u64,
}

impl SearchCounts {
    pub(crate) fn new() -> SearchCounts
        ensures { IsNewCount result }
    {
        SearchCounts {
            not_found: 0,
            over_budget: 0,
            calls_left: u64::MAX,
        }
    }

    // What the seeker answers, and `OverBudget` after 2^64 calls. Counts this and `NotFound`.
    pub(crate) fn seek_next(
        &mut self,
        seeker: &mut Seeker,
        alloc: Global,
        bytes: &[u8],
        at: u64,
        is_end: bool,
        known: Option<StreamInfo>,
    ) -> Result<SeekEvent>
        requires depth { IfSome known (λ info. HasBitDepth info) }
        requires fits { at + length bytes.now < u64.MAX }
        ensures keeps_sought { SeekKeepsSought seeker.old seeker.new }
        ensures finds_held { SeekFindsHeld known at bytes.now seeker.old result seeker.new }
        ensures is_counted { AnswerIsCounted self.old result self.new }
    {
        let Some(calls_left) = self.calls_left.checked_sub(1) else {
            self.over_budget = self.over_budget.wrapping_add(1);
            return Ok(SeekEvent::OverBudget);
        };
        self.calls_left = calls_left;
        let answer = seeker.seek_next(alloc, bytes, at, is_end, known)?;
        match &answer {
            SeekEvent::NotFound => self.not_found = self.not_found.wrapping_add(1),
            SeekEvent::OverBudget => self.over_budget = self.over_budget.wrapping_add(1),
            SeekEvent::Found(_) => {}
            SeekEvent::ReadOn(_) => {}
        }
        Ok(answer)
    }
}
