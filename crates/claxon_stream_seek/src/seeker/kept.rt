//! A seeker as a plain struct, as C keeps it.
ghost use Rattle.std.specs.Prelude.{◌≡◌};
ghost use Rattle.claxon_stream_seek.specs.Kept.{kept_seeker, kept_stage};

use super::{Seeker, Stage};
use crate::clock::KeptClock;
use crate::search::ByteSearch;
use crate::sought::Sought;
use claxon_seek::Span;
use claxon_stream::{Budget, FrameDecoder};

// The numbers of stages. Any other says that all bytes are searched.
const HEADERS: u8 = 0;

const LIKELY_FRAME: u8 = 1;

const ALL_BYTES: u8 = 2;

/// A `Seeker` as C keeps it. In memory it is laid out as the same struct in C.
#[repr(C)]
#[derive(Clone, Copy, Debug)]
pub struct KeptSeeker {
    stage: u8,
    steps: u32,
    bytes_left: u64,
    span: Span,
    scanned: u64,
    likely: FrameDecoder,
    has_asked: bool,
    // What is sought.
    clock: KeptClock,
    sample: u64,
    first_frame: u64,
    // The search of all bytes.
    position: u64,
    decoder: FrameDecoder,
    budget: Budget,
    has_passed_over: bool,
}

impl KeptSeeker {
    /// The seeker as it is kept.
    pub fn new(seeker: Seeker) -> KeptSeeker
        ensures { kept_seeker result ≡ seeker }
    {
        let search = seeker.search;
        KeptSeeker {
            stage: numbered(seeker.stage),
            steps: seeker.steps,
            bytes_left: seeker.bytes_left,
            span: seeker.span,
            scanned: seeker.scanned,
            likely: seeker.likely,
            has_asked: seeker.has_asked,
            clock: KeptClock::new(search.sought.clock),
            sample: search.sought.sample,
            first_frame: search.sought.first_frame,
            position: search.position,
            decoder: search.decoder,
            budget: search.budget,
            has_passed_over: search.has_passed_over,
        }
    }

    /// The seeker that is kept.
    pub fn seeker(&self) -> Seeker
        ensures { result ≡ kept_seeker self.now }
    {
        let sought = Sought {
            clock: self.clock.clock(),
            sample: self.sample,
            first_frame: self.first_frame,
        };
        Seeker {
            stage: stage_by(self.stage),
            steps: self.steps,
            bytes_left: self.bytes_left,
            span: self.span,
            scanned: self.scanned,
            likely: self.likely,
            has_asked: self.has_asked,
            search: ByteSearch {
                sought,
                position: self.position,
                decoder: self.decoder,
                budget: self.budget,
                has_passed_over: self.has_passed_over,
            },
        }
    }
}

fn stage_by(number: u8) -> Stage
    ensures { result ≡ kept_stage number }
{
    match number {
        HEADERS => Stage::Headers,
        LIKELY_FRAME => Stage::LikelyFrame,
        _ => Stage::AllBytes,
    }
}

fn numbered(stage: Stage) -> u8
    ensures { kept_stage result ≡ stage }
{
    match stage {
        Stage::Headers => HEADERS,
        Stage::LikelyFrame => LIKELY_FRAME,
        Stage::AllBytes => ALL_BYTES,
    }
}
