//! How many files of a run have each verdict.
ghost use Rattle.std.specs.Prelude.{◌≡◌};
ghost use Rattle.claxon_verdict.specs.Tally.{IsEmptyTally, IsTallyWith, files_of};
ghost use Rattle.claxon_verdict.specs.Verdict.{status_of};

use crate::verdict::{Outcome, Verdict};
use std::alloc::{AllocError, Global};

/// How many files of a run have each verdict. No number goes above 2^64 - 1.
#[derive(Clone, Copy)]
pub struct Tally {
    /// Files that are right.
    pub right: u64,
    /// Files that are wrong.
    pub wrong: u64,
    /// Files that aren't supported.
    pub not_supported: u64,
    /// Files and folders that can't be read.
    pub not_read: u64,
    /// What became of all.
    pub outcome: Outcome,
}

impl Tally {
    /// That of no files.
    pub fn new() -> Tally
        ensures is_empty { IsEmptyTally result }
    {
        Tally {
            right: 0,
            wrong: 0,
            not_supported: 0,
            not_read: 0,
            outcome: Outcome::Right,
        }
    }

    /// With one more file, of this verdict.
    pub fn with(self, verdict: Verdict) -> Tally
        ensures is_tally_with { IsTallyWith verdict self result }
    {
        let mut tally = self;
        match verdict {
            Verdict::Right => tally.right = self.right.saturating_add(1),
            Verdict::Wrong => tally.wrong = self.wrong.saturating_add(1),
            Verdict::NotSupported(_) => {
                tally.not_supported = self.not_supported.saturating_add(1);
            }
            Verdict::NotRead => tally.not_read = self.not_read.saturating_add(1),
        }
        tally.outcome = self.outcome.worst(verdict.outcome());
        tally
    }

    /// How many files there are.
    pub fn files(self) -> u64
        ensures { result ≡ files_of self }
    {
        self.right
            .saturating_add(self.wrong)
            .saturating_add(self.not_supported)
            .saturating_add(self.not_read)
    }

    /// The exit status.
    pub fn status(self) -> u8
        ensures { result ≡ status_of self.outcome }
    {
        self.outcome.status()
    }
}

/// The last line of a run.
pub fn summary_line(alloc: Global, tally: Tally) -> Result<String, AllocError> {
    let (
        files,
        Tally {
            right,
            wrong,
            not_supported,
            not_read,
            ..
        },
    ) = (tally.files(), tally);
    let end = if files == 1 { "" } else { "s" };
    format!(in alloc;
        "{files} file{end}: {right} ok, {wrong} wrong, {not_supported} not supported, {not_read} not read\n"
    )
}

/// The last object of a run, and a line feed.
pub fn summary_object(alloc: Global, tally: Tally) -> Result<String, AllocError> {
    let (
        files,
        Tally {
            right,
            wrong,
            not_supported,
            not_read,
            ..
        },
    ) = (tally.files(), tally);
    format!(in alloc;
        "{{\"files\":{files},\"ok\":{right},\"wrong\":{wrong},\"not_supported\":{not_supported},\"not_read\":{not_read}}}\n"
    )
}
