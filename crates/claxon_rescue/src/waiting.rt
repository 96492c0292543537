//! Frames that wait until those after them are known.
ghost use Rattle.std.specs.Prelude.{◌≡◌, ◌+◌, ◌≤◌, length, vec_capacity};
ghost use Rattle.claxon_rescue.specs.LookAhead.{look_ahead};

use claxon_recovery::FrameThere;
use std::alloc::{AllocError, Global};

// How many frames after one decide whether it is written: half as many that stand ahead, one after another, are found.
const LOOK_AHEAD: usize = 32;

/// The next frames of a stream.
#[derive(Drop)]
pub(crate) struct Waiting {
    frames: Vec<FrameThere>,
    ghost few: { length frames.items ≤ look_ahead + 1 },
    ghost has_room: { look_ahead + 1 ≤ vec_capacity frames },
}

impl Waiting {
    ghost use Rattle.std.specs.Prelude.{[], ◌∷◌, ◌++◌, IfOk, false, true};
    ghost use Rattle.claxon_rescue.specs.Waiting.{TakesFirst, waiting_frames};

    /// None so far.
    pub fn new(alloc: Global) -> Result<Waiting, AllocError>
        ensures none { IfOk result (λ waiting. waiting_frames waiting ≡ []) }
    {
        Ok(Waiting {
            frames: Vec::with_capacity(alloc, look_ahead() + 1)?,
        })
    }

    /// Whether it is known which frames come after the first one, as many as decide.
    pub fn is_full(&self) -> bool
        ensures full { result ≡ true → length (waiting_frames self.now) ≡ look_ahead + 1 }
        ensures has_room { result ≡ false → length (waiting_frames self.now) ≤ look_ahead }
    {
        self.frames.len() > look_ahead()
    }

    /// The frames that wait.
    pub fn frames(&self) -> &[FrameThere]
        ensures frames { result.now ≡ waiting_frames self.now }
    {
        self.frames.as_slice()
    }

    /// One frame more.
    pub fn push(&mut self, there: FrameThere)
        requires has_room { length (waiting_frames self.old) ≤ look_ahead }
        ensures frames { waiting_frames self.new ≡ waiting_frames self.old ++ there ∷ [] }
    {
        self.frames.push_reserved(there);
    }

    /// Takes the first one, if there is one.
    pub fn take_first(&mut self) -> Option<FrameThere>
        ensures takes_first { TakesFirst self.old self.new result }
    {
        if self.frames.is_empty() {
            return None;
        }
        Some(self.frames.remove(0))
    }
}

#[tactic(auto, unfolding(crate::specs::LookAhead::look_ahead))]
fn look_ahead() -> usize
    ensures value { result ≡ look_ahead }
    ensures few { result ≤ 32 }
{
    LOOK_AHEAD
}
