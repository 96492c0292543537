//! Seeking in streams that are read from bytes which the caller holds, and where their blocks stand in time.
#![tactic(auto)]

mod clock;
mod event;
mod laws;
mod search;
mod seeker;
mod sought;

pub use clock::{Clock, KeptClock};
pub use event::{SeekEvent, SoughtFrame};
pub use laws::{not_found_is_none, seeks_agree};
pub use seeker::{KeptSeeker, Seeker};
