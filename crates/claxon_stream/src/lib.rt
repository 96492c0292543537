//! Streams that are read from bytes which the caller holds. No call reads or waits: a value says which bytes are needed next.
#![tactic(auto)]

mod at_start;
mod budget;
mod ending;
mod event;
mod find_laws;
mod finder;
mod frames;
mod head;
mod header;
mod laws;

pub use budget::Budget;
pub use event::{Event, FindEvent, NeededBytes, StreamFault};
pub use find_laws::{find_cuts_dont_matter, find_is_first, finds_are_find_frames, one_find};
pub use finder::FrameFinder;
pub use frames::{FrameDecoder, ends_there, held_from};
pub use head::{
    HeadDecoder, HeadEvent, KeptHead, MetadataBlockHeader, head_answers_are_complete,
    head_answers_are_read_heads, head_answers_are_reading, head_cuts_dont_matter, one_head_answer,
};
pub use header::{HeaderThere, header_there};
pub use laws::{answers_are_decoders, cuts_dont_matter, frames_end_at_zero, one_answer};
