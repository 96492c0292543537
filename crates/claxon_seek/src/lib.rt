//! Finds frames in bytes, and seeks to a sample.
#![tactic(auto)]

mod at_start;
mod find;
mod likely;
mod memory;
mod search;
mod seeking;

pub use at_start::{HeaderInBytes, block_at_start, head_at_start, header_at_start, rest_at_start};
pub use find::{find_frame, shows_no_header};
pub use likely::{MAX_STEPS, Span, Step, bytes_without_ff, max_block_size};
pub use memory::BlockMemory;
pub use search::{BlockSearch, FoundBlock, FoundFrame, Search};
pub use seeking::{seek, seek_block};
