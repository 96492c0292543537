//! A block, with what the header of its frame says of it.
use crate::frame::block::Block;
use crate::frame::info::BlockInfo;
use claxon_input::error::Result;
use std::alloc::{Allocator, Global};

/// A decoded frame: its block, and what its header says of it.
#[derive(Drop)]
pub struct DecodedFrame<A: Allocator = Global> {
    /// What the header says.
    pub info: BlockInfo,

    /// The samples.
    pub block: Block<A>,
}

/// A decoded frame, None at the end of the input, or an error.
pub type DecodedFrameResult<A = Global> = Result<Option<DecodedFrame<A>>>;
