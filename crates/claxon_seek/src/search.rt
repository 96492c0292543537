//! What a search answers.

use claxon::Block;
use claxon::frame::BlockInfo;

/// A frame in bytes.
#[derive(Clone, Copy, Debug)]
pub struct FoundFrame {
    /// The position of its first byte.
    pub position: usize,
    /// What its header says of its block.
    pub block: BlockInfo,
}

/// What a search for a frame answers.
#[derive(Clone, Copy, Debug)]
pub enum Search {
    /// A frame.
    Found(FoundFrame),
    /// There is none, and none begins before this position, whatever follows. There a header or a frame may be cut.
    NotFound(usize),
    /// The search stopped at this position, as the blocks of the headers up to it have more samples than the budget.
    OverBudget(usize),
}

/// A frame in bytes, and its block.
#[derive(Drop)]
pub struct FoundBlock {
    /// Where the frame is.
    pub frame: FoundFrame,
    /// The number of its bytes.
    pub len: usize,
    /// Its samples.
    pub block: Block,
}

/// What a search for a frame answers that decodes it: as `Search`.
#[derive(Drop)]
pub enum BlockSearch {
    /// A frame, and its block.
    Found(FoundBlock),
    /// There is none.
    NotFound(usize),
    /// The search stopped at this position.
    OverBudget(usize),
}
