//! What comes next in the head of a stream.

use crate::event::{NeededBytes, StreamFault};
use claxon::metadata::MetadataBlock;
use std::alloc::{Allocator, Global};

/// What comes next in the head of a stream.
#[derive(Drop)]
pub enum HeadEvent<A: Allocator = Global> {
    /// The marker `fLaC`.
    Marker,
    /// The header of a metadata block.
    Header(MetadataBlockHeader),
    /// The metadata block whose header was answered last. Seek tables, cue sheets and pictures are passed, and answered as padding.
    Block(MetadataBlock<A>),
    /// The head is whole, and the first frame should begin at this position.
    Whole(u64),
    /// There is no head. The fault's position is that at which its marker or metadata block begins.
    Faulty(StreamFault),
    /// The stream ends within the marker or the metadata block that begins at this position, or right before it.
    Cut(u64),
    /// Nothing can be said before more bytes are handed in.
    ReadOn(NeededBytes),
}

/// The header of a metadata block.
#[derive(Clone, Copy, Debug)]
pub struct MetadataBlockHeader {
    /// The position in the stream at which the block's content begins.
    pub position: u64,
    /// Whether the block is the last one of the head.
    pub is_last: bool,
    /// The type of the block: 0 for a streaminfo, up to 6 for a picture (RFC 9639, section 8.1).
    pub block_type: u8,
    /// The number of bytes of its content.
    pub length: u32,
}
