//! What is reported of a stream.
ghost use Rattle.std.specs.Prelude.{◌↔◌, IsTrue};
ghost use Rattle.claxon.specs.MetadataBlock.{or_zero};
ghost use Rattle.claxon_report.specs.Report.{NothingIsWrong};

use crate::place::Places;
use claxon::metadata::StreamInfo;
use claxon_blocks::md5_verdict::Md5Verdict;
use claxon_heads::UnsupportedBlock;
use std::alloc::{Allocator, Global};

/// What was found in a stream.
#[derive(Debug, Drop)]
pub struct Report<A: Allocator = Global> {
    /// What the stream says of itself.
    pub info: StreamInfo,
    /// The first thing that isn't supported of the metadata blocks, which were passed over then.
    pub unsupported: Option<UnsupportedBlock>,
    /// What its frames are.
    pub found: Found<A>,
    /// What became of the MD5 sum of the samples.
    pub md5: Md5Verdict,
    /// That sum, if it was computed: of the samples of all frames that were decoded.
    pub computed_md5: Option<[u8; 16]>,
    /// What stands after the last frame, where two bytes or more do. They are then the last of the places.
    pub trailing: Option<Trailing>,
    /// Nothing is wrong, and nothing of the metadata isn't supported: see `IsRightStream` of `claxon_verify`.
    pub is_right: bool,
}

/// What the frames of a stream are.
#[derive(Debug, Drop)]
pub struct Found<A: Allocator = Global> {
    /// How many frames were decoded.
    pub frames: u64,
    /// How many samples of each channel they have.
    pub samples: u64,
    /// What isn't right.
    pub places: Places<A>,
    /// What is unusual, but not wrong.
    pub notes: Notes,
}

/// What is unusual in a stream, but not wrong.
#[derive(Clone, Copy, Debug)]
pub struct Notes {
    /// A block, but for a last one that is shorter, has a size out of the streaminfo's bounds.
    pub has_other_block_size: bool,
    /// A frame has a number of bytes out of the streaminfo's bounds.
    pub has_other_frame_size: bool,
    /// One byte stands after the last frame.
    pub has_byte_left: bool,
    /// A read of the source failed.
    pub has_failed_read: bool,
    /// In damage it wasn't searched everywhere whether a frame begins: too many headers lead to none.
    pub has_unsearched: bool,
    /// The block size is fixed, but changes: a frame before the last one has another than the first.
    pub changed_block_size: Option<BlockSizes>,
}

/// Two block sizes of a stream.
#[derive(Clone, Copy, Debug)]
pub struct BlockSizes {
    /// That of the first frame.
    pub first: u32,
    /// The first other one.
    pub other: u32,
}

/// What stands after the last frame.
#[derive(Clone, Copy, Debug)]
pub enum Trailing {
    /// An ID3v1 tag: 128 bytes that begin with `TAG`.
    Id3v1,
    /// An APE tag: bytes that begin with `APETAGEX`.
    Ape,
    /// Bytes of zeros.
    Zeros,
    /// A second stream: `fLaC` and a streaminfo.
    SecondStream,
    /// Other bytes.
    Other,
}

/// Whether there is no place, the expected number of samples, if there is one, and no other MD5 sum.
pub fn has_nothing_wrong<A: Allocator>(
    found: &Found<A>,
    expected: Option<u64>,
    md5: Md5Verdict,
) -> bool
    ensures nothing_is_wrong { IsTrue result
        ↔ NothingIsWrong found.now (or_zero expected) md5 }
{
    let expected = expected.unwrap_or(0);
    found.places.first.is_none()
        && (expected == 0 || expected == found.samples)
        && !matches!(md5, Md5Verdict::Wrong)
}
