//! The block sizes of a stream, while its frames are found.
ghost use Rattle.std.specs.Prelude.{◌≡◌, []};
ghost use Rattle.claxon_verify.specs.Walk.{AddsSize, AreSizesOf, differing_sizes, or_else};

use claxon::frame::BlockInfo;
use claxon_report::BlockSizes;

/// The block sizes so far.
#[derive(Clone, Copy)]
pub(crate) struct SizesSoFar {
    /// That of the first frame.
    first: Option<u32>,
    /// The block size of the first frame's stream is variable.
    is_variable: bool,
    /// That of the last frame.
    last: u32,
    /// Those of the first frame and of the first one with another, if the block size is fixed. The last frame doesn't count.
    pub changed: Option<BlockSizes>,
}

impl SizesSoFar {
    /// None so far.
    pub fn new() -> SizesSoFar
        ensures are_none { AreSizesOf [] result }
    {
        SizesSoFar {
            first: None,
            is_variable: false,
            last: 0,
            changed: None,
        }
    }

    /// With one frame more, which has this header and so many samples of each channel.
    pub fn with(self, header: &BlockInfo, duration: u32) -> SizesSoFar
        ensures adds_size { AddsSize header.now duration self result }
    {
        match self.first {
            None => SizesSoFar {
                first: Some(duration),
                is_variable: header.is_variable,
                last: duration,
                changed: None,
            },
            Some(first) => SizesSoFar {
                first: Some(first),
                is_variable: self.is_variable,
                last: duration,
                changed: self.changed_after(first),
            },
        }
    }

    // The sizes that differ, where the last frame counts too.
    fn changed_after(self, first: u32) -> Option<BlockSizes>
        ensures { result ≡ or_else self.changed
            (differing_sizes self.is_variable first self.last) }
    {
        self.changed.or(self.differing(first))
    }

    // The sizes of the first frame and of the last one, if they differ and the block size is fixed.
    fn differing(self, first: u32) -> Option<BlockSizes>
        ensures { result ≡ differing_sizes self.is_variable first self.last }
    {
        if self.is_variable || self.last == first {
            return None;
        }
        Some(BlockSizes {
            first,
            other: self.last,
        })
    }
}
