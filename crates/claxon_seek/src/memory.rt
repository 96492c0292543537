//! Memory for the samples of blocks. The count of refused requests is private to this module, so that nothing else can move it.
ghost use Rattle.std.specs.Prelude.{◌≡◌, ◌≤◌};

use std::alloc::Global;

/// Memory for the samples of blocks, which counts the requests that were refused: `OutOfMemory` comes with one.
#[derive(Drop)]
pub struct BlockMemory {
    alloc: Global,
    // Modulo 2^64.
    refused: u64,
}

impl BlockMemory {
    ghost use Rattle.claxon_seek.specs.BlockMemory.{
      RequestIsCounted,
      max_samples,
      refused_requests,
    };

    /// No memory is requested yet.
    pub fn new(alloc: Global) -> BlockMemory
        ensures none_refused { refused_requests result ≡ 0 }
    {
        BlockMemory { alloc, refused: 0 }
    }

    /// How many requests were refused, modulo 2^64.
    pub fn refused(&self) -> u64
        ensures { result ≡ refused_requests self.now }
    {
        self.refused
    }

    // Memory for so many samples, or None if it is refused.
    pub(crate) fn request(&mut self, count: usize) -> Option<Vec<i32>>
        requires few { count ≤ max_samples }
        ensures is_counted { RequestIsCounted count result self.old self.new }
    {
        match Vec::with_capacity(self.alloc, count) {
            Ok(buffer) => Some(buffer),
            Err(_) => {
                self.refused = self.refused.wrapping_add(1);
                None
            }
        }
    }
}
