//! Memory for the bytes that are held. The count of refused requests is private to this module, so that nothing else can change
//! it.
ghost use Rattle.claxon_seekable.specs.Memory.{IsNewMemory, RequestIsCounted};

use std::alloc::Global;

// Memory for bytes, which counts the requests that were refused: `OutOfMemory` comes with one.
#[derive(Drop)]
pub(crate) struct ByteMemory {
    alloc: Global,
    // Modulo 2^64.
    refused: u64,
}

impl ByteMemory {
    // No memory was requested yet.
    pub(crate) fn new(alloc: Global) -> ByteMemory
        ensures { IsNewMemory result }
    {
        ByteMemory { alloc, refused: 0 }
    }

    // Memory for so many bytes, or None if it is refused.
    pub(crate) fn request(&mut self, count: usize) -> Option<Vec<u8>>
        ensures is_counted { RequestIsCounted count result self.old self.new }
    {
        match Vec::with_capacity(self.alloc, count) {
            Ok(bytes) => Some(bytes),
            Err(_) => {
                self.refused = self.refused.wrapping_add(1);
                None
            }
        }
    }
}
