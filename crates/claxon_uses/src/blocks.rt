//! The blocks of a file.
ghost use Rattle.std.specs.Prelude.{◌≡◌};
ghost use Rattle.claxon_uses.specs.Peak.{greatest, peak_of};

use claxon::{Block, FlacReader, Result};
use std::alloc::Allocator;
use std::fs::File;
use std::rt::Files;

/// The greatest magnitude of a sample of a file.
pub fn peak<Q: Files<File = File> + AllocGlobal>(rt: &Q, name: &str) -> Result<u32> {
    // It shows `flac.streaminfo()`, `flac.tags()` and `flac.get_tag("artist")` too.
    let mut flac = FlacReader::open(rt, name)?;
    let mut blocks = flac.blocks();
    let mut buffer = Vec::new(rt.alloc());
    let mut peak = 0;
    // Each loop is proved to end, hence the count, which no file reaches.
    for _ in 0..u64::MAX {
        let Some(block) = blocks.read_next_or_eof(buffer)? else {
            break;
        };
        peak = peak.max(block_peak(&block));
        // The next block is read into the buffer of this one.
        buffer = block.into_buffer();
    }
    Ok(peak)
}

/// The greatest magnitude of a sample of a block.
pub fn block_peak<A: Allocator>(block: &Block<A>) -> u32
    ensures { result ≡ peak_of block.now.channels }
{
    let mut peak = 0;
    // Of two channels `block.stereo_samples()` gives the pairs.
    for ch in 0..block.channels() {
        peak = peak.max(greatest(block.channel(ch)));
    }
    peak
}

// The greatest magnitude of these samples.
fn greatest(samples: &[i32]) -> u32
    ensures { result ≡ greatest samples.now }
{
    let mut greatest = 0;
    for i in 0..samples.len() {
        greatest = greatest.max(samples[i].unsigned_abs());
    }
    greatest
}
