//! Interleaved samples.
ghost use Rattle.std.specs.Prelude.{◌≤◌, ◌*◌, length};
ghost use Rattle.claxon.specs.Streams.{duration_of};
ghost use Rattle.claxon_c.specs.NextBlock.{InterleavedArePut};

use claxon::Block;
use claxon::interleave::interleave;

// Writes all samples of the block, interleaved, to the front of the output.
pub(crate) fn put_interleaved(block: &Block, samples: &mut [i32])
    requires { length block.now.channels * duration_of block.now.channels ≤ length samples.old }
    ensures are_put { InterleavedArePut block.now.channels samples.old samples.new }
{
    let duration = block.duration() as usize;
    let count = block.channels() as usize * duration;
    interleave(block, 0, duration, &mut samples[..count]);
}
