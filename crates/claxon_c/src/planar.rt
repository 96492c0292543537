//! Planar samples: one channel after another.
ghost use Rattle.std.specs.Prelude.{◌≤◌, ◌*◌, length};
ghost use Rattle.claxon.specs.Streams.{duration_of};
ghost use Rattle.claxon_c.specs.NextBlock.{PlanarArePut};

use claxon::Block;

// Writes all samples of the block, one channel after another, to the front of the output.
pub(crate) fn put_planar(block: Block, samples: &mut [i32])
    requires { length block.channels * duration_of block.channels ≤ length samples.old }
    ensures are_put { PlanarArePut block.channels samples.old samples.new }
{
    let count = block.channels() as usize * block.duration() as usize;
    let buffer = block.into_buffer();
    samples[..count].copy_from_slice(buffer.as_slice());
}
