//! Whether samples fit in a bit depth.
ghost use Rattle.std.specs.Prelude.{◌≡◌, ◌≤◌, ◌↔◌, All, IsTrue, false, true};
ghost use Rattle.claxon.specs.Bits.{FitsIn};

use claxon::Block;
use std::alloc::Allocator;

/// Whether each sample of a block fits in this number of bits, in two's complement.
pub fn samples_fit<A: Allocator>(block: &Block<A>, bit_depth: u32) -> bool
    requires min_bit_depth { 1 ≤ bit_depth }
    requires max_bit_depth { bit_depth ≤ 32 }
    ensures { IsTrue result ↔ All (All (FitsIn bit_depth)) block.now.channels }
{
    let channels = block.channels();
    let mut fit = true;
    for channel in 0..channels {
        let samples = block.channel(channel);
        fit = fit & all_fit(samples, bit_depth);
    }
    fit
}

/// Whether each of these samples fits in this number of bits, in two's complement.
// The loop has no exit, so that it compares several at once.
#[inline(never)]
pub fn all_fit(samples: &[i32], bit_depth: u32) -> bool
    requires min_bit_depth { 1 ≤ bit_depth }
    requires max_bit_depth { bit_depth ≤ 32 }
    ensures { IsTrue result ↔ All (FitsIn bit_depth) samples.now }
{
    let mut fit = true;
    for i in 0..samples.len() {
        fit = fit & fits(samples[i], bit_depth);
    }
    fit
}

fn fits(sample: i32, bit_depth: u32) -> bool
    requires min_bit_depth { 1 ≤ bit_depth }
    requires max_bit_depth { bit_depth ≤ 32 }
    ensures yes { result ≡ true → FitsIn bit_depth sample }
    ensures no { result ≡ false → FitsIn bit_depth sample → ⊥ }
{
    let size = sample.unsigned_abs();
    let folded = if sample < 0 { size - 1 } else { size };
    folded < 1 << (bit_depth - 1)
}
