//! The samples of blocks, for the MD5 sum of a stream (RFC 9639, section 8.2).
ghost use Rattle.std.specs.Prelude.{◌≡◌, ◌≤◌, ◌-◌, ◌*◌, [], ◌∷◌, length};
ghost use Rattle.claxon.specs.Interleave.{interleave_range};
ghost use Rattle.claxon.specs.Streams.{duration_of, interleave};
ghost use Rattle.claxon_md5.specs.HasherCalls.{HashesSamples};
ghost use Rattle.claxon_md5.specs.WholeBytes.{whole_bytes_of_samples};
ghost use Rattle.claxon_blocks.specs.HashBlock.{HashesBlock};

use claxon::Block;
use claxon::interleave::interleave;
use claxon_md5::Md5;
use std::alloc::Allocator;

// The most samples that are interleaved at once.
const MAX_SAMPLES: usize = 1024;

// The most pairs of samples that are packed at once.
const MAX_PAIRS: usize = 1024;

// The number of their bytes.
const BUFFER_LEN: usize = 4096;

/// Hashes the samples of a block too: interleaved, each in the fewest whole bytes that hold the bit
/// depth.
pub fn hash_block<A: Allocator>(md5: &mut Md5, block: &Block<A>, bit_depth: u32)
    requires min_bit_depth { 1 ≤ bit_depth }
    requires max_bit_depth { bit_depth ≤ 32 }
    ensures hashes_block { HashesBlock bit_depth block.now md5.old md5.new }
{
    let channels = block.channels();
    if channels == 1 {
        md5.update_samples(block.channel(0), bit_depth);
    } else if channels == 2 && bit_depth.div_ceil(8) == 2 {
        hash_pairs(md5, block.channel(0), block.channel(1));
    } else {
        hash_interleaved(md5, block, bit_depth);
    }
}

// Packs and hashes some pairs of samples at a time. Two bytes hold 9 to 16 bits.
fn hash_pairs(md5: &mut Md5, left: &[i32], right: &[i32])
    requires { length right.now ≡ length left.now }
    ensures hashes_samples { HashesSamples 16
        (interleave (left.now ∷ right.now ∷ [])) md5.old md5.new }
{
    let mut buffer = [0; BUFFER_LEN];
    let mut from = 0;
    while from < left.len() {
        let to = from + MAX_PAIRS.min(left.len() - from);
        let bytes = &mut buffer[..4 * (to - from)];
        pack_pairs(&left[from..to], &right[from..to], bytes);
        md5.update(bytes);
        from = to;
    }
}

// Each sample in two bytes. A pair is one number of 32 bits, so that one store writes both samples.
#[inline(never)]
fn pack_pairs(left: &[i32], right: &[i32], buffer: &mut [u8])
    requires same { length right.now ≡ length left.now }
    requires buffer { length buffer.old ≡ length left.now * 4 }
    ensures { buffer.new ≡ whole_bytes_of_samples 16
        (interleave_range (left.now ∷ right.now ∷ []) 0 (length left.now)) }
{
    for i in 0..left.len() {
        let low = left[i].cast_unsigned() % 0x1_0000;
        let high = right[i].cast_unsigned() << 16;
        buffer[i * 4..i * 4 + 4].copy_from_slice(&(high + low).to_le_bytes());
    }
}

// Interleaves and hashes some samples of each channel at a time.
fn hash_interleaved<A: Allocator>(md5: &mut Md5, block: &Block<A>, bit_depth: u32)
    requires min_bit_depth { 1 ≤ bit_depth }
    requires max_bit_depth { bit_depth ≤ 32 }
    ensures hashes_block { HashesBlock bit_depth block.now md5.old md5.new }
{
    let mut buffer = [0; MAX_SAMPLES];
    let duration = block.duration() as usize;
    let step = samples_at_once(block.channels());
    let mut from = 0;
    while from < duration {
        let to = from + step.min(duration - from);
        hash_range(md5, block, from, to, bit_depth, &mut buffer);
        from = to;
    }
}

// How many samples of each channel are interleaved at once.
fn samples_at_once(channels: u32) -> usize
    requires { channels ≤ 8 }
    ensures some { 1 ≤ result }
    ensures fits { result * channels ≤ 1024 }
{
    // An empty block has no channel.
    MAX_SAMPLES / channels.max(1) as usize
}

// Hashes the samples from index `from` up to `to` of each channel.
fn hash_range<A: Allocator>(
    md5: &mut Md5,
    block: &Block<A>,
    from: usize,
    to: usize,
    bit_depth: u32,
    buffer: &mut [i32; MAX_SAMPLES],
)
    requires order { from ≤ to }
    requires in_block { to ≤ duration_of block.now.channels }
    requires fits { (to - from) * length block.now.channels ≤ 1024 }
    requires min_bit_depth { 1 ≤ bit_depth }
    requires max_bit_depth { bit_depth ≤ 32 }
    ensures hashes_samples { HashesSamples bit_depth
        (interleave_range block.now.channels from (to - from)) md5.old md5.new }
{
    let interleaved = &mut buffer[..(to - from) * block.channels() as usize];
    interleave(block, from, to, interleaved);
    md5.update_samples(interleaved, bit_depth);
}
