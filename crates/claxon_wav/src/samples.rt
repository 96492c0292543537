//! The samples of a block as the bytes of a WAV file.
ghost use Rattle.std.specs.Prelude.{
  ◌≡◌,
  ◌≤◌,
  ◌*◌,
  ◌<◌,
  All,
  IfErr,
  OnOk,
  length,
  vec_capacity,
};
ghost use Rattle.std.specs.Int.{to_le_bytes, w32};
ghost use Rattle.std.specs.List.{flat_map};
ghost use Rattle.claxon.specs.Bits.{FitsIn};
ghost use Rattle.claxon.specs.Streams.{interleave};
ghost use Rattle.claxon_wav.specs.Samples.{
  IsTooWide,
  PackHasMemory,
  PackTakesRoom,
  packed_block,
  bytes_of_sample,
  shifted_sample,
  silence,
};
ghost use Rattle.claxon_wav.specs.WaveFile.{sample_size};

use crate::error::{Error, Result};
use claxon::Block;
use claxon::interleave::interleave;
use claxon_blocks::fit::all_fit;
use std::alloc::Allocator;

/// Replaces the bytes by those of a block's samples. A sample that doesn't fit in the valid bits is an error. The contents of
/// `interleaved` are replaced too; it is passed to reuse its memory.
pub fn pack<A: Allocator>(
    block: &Block<A>,
    valid_bits: u32,
    interleaved: &mut Vec<i32>,
    bytes: &mut Vec<u8>,
) -> Result<()>
    requires some_bits { 1 ≤ valid_bits }
    requires few_bits { valid_bits ≤ 32 }
    ensures ok { OnOk result (bytes.new.items ≡ packed_block valid_bits block.now) }
    ensures fits { OnOk result (All (FitsIn valid_bits) (interleave block.now.channels)) }
    ensures wide { IfErr result (λ error.
        IsTooWide valid_bits error (interleave block.now.channels)) }
    ensures has_memory { PackHasMemory valid_bits block.now result
        (vec_capacity interleaved.old) (vec_capacity bytes.old) }
    ensures takes_room { PackTakesRoom valid_bits block.now result
        (vec_capacity interleaved.new) (vec_capacity bytes.new) }
    ensures keeps_interleaved { vec_capacity interleaved.old ≤ vec_capacity interleaved.new }
    ensures keeps_bytes { vec_capacity bytes.old ≤ vec_capacity bytes.new }
{
    interleaved.resize(block.len() as usize, 0)?;
    interleave(
        block,
        0,
        block.duration() as usize,
        interleaved.as_mut_slice(),
    );
    if !all_fit(interleaved.as_slice(), valid_bits) {
        return Err(Error::WideSample);
    }
    bytes.resize(interleaved.len() * valid_bits.div_ceil(8) as usize, 0)?;
    let (samples, buffer) = (interleaved.as_slice(), bytes.as_mut_slice());
    match valid_bits.div_ceil(8) {
        1 => put_samples::<1>(samples, valid_bits, buffer),
        2 => put_samples::<2>(samples, valid_bits, buffer),
        3 => put_samples::<3>(samples, valid_bits, buffer),
        _ => put_samples::<4>(samples, valid_bits, buffer),
    }
    Ok(())
}

// Each sample in N bytes, with its valid bits the most significant ones.
#[inline(never)]
fn put_samples<const N: usize>(samples: &[i32], valid_bits: u32, buffer: &mut [u8])
    requires size { sample_size valid_bits ≡ N }
    requires few_bits { valid_bits ≤ 32 }
    requires buffer { length buffer.old ≡ length samples.now * N }
    ensures { buffer.new ≡ flat_map (bytes_of_sample N valid_bits) samples.now }
{
    let shift = 8 * N as u32 - valid_bits;
    let silence = silence(N);
    for i in 0..samples.len() {
        let four = scale_up(samples[i], shift, silence);
        buffer[i * N..i * N + N].copy_from_slice(&four[..N]);
    }
}

// The value of silence in a sample of `size` bytes: 8-bit samples are unsigned.
pub(crate) fn silence(size: usize) -> u32
    ensures value { result ≡ silence size }
    ensures few { result ≤ 128 }
{
    if size == 1 { 128 } else { 0 }
}

fn scale_up(sample: i32, shift: u32, silence: u32) -> [u8; 4]
    requires { shift < 32 }
    ensures { result ≡ to_le_bytes w32 (shifted_sample shift silence sample) }
{
    (sample.cast_unsigned() << shift)
        .wrapping_add(silence)
        .to_le_bytes()
}
