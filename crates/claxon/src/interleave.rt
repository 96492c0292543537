//! Interleaved samples: the first of each channel, the second of each, and so on.
ghost use Rattle.std.specs.Prelude.{
  ◌≡◌,
  ℕ,
  ℤ,
  List,
  ◌≤◌,
  ◌<◌,
  ◌+◌,
  ◌-◌,
  ◌*◌,
  ◌∷◌,
  ◌++◌,
  [],
  length,
  refl,
};
ghost use Rattle.std.specs.List.{flat_map};
ghost use Rattle.claxon_format.specs.Streams.{duration_of};
ghost use Rattle.claxon.specs.Interleave.{
  PutsChannel,
  interleave_range,
  length-sample_bytes,
  sample_bytes,
  sample_itself,
  stored_between,
};

use crate::frame::Block;
use std::alloc::Allocator;

/// What samples are stored in: an `i32`, which is a sample, or a `u8`, four of which are the little-endian bytes of one.
pub trait SampleUnit: Copy {
    /// The units of a sample.
    ghost units: { ℤ → List Self };

    /// How many units a sample has.
    ghost SIZE: { ℕ };

    /// How many units a sample has.
    const SIZE: usize;

    /// Stores a sample.
    fn put(sample: i32, place: &mut [Self])
        requires { length place.old ≡ SIZE }
        ensures { place.new ≡ units sample };

    /// Stores two samples, one after the other.
    fn put_pair(first: i32, second: i32, place: &mut [Self])
        requires { length place.old ≡ 2 * SIZE }
        ensures { place.new ≡ units first ++ units second };

    /// Stores samples, one after another.
    fn put_all(samples: &[i32], buffer: &mut [Self])
        requires { length buffer.old ≡ length samples.now * SIZE }
        ensures { buffer.new ≡ flat_map units samples.now };

    /// So many units has a sample.
    ghost size: { (x : ℤ) → length (units x) ≡ SIZE };
}

impl SampleUnit for i32 {
    ghost units = { sample_itself };

    ghost SIZE = { 1 };

    const SIZE: usize = 1;

    #[inline(always)]
    fn put(sample: i32, place: &mut [i32]) {
        place[0] = sample;
    }

    #[inline(always)]
    fn put_pair(first: i32, second: i32, place: &mut [i32]) {
        place[0] = first;
        place[1] = second;
    }

    fn put_all(samples: &[i32], buffer: &mut [i32]) {
        buffer.copy_from_slice(samples);
    }

    ghost size = { λ x. refl };
}

impl SampleUnit for u8 {
    ghost units = { sample_bytes };

    ghost SIZE = { 4 };

    const SIZE: usize = 4;

    // Both lengths are constants, so that the copy is one store.
    fn put(sample: i32, place: &mut [u8]) {
        place[..4].copy_from_slice(&sample.cast_unsigned().to_le_bytes());
    }

    // As one 64-bit number, so that one store writes both.
    fn put_pair(first: i32, second: i32, place: &mut [u8]) {
        let low = u64::from(first.cast_unsigned());
        let high = u64::from(second.cast_unsigned());
        place[..8].copy_from_slice(&((high << 32) + low).to_le_bytes());
    }

    #[inline(never)]
    fn put_all(samples: &[i32], buffer: &mut [u8]) {
        for i in 0..samples.len() {
            u8::put(samples[i], &mut buffer[i * 4..i * 4 + 4]);
        }
    }

    ghost size = { length-sample_bytes };
}

/// Fills the buffer with the interchannel samples of a block from index `from` up to `to`.
pub fn interleave<U: SampleUnit, A: Allocator>(
    block: &Block<A>,
    from: usize,
    to: usize,
    buffer: &mut [U],
)
    requires order { from ≤ to }
    requires in_block { to ≤ duration_of block.now.channels }
    requires buffer { length buffer.old ≡ (to - from) * (U.SIZE * length block.now.channels) }
    ensures { buffer.new ≡ stored_between U.units block.now.channels from to }
{
    match block.channels() {
        // An empty block has no samples, so the buffer is empty too.
        0 => {}
        1 => U::put_all(&block.channel(0)[from..to], buffer),
        2 => put_stereo(
            &block.channel(0)[from..to],
            &block.channel(1)[from..to],
            buffer,
        ),
        3 => put_channels::<3, U, A>(block, from, to, buffer),
        4 => put_channels::<4, U, A>(block, from, to, buffer),
        5 => put_channels::<5, U, A>(block, from, to, buffer),
        6 => put_channels::<6, U, A>(block, from, to, buffer),
        7 => put_channels::<7, U, A>(block, from, to, buffer),
        _ => put_channels::<8, U, A>(block, from, to, buffer),
    }
}

#[inline(never)]
fn put_stereo<U: SampleUnit>(left: &[i32], right: &[i32], buffer: &mut [U])
    requires same { length right.now ≡ length left.now }
    requires buffer { length buffer.old ≡ length left.now * (2 * U.SIZE) }
    ensures { buffer.new
        ≡ flat_map U.units (interleave_range (left.now ∷ right.now ∷ []) 0 (length left.now)) }
{
    for i in 0..left.len() {
        let at = i * (2 * U::SIZE);
        U::put_pair(left[i], right[i], &mut buffer[at..at + 2 * U::SIZE]);
    }
}

// The same as `interleave` for a block of `CHANNELS` channels, one channel at a time.
fn put_channels<const CHANNELS: usize, U: SampleUnit, A: Allocator>(
    block: &Block<A>,
    from: usize,
    to: usize,
    buffer: &mut [U],
)
    requires channels { length block.now.channels ≡ CHANNELS }
    requires few { CHANNELS ≤ 8 }
    requires order { from ≤ to }
    requires in_block { to ≤ duration_of block.now.channels }
    requires buffer { length buffer.old ≡ (to - from) * (U.SIZE * length block.now.channels) }
    ensures { buffer.new ≡ stored_between U.units block.now.channels from to }
{
    for ch in 0..CHANNELS {
        put_channel::<CHANNELS, U>(&block.channel(ch as u32)[from..to], ch, buffer);
    }
}

// Stores the samples of one of `CHANNELS` channels, each after those of the channels before it. The number of channels is a
// constant, so that the compiler knows the distance between the samples.
#[inline(never)]
fn put_channel<const CHANNELS: usize, U: SampleUnit>(samples: &[i32], ch: usize, buffer: &mut [U])
    requires here { ch < CHANNELS }
    requires buffer { length buffer.old ≡ length samples.now * (U.SIZE * CHANNELS) }
    ensures puts_channel { PutsChannel U.units U.SIZE samples.now ch CHANNELS
        buffer.old buffer.new }
{
    for i in 0..samples.len() {
        let at = i * (U::SIZE * CHANNELS) + U::SIZE * ch;
        U::put(samples[i], &mut buffer[at..at + U::SIZE]);
    }
}
