//! Unencoded samples: of verbatim subframes, warm-up samples and escaped partitions.
ghost use Rattle.std.specs.Prelude.{◌<◌, ◌≤◌};
ghost use Rattle.claxon_format.specs.read.Bits.{signed_at};
ghost use Rattle.claxon_subframe.specs.Samples.{SamplesAreRead};

use super::buffered::{ValueCode, read_values};
use super::groups::{GroupCode, decode_by_groups};
use super::{extend_sign_u32, read_sample};
use claxon_input::error::Result;
use claxon_input::input::{Bitstream, BufferedBits, ReadBytes};

/// Unencoded samples of this many bits, signed numbers.
#[derive(Clone, Copy)]
struct Verbatim {
    bit_depth: u32,
    ghost some: { 0 < bit_depth },
    ghost max_bit_depth: { bit_depth ≤ 32 },
}

impl ValueCode for Verbatim {
    ghost use Rattle.claxon_format.specs.Bits.{Signed};
    ghost use Rattle.claxon_format.proofs.SignedIntegers.{Reads-signed};

    ghost code = { λ c. Signed c.bit_depth };

    ghost reads = { λ c. Reads-signed c.bit_depth c.some };

    #[inline(never)]
    fn decode_buffered(self, buffered: &mut BufferedBits, buffer: &mut [i32]) -> usize {
        // A copy stays in registers: the reference might alias the buffer, and would be loaded again after each sample.
        let mut next = *buffered;
        // The compiler makes code of its own for each of the bit depths that are frequent.
        let samples = match self.bit_depth {
            16 => decode_by_groups(Verbatim { bit_depth: 16 }, 3, &mut next, buffer),
            24 => decode_by_groups(Verbatim { bit_depth: 24 }, 2, &mut next, buffer),
            1..=18 => decode_by_groups(self, 3, &mut next, buffer),
            19..=28 => decode_by_groups(self, 2, &mut next, buffer),
            _ => decode_by_groups(self, 1, &mut next, buffer),
        };
        *buffered = next;
        samples
    }

    #[inline(always)]
    fn read_value<R: ReadBytes>(self, input: &mut Bitstream<R>) -> Result<i32> {
        read_sample(input, self.bit_depth)
    }
}

impl GroupCode for Verbatim {
    ghost value_at = { λ c. signed_at c.bit_depth };

    #[inline(always)]
    fn first_value(self, peeked: u64) -> (i32, u32, u64) {
        let number = (peeked >> (64 - self.bit_depth)) as u32;
        let rotated = peeked.rotate_left(self.bit_depth);
        (
            extend_sign_u32(number, self.bit_depth),
            self.bit_depth,
            rotated,
        )
    }

    #[inline(always)]
    fn decode_value(self, buffered: &mut BufferedBits) -> Option<i32> {
        let number = buffered.number(self.bit_depth)?;
        Some(extend_sign_u32(number, self.bit_depth))
    }
}

/// Reads as many samples of `bit_depth` bits as the buffer is long.
#[inline(always)]
pub fn decode_verbatim<R: ReadBytes>(
    input: &mut Bitstream<R>,
    bit_depth: u32,
    buffer: &mut [i32],
) -> Result<()>
    requires min_bit_depth { 0 < bit_depth }
    requires max_bit_depth { bit_depth ≤ 32 }
    ensures are_read { SamplesAreRead R.source bit_depth
        input.old result input.new buffer.old buffer.new }
{
    read_values(input, Verbatim { bit_depth }, buffer)
}
