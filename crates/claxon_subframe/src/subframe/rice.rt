//! The Rice codes of a partition: most of a stream's bits, and of the time to decode it.
//!
//! A code is read in one of three ways: from 64 peeked bits, which begin with several codes (`RiceCode::first_value`); from
//! buffered bits, where the 64 bits don't hold a group of codes (`RiceCode::decode_value`); or unbuffered, where the code isn't
//! completely buffered (`RiceCode::read_value`). Each gives the zigzag-encoded number. `decode_zigzag` makes residual samples of
//! these numbers, many at once.
ghost use Rattle.std.specs.Prelude.{◌≡◌, ◌≤◌, map};
ghost use Rattle.claxon_format.specs.read.Bits.{zigzag_decode};
ghost use Rattle.claxon_subframe.specs.RiceCodes.{decoded, encoded_code_at, EncodedCode};

use super::buffered::ValueCode;
use super::groups::{GroupCode, decode_by_groups};
use claxon_input::error::Result;
use claxon_input::input::{Bitstream, BufferedBits, ReadBytes};

/// The Rice codes with this parameter: the quotient by 2^parameter in unary, as zeros and a one, then the remainder in
/// `parameter` bits. The zigzag-encoded number is taken modulo 2^32.
#[derive(Clone, Copy)]
pub struct RiceCode {
    pub parameter: u32,
    ghost bound: { parameter ≤ 30 },
}

impl ValueCode for RiceCode {
    ghost use Rattle.claxon_subframe.specs.RiceCodes.{Reads-encoded_code};

    ghost code = { λ c. EncodedCode c.parameter };

    ghost reads = { λ c. Reads-encoded_code c.parameter };

    #[inline(never)]
    fn decode_buffered(self, buffered: &mut BufferedBits, buffer: &mut [i32]) -> usize {
        // A copy stays in registers: the reference might alias the buffer, and would be loaded again after each code.
        let mut next = *buffered;
        // The compiler makes code of its own for each of the parameters that are frequent.
        let codes = match self.parameter {
            0 => decode_by_groups(RiceCode { parameter: 0 }, 6, &mut next, buffer),
            1 => decode_by_groups(RiceCode { parameter: 1 }, 6, &mut next, buffer),
            2 => decode_by_groups(RiceCode { parameter: 2 }, 6, &mut next, buffer),
            3 => decode_by_groups(RiceCode { parameter: 3 }, 6, &mut next, buffer),
            4 => decode_by_groups(RiceCode { parameter: 4 }, 6, &mut next, buffer),
            5 => decode_by_groups(RiceCode { parameter: 5 }, 5, &mut next, buffer),
            6 => decode_by_groups(RiceCode { parameter: 6 }, 5, &mut next, buffer),
            7 => decode_by_groups(RiceCode { parameter: 7 }, 5, &mut next, buffer),
            8 => decode_by_groups(RiceCode { parameter: 8 }, 4, &mut next, buffer),
            9 => decode_by_groups(RiceCode { parameter: 9 }, 4, &mut next, buffer),
            10 => decode_by_groups(RiceCode { parameter: 10 }, 3, &mut next, buffer),
            11 => decode_by_groups(RiceCode { parameter: 11 }, 3, &mut next, buffer),
            12 => decode_by_groups(RiceCode { parameter: 12 }, 3, &mut next, buffer),
            13 => decode_by_groups(RiceCode { parameter: 13 }, 3, &mut next, buffer),
            14 => decode_by_groups(RiceCode { parameter: 14 }, 3, &mut next, buffer),
            _ => decode_by_groups(self, 2, &mut next, buffer),
        };
        *buffered = next;
        codes
    }

    #[inline(always)]
    #[tactic(auto, unfolding(crate::specs::RiceCodes::encoded_code_at))]
    fn read_value<R: ReadBytes>(self, input: &mut Bitstream<R>) -> Result<i32> {
        let quotient = input.read_unary()?;
        let low = input.read_leq_u32(self.parameter)?;
        Ok(((quotient << self.parameter) | low).cast_signed())
    }
}

impl GroupCode for RiceCode {
    ghost value_at = { λ c. encoded_code_at c.parameter };

    #[inline(always)]
    fn first_value(self, peeked: u64) -> (i32, u32, u64) {
        // The index of the first one from the low end. The next code waits for it and for one rotation alone: rotating left by
        // the parameter doesn't wait for it, and rotating left by the number of zeros would take one operation more.
        let first = peeked.leading_zeros() ^ 63;
        let rotated = peeked.rotate_left(self.parameter).rotate_right(first);
        let bits = 64u32.wrapping_sub(first.wrapping_sub(self.parameter));
        let low = (rotated & ((1 << self.parameter) - 1)) as u32;
        let zeros = first ^ 63;
        let code = ((zeros << self.parameter) | low).cast_signed();
        (code, bits, rotated)
    }

    #[inline(always)]
    fn decode_value(self, buffered: &mut BufferedBits) -> Option<i32> {
        let mut next = *buffered;
        let quotient = next.unary()?;
        let low = next.number(self.parameter)?;
        *buffered = next;
        Some(((quotient << self.parameter) | low).cast_signed())
    }
}

/// Zigzag-decodes each number. No number waits for another here, so the compiler decodes several at once, in vectors.
pub fn decode_zigzag(numbers: &mut [i32])
    ensures { numbers.new ≡ map decoded numbers.old }
{
    for number in numbers.iter_mut() {
        *number = rice_to_signed(number.cast_unsigned());
    }
}

// Zigzag decoding: 0, 1, 2, 3, 4 are 0, -1, 1, -2, 2, so that small numbers of either sign have short codes.
#[inline(always)]
fn rice_to_signed(val: u32) -> i32
    ensures { result ≡ zigzag_decode val }
{
    let half = (val >> 1) as i32;
    let extended_bit_0 = (val << 31).cast_signed() >> 31;
    half ^ extended_bit_0
}
