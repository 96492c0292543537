//! Consecutive values of one code. Those that are completely buffered are decoded from the buffered bits, where no call can
//! fail; then these bits are skipped in one call. A value that is only partly buffered is read by itself.
ghost use Rattle.std.specs.Prelude.{◌≤◌, ℤ, Bool, length};
ghost use Rattle.claxon_format.specs.Bits.{Bits};
ghost use Rattle.claxon_format.specs.Codes.{Never};
ghost use Rattle.claxon_format.specs.read.Reading.{Reads};
ghost use Rattle.claxon_input.specs.State.{bits_in};
ghost use Rattle.claxon_input.specs.Gives.{Gives};
ghost use Rattle.claxon_subframe.specs.BufferedValues.{BufferedValuesAreRead};
ghost use Rattle.claxon_subframe.specs.Samples.{ValuesAreReadBy};

use super::groups::GroupCode;
use claxon_input::error::Result;
use claxon_input::input::{Bitstream, BufferedBits, ReadBytes};

/// How a value is coded: a sample by itself, or the zigzag-encoded number of a residual sample.
pub trait ValueCode: GroupCode {
    /// Whether these bits are those of the value.
    ghost code: { Self → ℤ → Bits → Type 0 };

    /// Decodes the values that are completely buffered, and returns their number.
    fn decode_buffered(self, buffered: &mut BufferedBits, buffer: &mut [i32]) -> usize
        ensures few { result ≤ length buffer.new }
        ensures are_read { BufferedValuesAreRead (Self.value_at self)
            buffered.old result buffered.new buffer.new };

    /// Reads a value.
    fn read_value<R: ReadBytes>(self, input: &mut Bitstream<R>) -> Result<i32>
        ensures gives { Gives (λ x. x) result (Self.value_at self)
            (bits_in R.source input.old) (bits_in R.source input.new) };

    /// The reader accepts just these values with their bits, and finds no fault in any bits.
    ghost reads: { (self : Self) → Reads Bool ℤ (Self.value_at self) (code self) Never };
}

/// Reads as many values as the buffer is long.
pub fn read_values<C: ValueCode, R: ReadBytes>(
    input: &mut Bitstream<R>,
    code: C,
    buffer: &mut [i32],
) -> Result<()>
    ensures are_read_by { ValuesAreReadBy R.source (C.value_at code)
        input.old result input.new buffer.old buffer.new }
{
    let mut start = 0;
    while start < buffer.len() {
        let mut buffered = input.buffered();
        let bits = buffered.len();
        start += code.decode_buffered(&mut buffered, &mut buffer[start..]);
        let consumed = bits - buffered.len();
        input.skip_bits(consumed)?;
        // The next value isn't completely buffered.
        if start < buffer.len() {
            buffer[start] = code.read_value(input)?;
            start += 1;
        }
    }
    Ok(())
}
