//! Partitions that are completely buffered. Their bits are skipped in one call, so that short partitions cost little.
ghost use Rattle.std.specs.Prelude.{◌≡◌, ◌+◌, ◌*◌, ◌≤◌, ◌<◌, IfOk, IfErr, length, map};
ghost use Rattle.std.specs.Bool.{MatchBool};
ghost use Rattle.claxon_format.specs.read.Residual.{partition_at};
ghost use Rattle.claxon_input.specs.BufferedBits.{bits_in_buffer, GivesBuffered};
ghost use Rattle.claxon_input.specs.Error.{IsIo};
ghost use Rattle.claxon_subframe.specs.Partitions.{PartitionsAreRead, PartitionsReadFailed};
ghost use Rattle.claxon_subframe.specs.RiceCodes.{decoded};
ghost use Rattle.claxon_subframe.specs.SubframeFields.{method_of};

use super::RicePartitionType;
use super::buffered::ValueCode;
use super::rice::{RiceCode, decode_zigzag};
use claxon_input::error::Result;
use claxon_input::input::{Bitstream, BufferedBits, ReadBytes};

/// Reads the partitions that are completely buffered, at most `most`, each of `each` residual samples, and returns their
/// number. Only the source can fail.
pub fn read_buffered_partitions<R: ReadBytes>(
    input: &mut Bitstream<R>,
    partition_type: RicePartitionType,
    each: u16,
    most: u32,
    buffer: &mut [i32],
) -> Result<u32>
    requires capacity { most * each ≤ length buffer.old }
    ensures few { IfOk result (λ whole. whole ≤ most) }
    ensures are_read { PartitionsAreRead R.source (method_of partition_type) each
        input.old result input.new buffer.new }
    ensures io { IfErr result IsIo }
    ensures read_failed { PartitionsReadFailed R.source input.old result input.new }
{
    let mut buffered = input.buffered();
    let bits = buffered.len();
    let each = each as usize;
    let mut whole = 0;
    let mut start = 0;
    while whole < most {
        let end = start + each;
        if !decode_buffered_partition(&mut buffered, partition_type, &mut buffer[start..end]) {
            break;
        }
        whole += 1;
        start = end;
    }
    // All at once, since vectors gain little on short partitions.
    decode_zigzag(&mut buffer[..start]);
    let consumed = bits - buffered.len();
    input.skip_bits(consumed)?;
    Ok(whole)
}

// The zigzag-encoded numbers of a partition of Rice codes, where it is completely buffered. Otherwise the contents of the
// buffer are unspecified.
fn decode_buffered_partition(
    buffered: &mut BufferedBits,
    partition_type: RicePartitionType,
    buffer: &mut [i32],
) -> bool
    requires { length buffer.now < 65536 }
    ensures { MatchBool result
        (GivesBuffered buffered.old buffered.new
        (partition_at (method_of partition_type) (length buffer.new)) (map decoded buffer.new))
        (bits_in_buffer buffered.new ≡ bits_in_buffer buffered.old) }
{
    let bits = partition_type.parameter_bits();
    let escape = (1 << bits) - 1;
    let mut next = *buffered;
    let Some(parameter) = next.number(bits) else {
        return false;
    };
    // A Rice code has at least `parameter + 1` bits: with fewer bits buffered the partition can't be complete.
    if parameter == escape || next.len() < buffer.len() as u32 * (parameter + 1) {
        return false;
    }
    let code = RiceCode { parameter };
    if code.decode_buffered(&mut next, buffer) < buffer.len() {
        return false;
    }
    *buffered = next;
    true
}
