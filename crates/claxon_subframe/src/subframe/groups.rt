//! Values decoded from the buffered bits, several from one peek of 64 bits.
ghost use Rattle.std.specs.Prelude.{◌<◌, ◌≤◌, ℤ, Bool, length};
ghost use Rattle.claxon_format.specs.Bits.{Bits};
ghost use Rattle.claxon_format.specs.read.Reading.{Reading};
ghost use Rattle.claxon_input.specs.BufferedBits.{GivesBufferedOrNone};
ghost use Rattle.claxon_subframe.specs.BufferedValues.{
  BufferedValuesAreRead,
  GroupIsRead,
  IsFirstValue,
};

use claxon_input::input::BufferedBits;

/// How a value is coded, for decoding several at once.
pub trait GroupCode: Copy {
    /// The reader of a value, on lists of bits.
    ghost value_at: { Self → Bits → Reading Bool ℤ };

    /// The first value of 64 bits, the length of its code in bits, and the 64 bits rotated past it. Where the length is 64 or
    /// more the value is unspecified.
    fn first_value(self, peeked: u64) -> (i32, u32, u64)
        requires some { 0 < peeked }
        ensures few { result.1 ≤ 95 }
        ensures is_first_value { IsFirstValue (value_at self) peeked result.0 result.1 result.2 }
        ensures some { 0 < result.2 };

    /// A value, or `None` where it isn't completely buffered.
    fn decode_value(self, buffered: &mut BufferedBits) -> Option<i32>
        ensures gives_buffered_or_none { GivesBufferedOrNone (value_at self)
            buffered.old result buffered.new };
}

/// Decodes the values that are completely buffered, in groups of `group` values where these fit into 64 bits, else one by one,
/// and returns how many there are.
#[inline(always)]
pub fn decode_by_groups<C: GroupCode>(
    code: C,
    group: usize,
    buffered: &mut BufferedBits,
    buffer: &mut [i32],
) -> usize
    requires { group ≤ 6 }
    ensures few { result ≤ length buffer.new }
    ensures are_read { BufferedValuesAreRead (C.value_at code)
        buffered.old result buffered.new buffer.new }
{
    let mut values = 0;
    while values < buffer.len() {
        // A group of 0 values would get no further.
        let end = values + group;
        if 0 < group
            && end <= buffer.len()
            && decode_group(code, buffered, &mut buffer[values..end])
        {
            values = end;
            continue;
        }
        let Some(value) = code.decode_value(buffered) else {
            break;
        };
        buffer[values] = value;
        values += 1;
    }
    values
}

// Decodes a group of values, where these fit into the next 64 bits. Otherwise the contents of the group are unspecified.
#[inline(always)]
fn decode_group<C: GroupCode>(code: C, buffered: &mut BufferedBits, group: &mut [i32]) -> bool
    requires { length group.now ≤ 6 }
    ensures is_read { GroupIsRead (C.value_at code) buffered.old result buffered.new group.new }
{
    let Some(first) = buffered.peek() else {
        return false;
    };
    // The compiler counts the zeros of a number in fewer instructions where it isn't zero. Without a one there is no Rice code;
    // samples that are zeros are then decoded one by one.
    if first == 0 {
        return false;
    }
    let mut peeked = first;
    let mut used = 0;
    for place in group.iter_mut() {
        let (value, bits, rotated) = code.first_value(peeked);
        *place = value;
        used += bits;
        peeked = rotated;
    }
    if used > 56 {
        return false;
    }
    buffered.consume(used);
    true
}
