//! Undoes stereo decorrelation in place (RFC 9639, section 4.2). All sums are modulo 2^32.
ghost use Rattle.std.specs.Prelude.{◌≤◌};
ghost use Rattle.claxon_frame.specs.FrameHeader.{channels_of};
ghost use Rattle.claxon_frame.specs.Decorrelation.{ChannelsAreDecoded, PairIsDecoded};

use super::header::ChannelAssignment;

/// Turns left/side, side/right or mid/side channels, one after the other in the buffer, into left and right. Independent
/// channels stay as they are.
pub fn undo_decorrelation(channel_assignment: ChannelAssignment, buffer: &mut [i32])
    requires { channels_of channel_assignment ≤ 8 }
    ensures channels_are_decoded { ChannelsAreDecoded channel_assignment buffer.old buffer.new }
{
    match channel_assignment {
        ChannelAssignment::Independent(_) => {}
        ChannelAssignment::LeftSideStereo => decode_left_side(buffer),
        ChannelAssignment::RightSideStereo => decode_right_side(buffer),
        ChannelAssignment::MidSideStereo => decode_mid_side(buffer),
    }
}

// Side is left minus right. If both channels are alike it is small, and takes few bits.
#[inline(never)]
fn decode_left_side(buffer: &mut [i32])
    ensures pair_is_decoded { PairIsDecoded 8 buffer.old buffer.new }
{
    let half = buffer.len() / 2;
    let (left, side) = buffer.split_at_mut(half);
    for i in 0..half {
        side[i] = left[i].wrapping_sub(side[i]);
    }
}

// The side channel comes first here.
#[inline(never)]
fn decode_right_side(buffer: &mut [i32])
    ensures pair_is_decoded { PairIsDecoded 9 buffer.old buffer.new }
{
    let half = buffer.len() / 2;
    let (side, right) = buffer.split_at_mut(half);
    for i in 0..half {
        side[i] = side[i].wrapping_add(right[i]);
    }
}

// Mid is half of left plus right, rounded down, and side is left minus right. Halving drops the lowest bit of the sum, but the
// sum and the difference of two numbers are both even or both odd, so it is the lowest bit of side. Sum plus difference is
// twice left, and sum minus difference is twice right.
#[inline(never)]
fn decode_mid_side(buffer: &mut [i32])
    ensures pair_is_decoded { PairIsDecoded 10 buffer.old buffer.new }
{
    let half = buffer.len() / 2;
    let (mid, side) = buffer.split_at_mut(half);
    for i in 0..half {
        let sum = mid[i].wrapping_mul(2) | (side[i] & 1);
        let difference = side[i];
        mid[i] = sum.wrapping_add(difference) >> 1;
        side[i] = sum.wrapping_sub(difference) >> 1;
    }
}
