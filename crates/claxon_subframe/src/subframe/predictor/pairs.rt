//! Linear predictors over samples of 16 bits. One instruction multiplies two samples by their coefficients in each of four
//! lanes, and adds the two products. The lanes have 32 bits: where the magnitudes of the coefficients add up to less than 2^16,
//! the pending sums of samples of 16 bits fit.
ghost use Rattle.std.specs.Prelude.{
  ◌≡◌,
  ◌+◌,
  ◌*◌,
  ◌-◌,
  ◌^◌,
  ◌<◌,
  ◌≤◌,
  ◌↔◌,
  ◌++◌,
  IsTrue,
  true,
  false,
  length,
  take,
  drop,
  reverse,
  replicate,
  pos,
  FitsSigned,
};
ghost use Rattle.std.specs.Int.{w16};
ghost use Rattle.claxon_subframe.specs.Predictor.{FrontIsRestored};
ghost use Rattle.claxon_subframe.specs.PendingSums.{AreNewest};
ghost use Rattle.claxon_subframe.specs.Pairs.{
  ArePairTaps,
  LanesFit16,
  LanesFit32,
  SmallPairTaps,
  SumsFit32,
  advanced_by_pair,
  magnitude,
  pair_of,
  plus_pairs,
};

use super::lanes::{LaterLanes, NewestFive, PendingSums, PredictorState};
use super::predict_plain;
use super::restore::{LaneTaps, first_sums, restore_front};
use std::simd::prelude::*;

/// Restores samples while they fit 16 bits, from the warm-up samples on, by a predictor of more than eight coefficients, the
/// oldest sample's first. Returns how many samples stand at the front then, at least the warm-up samples.
pub fn predict_by_pairs(coefficients: &[i16], shift: u32, buffer: &mut [i32]) -> usize
    requires few { length coefficients.now ≤ 32 }
    requires warm_up { length coefficients.now ≤ length buffer.old }
    requires shift { shift ≤ 15 }
    ensures warm_up { length coefficients.now ≤ result }
    ensures few { result ≤ length buffer.new }
    ensures restored { FrontIsRestored coefficients.now shift (length coefficients.now)
        buffer.old result buffer.new }
{
    if coefficients.len() <= 8 || sum_of_magnitudes(coefficients) > 0xffff {
        return coefficients.len();
    }
    match coefficients.len() {
        ..=12 => predict_front::<2>(coefficients, shift, buffer),
        13..=16 => predict_front::<3>(coefficients, shift, buffer),
        17..=20 => predict_front::<4>(coefficients, shift, buffer),
        21..=24 => predict_front::<5>(coefficients, shift, buffer),
        25..=28 => predict_front::<6>(coefficients, shift, buffer),
        _ => predict_front::<7>(coefficients, shift, buffer),
    }
}

// The sum of the magnitudes of at most 32 coefficients.
fn sum_of_magnitudes(coefficients: &[i16]) -> u32
    requires { length coefficients.now ≤ 32 }
    ensures { result ≡ magnitude coefficients.now }
{
    let mut sum = 0;
    for coefficient in coefficients.iter() {
        sum += u32::from(coefficient.unsigned_abs());
    }
    sum
}

// Whether a sample fits 16 bits.
#[inline(always)]
fn fits_16_bits(sample: i64) -> bool
    ensures { IsTrue result ↔ FitsSigned w16 sample }
{
    (-0x8000..=0x7fff).contains(&sample)
}

// The first samples by their sums of products, the others by pending sums in `VECTORS` vectors, ten at a time while they fit 16
// bits.
#[inline(always)]
fn predict_front<const VECTORS: usize>(
    coefficients: &[i16],
    shift: u32,
    buffer: &mut [i32],
) -> usize
    requires vectors { VECTORS ≤ 7 }
    requires some { 2 ≤ VECTORS }
    requires few { length coefficients.now ≤ 4 * VECTORS + 4 }
    requires warm_up { length coefficients.now ≤ length buffer.old }
    requires shift { shift ≤ 15 }
    requires small { magnitude coefficients.now < 2 ^ 16 }
    ensures warm_up { length coefficients.now ≤ result }
    ensures few { result ≤ length buffer.new }
    ensures restored { FrontIsRestored coefficients.now shift (length coefficients.now)
        buffer.old result buffer.new }
{
    if buffer.len() < 4 * VECTORS + 14 {
        return coefficients.len();
    }
    predict_plain(coefficients, shift, &mut buffer[..4 * VECTORS + 4]);
    predict_pairs::<VECTORS>(&padded_to_32(coefficients), shift, buffer)
}

// The coefficients, padded to 32 numbers with zeros before them.
#[inline(always)]
fn padded_to_32(coefficients: &[i16]) -> [i16; 32]
    requires { length coefficients.now ≤ 32 }
    ensures { result ≡ replicate (32 - length coefficients.now) (pos 0) ++ coefficients.now }
{
    let mut padded = [0; 32];
    padded[32 - coefficients.len()..].copy_from_slice(coefficients);
    padded
}

// For each later sample, from the fifth on, the coefficients of two samples in turn: of the one before the newest, and of the
// newest.
#[inline(always)]
fn pair_taps_of(padded: &[i16; 32]) -> LaterLanes<i16x8>
    ensures are_pair_taps { ArePairTaps (reverse padded.now) result }
    ensures small_pair_taps { SmallPairTaps result }
{
    let p = padded;
    LaterLanes {
        at_4: i16x8::from_array([p[23], p[24], p[24], p[25], p[25], p[26], p[26], p[27]]),
        at_8: i16x8::from_array([p[19], p[20], p[20], p[21], p[21], p[22], p[22], p[23]]),
        at_12: i16x8::from_array([p[15], p[16], p[16], p[17], p[17], p[18], p[18], p[19]]),
        at_16: i16x8::from_array([p[11], p[12], p[12], p[13], p[13], p[14], p[14], p[15]]),
        at_20: i16x8::from_array([p[7], p[8], p[8], p[9], p[9], p[10], p[10], p[11]]),
        at_24: i16x8::from_array([p[3], p[4], p[4], p[5], p[5], p[6], p[6], p[7]]),
        at_28: i16x8::from_array([0, p[0], p[0], p[1], p[1], p[2], p[2], p[3]]),
    }
}

// The coefficients of the newest five samples.
#[inline(always)]
fn newest_coefficients(padded: &[i16; 32]) -> NewestFive
    ensures are_newest { AreNewest (reverse padded.now) result }
{
    NewestFive {
        fifth: i64::from(padded[27]),
        fourth: i64::from(padded[28]),
        third: i64::from(padded[29]),
        second: i64::from(padded[30]),
        newest: i64::from(padded[31]),
    }
}

// Two samples in turn.
#[inline(always)]
fn pair_lanes(one: i64, two: i64) -> i16x8
    requires one { FitsSigned w16 one }
    requires two { FitsSigned w16 two }
    ensures { result ≡ pair_of one two }
{
    i16x8::from_array([one as i16, two as i16, 0, 0, 0, 0, 0, 0]).swizzle([0, 1, 0, 1, 0, 1, 0, 1])
}

// Adds to each sum the products of two coefficients and their samples, modulo 2^32. The compiler makes one instruction of both
// products and their sum.
#[inline(always)]
fn add_pairs(sums: i32x4, taps: i16x8, pair: i16x8) -> i32x4
    requires sums { LanesFit32 sums }
    requires taps { LanesFit16 taps }
    requires pair { LanesFit16 pair }
    ensures value { result ≡ plus_pairs sums taps pair }
    ensures fits { LanesFit32 result }
{
    let products = taps.cast::<i32>() * pair.cast::<i32>();
    sums + (products.swizzle([0, 2, 4, 6]) + products.swizzle([1, 3, 5, 7]))
}

// Shifts the lanes by two: the last two lanes of `before`, then the first two of `lanes`.
#[inline(always)]
fn shift_two_lanes(before: i32x4, lanes: i32x4) -> i32x4
    requires before { LanesFit32 before }
    requires lanes { LanesFit32 lanes }
    ensures value { result ≡ drop 2 before ++ take 2 lanes }
    ensures fits { LanesFit32 result }
{
    before.shuffle(lanes, [2, 3, 4, 5])
}

// The pending sums of four samples, after two more samples. Where no coefficient reaches these four, all is zero.
#[inline(always)]
fn advance_lanes(has_taps: bool, before: i32x4, sums: i32x4, taps: i16x8, pair: i16x8) -> i32x4
    requires before { LanesFit32 before }
    requires sums { LanesFit32 sums }
    requires taps { LanesFit16 taps }
    requires pair { LanesFit16 pair }
    ensures value { has_taps ≡ true → result ≡ advanced_by_pair before sums taps pair }
    ensures zeros { has_taps ≡ false → result ≡ replicate 4 (pos 0) }
    ensures fits { LanesFit32 result }
{
    if !has_taps {
        return i32x4::splat(0);
    }
    add_pairs(shift_two_lanes(before, sums), taps, pair)
}

// These coefficients, where the oldest 28 - 4 * `VECTORS` of the 32 are zeros.
#[derive(Clone, Copy)]
struct PairTaps<const VECTORS: usize> {
    taps: LaterLanes<i16x8>,
    ghost some: { 2 ≤ VECTORS },
}

impl<const VECTORS: usize> LaneTaps for PairTaps<VECTORS> {
    ghost use Rattle.claxon_subframe.specs.Pairs.{ArePairCoefficients, ArePendingSums16};

    type Sums = PendingSums<i32x4>;

    ghost coefficients = { λ c. ArePairCoefficients VECTORS c.taps };

    ghost pending = { ArePendingSums16 };

    ghost taps_fit = { λ c. SmallPairTaps c.taps };

    ghost fit = { SumsFit32 };

    ghost sample_fits = { FitsSigned w16 };

    #[inline(always)]
    fn no_sums(self) -> PendingSums<i32x4> {
        let zeros = i32x4::splat(0);
        PendingSums {
            at_0: zeros,
            later: LaterLanes {
                at_4: zeros,
                at_8: zeros,
                at_12: zeros,
                at_16: zeros,
                at_20: zeros,
                at_24: zeros,
                at_28: zeros,
            },
        }
    }

    #[inline(always)]
    fn next_four(self, sums: PendingSums<i32x4>) -> i64x4 {
        sums.at_0.cast::<i64>()
    }

    #[inline(always)]
    fn both_fit(self, one: i64, two: i64) -> bool {
        fits_16_bits(one) && fits_16_bits(two)
    }

    // Where `VECTORS` is less than 7 no coefficient reaches the latest sums.
    #[inline(always)]
    fn advance(self, sums: PendingSums<i32x4>, one: i64, two: i64) -> PendingSums<i32x4> {
        let pair = pair_lanes(one, two);
        let old = sums.later;
        PendingSums {
            at_0: shift_two_lanes(old.at_4, sums.at_0),
            later: LaterLanes {
                at_4: advance_lanes(true, old.at_8, old.at_4, self.taps.at_4, pair),
                at_8: advance_lanes(true, old.at_12, old.at_8, self.taps.at_8, pair),
                at_12: advance_lanes(VECTORS > 2, old.at_16, old.at_12, self.taps.at_12, pair),
                at_16: advance_lanes(VECTORS > 3, old.at_20, old.at_16, self.taps.at_16, pair),
                at_20: advance_lanes(VECTORS > 4, old.at_24, old.at_20, self.taps.at_20, pair),
                at_24: advance_lanes(VECTORS > 5, old.at_28, old.at_24, self.taps.at_24, pair),
                at_28: advance_lanes(
                    VECTORS > 6,
                    i32x4::splat(0),
                    old.at_28,
                    self.taps.at_28,
                    pair,
                ),
            },
        }
    }
}

// The samples after the first 4 * VECTORS + 4, while they fit 16 bits. Returns how many stand at the front then.
#[inline(never)]
fn predict_pairs<const VECTORS: usize>(padded: &[i16; 32], shift: u32, buffer: &mut [i32]) -> usize
    requires vectors { VECTORS ≤ 7 }
    requires some { 2 ≤ VECTORS }
    requires shift { shift ≤ 15 }
    requires warm_up { 4 * VECTORS + 4 ≤ length buffer.old }
    requires zeros { take (28 - 4 * VECTORS) padded.now ≡ replicate (28 - 4 * VECTORS) (pos 0) }
    requires magnitude { magnitude padded.now < 2 ^ 16 }
    ensures warm_up { 4 * VECTORS + 4 ≤ result }
    ensures few { result ≤ length buffer.new }
    ensures restored { FrontIsRestored padded.now shift (4 * VECTORS + 4)
        buffer.old result buffer.new }
{
    let last = newest_coefficients(padded);
    let taps = PairTaps::<VECTORS> {
        taps: pair_taps_of(padded),
    };
    let start = 4 * VECTORS + 4;
    let Some(sums) = first_sums(taps, &buffer[..start]) else {
        return start;
    };
    let newest = NewestFive::of(&buffer[start - 5..start]);
    let state = PredictorState { newest, sums };
    restore_front(last, taps, shift, state, buffer, start)
}
