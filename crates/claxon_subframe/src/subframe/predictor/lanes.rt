//! What the linear predictors share: the sums of products that later samples still wait for, in vectors of four lanes, and the
//! newest five samples, whose products come last.
ghost use Rattle.std.specs.Prelude.{
  ◌≡◌,
  ◌+◌,
  ◌-◌,
  ◌^◌,
  ◌≤◌,
  true,
  false,
  ◌++◌,
  length,
  take,
  drop,
  reverse,
  replicate,
  get_or,
  pos,
  FitsSigned,
};
ghost use Rattle.std.specs.Int.{w32};
ghost use Rattle.claxon_subframe.specs.Lanes.{
  Within,
  Lanes,
  LanesFit64,
  plus_products,
  advanced_by_two,
};
ghost use Rattle.claxon_subframe.specs.PendingSums.{
  IsScaledUp,
  AddsProduct,
  IsSample,
  IsButFifth,
  IsFollowed,
  AreNewest,
  IsFollowedByTwo,
};

use std::simd::prelude::*;

/// Lanes for the samples that follow, from the fifth on: seven vectors, in each the latest sample's lane first.
#[derive(Clone, Copy)]
pub struct LaterLanes<L> {
    pub at_4: L,
    pub at_8: L,
    pub at_12: L,
    pub at_16: L,
    pub at_20: L,
    pub at_24: L,
    pub at_28: L,
}

/// The pending sums of the next 32 samples.
#[derive(Clone, Copy)]
pub struct PendingSums<L> {
    pub at_0: L,
    pub later: LaterLanes<L>,
}

/// The coefficients, padded to `COUNT` numbers with zeros before them.
#[inline(always)]
pub fn padded_coefficients<const COUNT: usize>(coefficients: &[i16]) -> [i64; COUNT]
    requires { length coefficients.now ≤ COUNT }
    ensures value { result
        ≡ replicate (COUNT - length coefficients.now) (pos 0) ++ coefficients.now }
    ensures within { Within (2 ^ 15) result }
{
    let mut padded = [0i64; COUNT];
    let start = COUNT - coefficients.len();
    for i in 0..coefficients.len() {
        padded[start + i] = i64::from(coefficients[i]);
    }
    padded
}

// The same lanes. The shifts tell the compiler that they are sign-extended from 32 bits, so that it multiplies 32 bits by 32.
#[inline(always)]
fn sign_extended(lanes: i64x4) -> i64x4
    requires lanes { Lanes (2 ^ 15) lanes }
    ensures { result ≡ lanes }
{
    (lanes << i64x4::splat(32)) >> i64x4::splat(32)
}

/// A sample in each lane, sign-extended from 32 bits by shifts, as in `sign_extended`.
#[inline(always)]
pub fn broadcast(sample: i64) -> i64x4
    requires fits_signed { FitsSigned w32 sample }
    ensures value { result ≡ replicate 4 sample }
    ensures lanes { Lanes (2 ^ 31) result }
{
    (i64x4::splat(sample) << i64x4::splat(32)) >> i64x4::splat(32)
}

// Adds to each sum the product of its lane, modulo 2^64.
#[inline(always)]
fn add_products(sums: i64x4, coefficients: i64x4, samples: i64x4) -> i64x4
    requires sums { LanesFit64 sums }
    requires coefficients { Lanes (2 ^ 15) coefficients }
    requires samples { Lanes (2 ^ 31) samples }
    ensures { result ≡ plus_products sums coefficients samples }
{
    sums + sign_extended(coefficients) * samples
}

/// Shifts the lanes by two: the last two lanes of `before`, then the first two of `lanes`.
#[inline(always)]
pub fn shift_two_lanes(before: i64x4, lanes: i64x4) -> i64x4
    requires before { LanesFit64 before }
    requires lanes { LanesFit64 lanes }
    ensures value { result ≡ drop 2 before ++ take 2 lanes }
    ensures fits { LanesFit64 result }
{
    before.shuffle(lanes, [2, 3, 4, 5])
}

/// The pending sums of four samples, after two more samples: the lanes shifted by two, and the products of the two samples.
/// Where no coefficient reaches these four, all is zero.
#[inline(always)]
pub fn advance_lanes(
    has_taps: bool,
    before: i64x4,
    sums: i64x4,
    for_second: i64x4,
    second: i64x4,
    for_newest: i64x4,
    newest: i64x4,
) -> i64x4
    requires before { LanesFit64 before }
    requires sums { LanesFit64 sums }
    requires for_second { Lanes (2 ^ 15) for_second }
    requires second { Lanes (2 ^ 31) second }
    requires for_newest { Lanes (2 ^ 15) for_newest }
    requires newest { Lanes (2 ^ 31) newest }
    ensures value { has_taps ≡ true
        → result ≡ advanced_by_two before sums for_second second for_newest newest }
    ensures zeros { has_taps ≡ false → result ≡ replicate 4 (pos 0) }
    ensures fits { LanesFit64 result }
{
    if !has_taps {
        return i64x4::splat(0);
    }
    let moved = shift_two_lanes(before, sums);
    add_products(add_products(moved, for_second, second), for_newest, newest)
}

/// Five samples, or their coefficients.
#[derive(Clone, Copy)]
pub struct NewestFive {
    pub fifth: i64,
    pub fourth: i64,
    pub third: i64,
    pub second: i64,
    pub newest: i64,
}

impl NewestFive {
    /// From five samples, the newest last.
    #[inline(always)]
    pub fn of(samples: &[i32]) -> NewestFive
        requires { length samples.now ≡ 5 }
        ensures are_newest { AreNewest (reverse samples.now) result }
    {
        NewestFive {
            fifth: i64::from(samples[0]),
            fourth: i64::from(samples[1]),
            third: i64::from(samples[2]),
            second: i64::from(samples[3]),
            newest: i64::from(samples[4]),
        }
    }

    // The newest five after one more sample.
    #[inline(always)]
    fn followed_by(self, sample: i64) -> NewestFive
        ensures is_followed { IsFollowed self sample result }
    {
        NewestFive {
            fifth: self.fourth,
            fourth: self.third,
            third: self.second,
            second: self.newest,
            newest: sample,
        }
    }

    // These coefficients without that of the fifth sample.
    #[inline(always)]
    fn but_fifth(self) -> NewestFive
        ensures is_but_fifth { IsButFifth self result }
    {
        NewestFive {
            fifth: 0,
            fourth: self.fourth,
            third: self.third,
            second: self.second,
            newest: self.newest,
        }
    }

    /// The newest five after the next two samples, whose pending sums are the last two lanes of `pending`, the next one's last.
    /// That of the next one has the product of the fifth sample already.
    #[inline(always)]
    pub fn followed_by_two(
        self,
        coefficients: NewestFive,
        pending: i64x4,
        nearest: i32,
        farther: i32,
        shift: u32,
    ) -> NewestFive
        requires lanes_fit64 { LanesFit64 pending }
        requires shift { shift ≤ 15 }
        ensures is_followed_by_two { IsFollowedByTwo self coefficients pending nearest farther
            shift result }
        ensures second { FitsSigned w32 result.second }
        ensures newest { FitsSigned w32 result.newest }
    {
        let (nearest, farther) = scaled_up(pending, nearest, farther, shift);
        let one = sample_of(nearest, coefficients.but_fifth(), self, shift);
        let before = self.followed_by(one);
        let two = sample_of(farther, coefficients, before, shift);
        before.followed_by(two)
    }
}

/// What a predictor keeps from one pair of samples to the next: the newest five samples, and the pending sums of the next ones.
#[derive(Clone, Copy)]
pub struct PredictorState<S> {
    pub newest: NewestFive,
    pub sums: S,
}

// The pending sums of the next two samples, each with its residual sample. All is scaled up so that one shift by 32 drops the
// bits that `shift` would drop, and leaves a number of 32 bits.
#[inline(always)]
fn scaled_up(sums: i64x4, nearest: i32, farther: i32, shift: u32) -> (i64, i64)
    requires lanes_fit64 { LanesFit64 sums }
    requires shift { shift ≤ 15 }
    ensures nearest { IsScaledUp (get_or sums 3 (pos 0)) nearest shift result.0 }
    ensures farther { IsScaledUp (get_or sums 2 (pos 0)) farther shift result.1 }
{
    let up = i64x4::splat(i64::from(32 - shift));
    // In the order of the buffer, so that one load reads both.
    let residuals = i32x4::from_array([nearest, farther, 0, 0]).cast::<i64>();
    let pending = sums.swizzle([3, 2, 3, 2]);
    let [first, second, _, _] = ((pending << up) + (residuals << i64x4::splat(32))).to_array();
    (first, second)
}

// Adds a product, scaled up, to a sum that is scaled up.
#[inline(always)]
fn add_product(scaled: i64, coefficient: i64, sample: i64, shift: u32) -> i64
    requires { shift ≤ 15 }
    ensures adds_product { AddsProduct scaled coefficient sample shift result }
{
    scaled.wrapping_add((coefficient << (32 - shift)).wrapping_mul(sample))
}

// A sample, from its scaled up pending sum and the products of the newest five samples. It is kept in 64 bits, in which it is
// multiplied next.
#[inline(always)]
fn sample_of(scaled: i64, coefficients: NewestFive, samples: NewestFive, shift: u32) -> i64
    requires { shift ≤ 15 }
    ensures is_sample { IsSample scaled coefficients samples shift result }
    ensures fits_signed { FitsSigned w32 result }
{
    let five = add_product(scaled, coefficients.fifth, samples.fifth, shift);
    let four = add_product(five, coefficients.fourth, samples.fourth, shift);
    let three = add_product(four, coefficients.third, samples.third, shift);
    let two = add_product(three, coefficients.second, samples.second, shift);
    add_product(two, coefficients.newest, samples.newest, shift) >> 32
}
