//! Linear predictors of at most twelve coefficients. Most are of this kind.
ghost use Rattle.std.specs.Prelude.{
  ◌≡◌,
  ◌+◌,
  ◌-◌,
  ◌*◌,
  ◌<◌,
  ◌≤◌,
  ◌++◌,
  List,
  ℤ,
  length,
  take,
  reverse,
  replicate,
  pos,
  FitsSigned,
};
ghost use Rattle.std.specs.Int.{w32};
ghost use Rattle.claxon_format.specs.Predict.{linear};
ghost use Rattle.claxon_format.specs.read.Predict.{restored};
ghost use Rattle.claxon_subframe.specs.Predictor.{SamplesAreRestored};
ghost use Rattle.claxon_subframe.specs.PendingSums.{AreNewest, FitVectors};
ghost use Rattle.claxon_subframe.specs.PredictorState.{StandsAt};
ghost use Rattle.claxon_subframe.specs.TwelveLanes.{
  numbers,
  SmallTwelve,
  TwelveFit64,
  AreTwelvePending,
  AreTwelveTaps,
  SmallTwelveTaps,
};

use super::lanes::{
    NewestFive, PredictorState, advance_lanes, broadcast, padded_coefficients, shift_two_lanes,
};
use super::restore::{LaneTaps, first_sums, restore_front, restore_pair};
use super::{low_bits, predict_plain};
use std::simd::prelude::*;

/// The samples of a linear predictor of at most 12 coefficients, the oldest sample's first, from its warm-up samples and the
/// residual after them. (RFC 9639, section 9.2.6.)
pub fn predict_lpc_low_order(coefficients: &[i16], shift: u32, buffer: &mut [i32])
    requires few { length coefficients.now ≤ 12 }
    requires warm_up { length coefficients.now ≤ length buffer.old }
    requires shift { shift ≤ 15 }
    ensures samples_are_restored { SamplesAreRestored coefficients.now shift buffer.old buffer.new }
{
    // The first twelve samples by their sums of products, all others in vectors.
    if buffer.len() <= 12 {
        predict_plain(coefficients, shift, buffer);
        return;
    }
    predict_plain(coefficients, shift, &mut buffer[..12]);
    let twelve = padded_to_twelve(coefficients);
    if coefficients.len() <= 8 {
        predict_after_12::<1>(&twelve, shift, buffer);
    } else {
        predict_after_12::<2>(&twelve, shift, buffer);
    }
}

// Twelve numbers in three vectors: coefficients, the oldest sample's first, or the pending sums of the next twelve samples, the
// latest first.
#[derive(Clone, Copy)]
struct TwelveLanes {
    at_8: i64x4,
    at_4: i64x4,
    at_0: i64x4,
}

// The same without the last vector.
#[derive(Clone, Copy)]
struct EightLanes {
    at_8: i64x4,
    at_4: i64x4,
}

// The coefficients of the newer of two samples for the next twelve samples, from the fifth on, and those of the one before it.
#[derive(Clone, Copy)]
struct TwelveTaps {
    second: EightLanes,
    newest: EightLanes,
}

// The coefficients, the oldest sample's first, padded to twelve with zeros before them.
#[inline(always)]
fn padded_to_twelve(coefficients: &[i16]) -> TwelveLanes
    requires { length coefficients.now ≤ 12 }
    ensures value { numbers result
        ≡ replicate (12 - length coefficients.now) (pos 0) ++ coefficients.now }
    ensures small_twelve { SmallTwelve result }
{
    let padded = padded_coefficients::<12>(coefficients);
    TwelveLanes {
        at_8: i64x4::from_array([padded[0], padded[1], padded[2], padded[3]]),
        at_4: i64x4::from_array([padded[4], padded[5], padded[6], padded[7]]),
        at_0: i64x4::from_array([padded[8], padded[9], padded[10], padded[11]]),
    }
}

#[inline(always)]
fn taps_of_twelve(coefficients: &TwelveLanes) -> TwelveTaps
    requires small_twelve { SmallTwelve coefficients.now }
    ensures are_twelve_taps { AreTwelveTaps (reverse (numbers coefficients.now)) result }
    ensures small_twelve_taps { SmallTwelveTaps result }
{
    let [oldest, second, third, fourth] = coefficients.at_8.to_array();
    let [fifth, sixth, seventh, _] = coefficients.at_4.to_array();
    TwelveTaps {
        second: EightLanes {
            at_8: i64x4::from_array([0, oldest, second, third]),
            at_4: i64x4::from_array([fourth, fifth, sixth, seventh]),
        },
        newest: EightLanes {
            at_8: coefficients.at_8,
            at_4: coefficients.at_4,
        },
    }
}

// These coefficients, where the oldest 8 - 4 * `VECTORS` of the twelve are zeros.
#[derive(Clone, Copy)]
struct LowOrderTaps<const VECTORS: usize> {
    taps: TwelveTaps,
    ghost some: { 1 ≤ VECTORS },
}

impl<const VECTORS: usize> LaneTaps for LowOrderTaps<VECTORS> {
    type Sums = TwelveLanes;

    ghost coefficients = { λ c ks. AreTwelveTaps ks c.taps × FitVectors VECTORS ks };

    ghost pending = { AreTwelvePending };

    ghost taps_fit = { λ c. SmallTwelveTaps c.taps };

    ghost fit = { TwelveFit64 };

    ghost sample_fits = { FitsSigned w32 };

    #[inline(always)]
    fn no_sums(self) -> TwelveLanes {
        let zeros = i64x4::splat(0);
        TwelveLanes {
            at_8: zeros,
            at_4: zeros,
            at_0: zeros,
        }
    }

    #[inline(always)]
    fn next_four(self, sums: TwelveLanes) -> i64x4 {
        sums.at_0
    }

    #[inline(always)]
    fn both_fit(self, _one: i64, _two: i64) -> bool {
        true
    }

    // Where `VECTORS` is 1 no coefficient reaches the latest four.
    #[inline(always)]
    fn advance(self, sums: TwelveLanes, one: i64, two: i64) -> TwelveLanes {
        let (one, two) = (broadcast(one), broadcast(two));
        let zeros = i64x4::splat(0);
        let (second, newest) = (self.taps.second, self.taps.newest);
        TwelveLanes {
            at_8: advance_lanes(
                VECTORS > 1,
                zeros,
                sums.at_8,
                second.at_8,
                one,
                newest.at_8,
                two,
            ),
            at_4: advance_lanes(
                true,
                sums.at_8,
                sums.at_4,
                second.at_4,
                one,
                newest.at_4,
                two,
            ),
            at_0: shift_two_lanes(sums.at_4, sums.at_0),
        }
    }
}

// The coefficients of the newest five samples.
#[inline(always)]
fn newest_of_twelve(coefficients: &TwelveLanes) -> NewestFive
    requires small_twelve { SmallTwelve coefficients.now }
    ensures are_newest { AreNewest (reverse (numbers coefficients.now)) result }
{
    let [_, _, _, fifth] = coefficients.at_4.to_array();
    let [fourth, third, second, first] = coefficients.at_0.to_array();
    NewestFive {
        fifth,
        fourth,
        third,
        second,
        newest: first,
    }
}

// The state after these samples, of which the newest 4 * `VECTORS` + 4 are read.
#[inline(always)]
fn state_after<const VECTORS: usize>(
    taps: LowOrderTaps<VECTORS>,
    samples: &[i32],
) -> PredictorState<TwelveLanes>
    requires enough { 12 ≤ length samples.now }
    requires vectors { VECTORS ≤ 2 }
    requires taps { SmallTwelveTaps taps.taps }
    ensures twelve_fit64 { TwelveFit64 result.sums }
    ensures newest { AreNewest (reverse samples.now) result.newest }
    ensures sums { (coefficients : List ℤ) → AreTwelveTaps coefficients taps.entry.taps
        → FitVectors VECTORS coefficients
        → AreTwelvePending coefficients (reverse samples.now) result.sums }
{
    let sums = first_sums(taps, &samples[samples.len() - (4 * VECTORS + 4)..]).unwrap();
    let newest = NewestFive::of(&samples[samples.len() - 5..]);
    PredictorState { newest, sums }
}

// The samples from index 12 on, each from the twelve samples before it: ten at a time, then two, then one. Where `VECTORS` is 1
// the oldest four coefficients are zeros.
#[inline(always)]
fn predict_after_12<const VECTORS: usize>(
    coefficients: &TwelveLanes,
    shift: u32,
    buffer: &mut [i32],
)
    requires shift { shift ≤ 15 }
    requires warm_up { 12 ≤ length buffer.old }
    requires small_twelve { SmallTwelve coefficients.now }
    requires vectors { VECTORS ≤ 2 }
    requires some { 1 ≤ VECTORS }
    requires zeros { take (8 - 4 * VECTORS) (numbers coefficients.now)
        ≡ replicate (8 - 4 * VECTORS) (pos 0) }
    ensures { buffer.new
        ≡ restored (linear (reverse (numbers coefficients.now)) shift) 12 buffer.old }
{
    let known = predict_12_taps::<VECTORS>(coefficients, shift, buffer);
    if known < buffer.len() {
        predict_last::<VECTORS>(coefficients, shift, buffer, known);
    }
}

// The samples from index 12 on, ten at a time. Returns how many samples stand at the front then. The coefficients are passed by
// reference and this isn't inlined, so that the compiler keeps the shifts of `sign_extended`.
#[inline(never)]
fn predict_12_taps<const VECTORS: usize>(
    coefficients: &TwelveLanes,
    shift: u32,
    buffer: &mut [i32],
) -> usize
    requires shift { shift ≤ 15 }
    requires warm_up { 12 ≤ length buffer.old }
    requires small_twelve { SmallTwelve coefficients.now }
    requires vectors { VECTORS ≤ 2 }
    requires some { 1 ≤ VECTORS }
    requires zeros { take (8 - 4 * VECTORS) (numbers coefficients.now)
        ≡ replicate (8 - 4 * VECTORS) (pos 0) }
    ensures least { 12 ≤ result }
    ensures few { result ≤ length buffer.new }
    ensures all { length buffer.new < result + 10 }
    ensures restored { restored (linear (reverse (numbers coefficients.now)) shift) result
        buffer.new ≡ restored (linear (reverse (numbers coefficients.now)) shift) 12 buffer.old }
{
    let last = newest_of_twelve(coefficients);
    let taps = LowOrderTaps::<VECTORS> {
        taps: taps_of_twelve(coefficients),
    };
    let state = state_after(taps, &buffer[..12]);
    restore_front(last, taps, shift, state, buffer, 12)
}

// The samples from index `known` on, two at a time and then one. The state is computed anew, so that `predict_12_taps` has no
// more to keep in registers.
#[inline(never)]
fn predict_last<const VECTORS: usize>(
    coefficients: &TwelveLanes,
    shift: u32,
    buffer: &mut [i32],
    known: usize,
)
    requires shift { shift ≤ 15 }
    requires least { 12 ≤ known }
    requires few { known ≤ length buffer.old }
    requires small_twelve { SmallTwelve coefficients.now }
    requires vectors { VECTORS ≤ 2 }
    requires some { 1 ≤ VECTORS }
    requires zeros { take (8 - 4 * VECTORS) (numbers coefficients.now)
        ≡ replicate (8 - 4 * VECTORS) (pos 0) }
    ensures { buffer.new
        ≡ restored (linear (reverse (numbers coefficients.now)) shift) known buffer.old }
{
    let last = newest_of_twelve(coefficients);
    let taps = LowOrderTaps::<VECTORS> {
        taps: taps_of_twelve(coefficients),
    };
    let mut state = state_after(taps, &buffer[..known]);
    let pairs = (buffer.len() - known) / 2;
    for pair in 0..pairs {
        state = restore_pair(last, taps, shift, state, buffer, known + 2 * pair).unwrap();
    }
    if known + 2 * pairs < buffer.len() {
        restore_one(last, shift, state, buffer, known + 2 * pairs);
    }
}

// Restores the residual sample at `i`, as the first of two.
#[inline(always)]
fn restore_one(
    last: NewestFive,
    shift: u32,
    state: PredictorState<TwelveLanes>,
    buffer: &mut [i32],
    i: usize,
)
    requires shift { shift ≤ 15 }
    requires twelve_fit64 { TwelveFit64 state.sums }
    requires within { i < length buffer.old }
    ensures kept { length buffer.new ≡ length buffer.old }
    ensures restored { (coefficients : List ℤ) → AreNewest coefficients last
        → StandsAt (AreTwelvePending coefficients) buffer.old i state
        → restored (linear coefficients shift) (i + 1) buffer.new
        ≡ restored (linear coefficients shift) i buffer.old }
{
    let pending = state.sums.at_0;
    let newest = state
        .newest
        .followed_by_two(last, pending, buffer[i], 0, shift);
    buffer[i] = low_bits(newest.second);
}
