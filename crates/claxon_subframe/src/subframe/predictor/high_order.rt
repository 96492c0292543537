//! Linear predictors of more than twelve coefficients.
ghost use Rattle.std.specs.Prelude.{
  ◌≡◌,
  ◌+◌,
  ◌-◌,
  ◌*◌,
  ◌^◌,
  ◌<◌,
  ◌≤◌,
  length,
  take,
  reverse,
  replicate,
  pos,
  FitsSigned,
};
ghost use Rattle.std.specs.Int.{w32};
ghost use Rattle.claxon_format.specs.Predict.{linear};
ghost use Rattle.claxon_format.specs.read.Predict.{restored};
ghost use Rattle.claxon_subframe.specs.Predictor.{SamplesAreRestored};
ghost use Rattle.claxon_subframe.specs.Lanes.{Within};
ghost use Rattle.claxon_subframe.specs.PendingSums.{AreTaps, SmallTaps, SumsFit64};

use super::lanes::{
    LaterLanes, NewestFive, PendingSums, PredictorState, advance_lanes, broadcast,
    padded_coefficients, shift_two_lanes,
};
use super::predict_plain;
use super::restore::{LaneTaps, first_sums, restore_front};
use std::simd::prelude::*;

/// The samples of a linear predictor of more than 12 coefficients, the oldest sample's first, from its warm-up samples and the
/// residual after them. (RFC 9639, section 9.2.6.)
pub fn predict_lpc_high_order(coefficients: &[i16], shift: u32, buffer: &mut [i32])
    requires few { length coefficients.now ≤ 32 }
    requires warm_up { length coefficients.now ≤ length buffer.old }
    requires shift { shift ≤ 15 }
    ensures samples_are_restored { SamplesAreRestored coefficients.now shift buffer.old buffer.new }
{
    match coefficients.len() {
        ..=16 => predict_by_vectors::<3>(coefficients, shift, buffer),
        17..=20 => predict_by_vectors::<4>(coefficients, shift, buffer),
        21..=24 => predict_by_vectors::<5>(coefficients, shift, buffer),
        25..=28 => predict_by_vectors::<6>(coefficients, shift, buffer),
        _ => predict_by_vectors::<7>(coefficients, shift, buffer),
    }
}

// The first samples by their sums of products, the others by pending sums in `VECTORS` vectors, ten at a time, and those left
// like the first.
#[inline(always)]
fn predict_by_vectors<const VECTORS: usize>(coefficients: &[i16], shift: u32, buffer: &mut [i32])
    requires vectors { VECTORS ≤ 7 }
    requires some { 3 ≤ VECTORS }
    requires few { length coefficients.now ≤ 4 * VECTORS + 4 }
    requires warm_up { length coefficients.now ≤ length buffer.old }
    requires shift { shift ≤ 15 }
    ensures samples_are_restored { SamplesAreRestored coefficients.now shift buffer.old buffer.new }
{
    if buffer.len() < 4 * VECTORS + 14 {
        predict_plain(coefficients, shift, buffer);
        return;
    }
    predict_plain(coefficients, shift, &mut buffer[..4 * VECTORS + 4]);
    let padded = padded_coefficients::<32>(coefficients);
    let known = predict_32_taps::<VECTORS>(&padded, shift, buffer);
    predict_plain(
        coefficients,
        shift,
        &mut buffer[known - coefficients.len()..],
    );
}

// The coefficients of the newer of two samples for these samples, from the fifth on, and those of the one before it.
#[derive(Clone, Copy)]
struct Taps {
    second: LaterLanes<i64x4>,
    newest: LaterLanes<i64x4>,
}

#[inline(always)]
fn taps_of(padded: &[i64; 32]) -> Taps
    requires within { Within (2 ^ 15) padded.now }
    ensures are_taps { AreTaps (reverse padded.now) result }
    ensures small_taps { SmallTaps result }
{
    Taps {
        second: LaterLanes {
            at_4: i64x4::from_array([padded[23], padded[24], padded[25], padded[26]]),
            at_8: i64x4::from_array([padded[19], padded[20], padded[21], padded[22]]),
            at_12: i64x4::from_array([padded[15], padded[16], padded[17], padded[18]]),
            at_16: i64x4::from_array([padded[11], padded[12], padded[13], padded[14]]),
            at_20: i64x4::from_array([padded[7], padded[8], padded[9], padded[10]]),
            at_24: i64x4::from_array([padded[3], padded[4], padded[5], padded[6]]),
            at_28: i64x4::from_array([0, padded[0], padded[1], padded[2]]),
        },
        newest: LaterLanes {
            at_4: i64x4::from_array([padded[24], padded[25], padded[26], padded[27]]),
            at_8: i64x4::from_array([padded[20], padded[21], padded[22], padded[23]]),
            at_12: i64x4::from_array([padded[16], padded[17], padded[18], padded[19]]),
            at_16: i64x4::from_array([padded[12], padded[13], padded[14], padded[15]]),
            at_20: i64x4::from_array([padded[8], padded[9], padded[10], padded[11]]),
            at_24: i64x4::from_array([padded[4], padded[5], padded[6], padded[7]]),
            at_28: i64x4::from_array([padded[0], padded[1], padded[2], padded[3]]),
        },
    }
}

// These coefficients, where the oldest 28 - 4 * `VECTORS` of the 32 are zeros.
#[derive(Clone, Copy)]
struct HighOrderTaps<const VECTORS: usize> {
    taps: Taps,
    ghost some: { 3 ≤ VECTORS },
}

impl<const VECTORS: usize> LaneTaps for HighOrderTaps<VECTORS> {
    ghost use Rattle.claxon_subframe.specs.PendingSums.{ArePendingSums, FitVectors};

    type Sums = PendingSums<i64x4>;

    ghost coefficients = { λ c ks. AreTaps ks c.taps × FitVectors VECTORS ks };

    ghost pending = { ArePendingSums };

    ghost taps_fit = { λ c. SmallTaps c.taps };

    ghost fit = { SumsFit64 };

    ghost sample_fits = { FitsSigned w32 };

    #[inline(always)]
    fn no_sums(self) -> PendingSums<i64x4> {
        let zeros = i64x4::splat(0);
        PendingSums {
            at_0: zeros,
            later: LaterLanes {
                at_4: zeros,
                at_8: zeros,
                at_12: zeros,
                at_16: zeros,
                at_20: zeros,
                at_24: zeros,
                at_28: zeros,
            },
        }
    }

    #[inline(always)]
    fn next_four(self, sums: PendingSums<i64x4>) -> i64x4 {
        sums.at_0
    }

    #[inline(always)]
    fn both_fit(self, _one: i64, _two: i64) -> bool {
        true
    }

    // Where `VECTORS` is less than 7 no coefficient reaches the latest sums.
    #[inline(always)]
    fn advance(self, sums: PendingSums<i64x4>, one: i64, two: i64) -> PendingSums<i64x4> {
        let (one, two) = (broadcast(one), broadcast(two));
        let zeros = i64x4::splat(0);
        let old = sums.later;
        let (second, newest) = (self.taps.second, self.taps.newest);
        let later = LaterLanes {
            at_4: advance_lanes(true, old.at_8, old.at_4, second.at_4, one, newest.at_4, two),
            at_8: advance_lanes(
                true,
                old.at_12,
                old.at_8,
                second.at_8,
                one,
                newest.at_8,
                two,
            ),
            at_12: advance_lanes(
                true,
                old.at_16,
                old.at_12,
                second.at_12,
                one,
                newest.at_12,
                two,
            ),
            at_16: advance_lanes(
                VECTORS > 3,
                old.at_20,
                old.at_16,
                second.at_16,
                one,
                newest.at_16,
                two,
            ),
            at_20: advance_lanes(
                VECTORS > 4,
                old.at_24,
                old.at_20,
                second.at_20,
                one,
                newest.at_20,
                two,
            ),
            at_24: advance_lanes(
                VECTORS > 5,
                old.at_28,
                old.at_24,
                second.at_24,
                one,
                newest.at_24,
                two,
            ),
            at_28: advance_lanes(
                VECTORS > 6,
                zeros,
                old.at_28,
                second.at_28,
                one,
                newest.at_28,
                two,
            ),
        };
        PendingSums {
            at_0: shift_two_lanes(old.at_4, sums.at_0),
            later,
        }
    }
}

// The samples after the first 4 * VECTORS + 4, as in `low_order::predict_12_taps`. Where `VECTORS` is less than 7 the oldest
// coefficients are zeros.
#[inline(never)]
fn predict_32_taps<const VECTORS: usize>(
    padded: &[i64; 32],
    shift: u32,
    buffer: &mut [i32],
) -> usize
    requires shift { shift ≤ 15 }
    requires warm_up { 4 * VECTORS + 4 ≤ length buffer.old }
    requires within { Within (2 ^ 15) padded.now }
    requires vectors { VECTORS ≤ 7 }
    requires some { 3 ≤ VECTORS }
    requires zeros { take (28 - 4 * VECTORS) padded.now ≡ replicate (28 - 4 * VECTORS) (pos 0) }
    ensures least { 4 * VECTORS + 4 ≤ result }
    ensures few { result ≤ length buffer.new }
    ensures all { length buffer.new < result + 10 }
    ensures restored { restored (linear (reverse padded.now) shift) result buffer.new
        ≡ restored (linear (reverse padded.now) shift) (4 * VECTORS + 4) buffer.old }
{
    let last = NewestFive {
        fifth: padded[27],
        fourth: padded[28],
        third: padded[29],
        second: padded[30],
        newest: padded[31],
    };
    let taps = HighOrderTaps::<VECTORS> {
        taps: taps_of(padded),
    };
    let start = 4 * VECTORS + 4;
    let Some(sums) = first_sums(taps, &buffer[..start]) else {
        return start;
    };
    let newest = NewestFive::of(&buffer[start - 5..start]);
    let state = PredictorState { newest, sums };
    restore_front(last, taps, shift, state, buffer, start)
}
