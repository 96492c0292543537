//! Samples restored two at a time, with pending sums of later samples: one body for lanes of each width.
//!
//! A sample's products are added to the pending sums of later samples as soon as it is known, two samples at a time, so that
//! the lanes shift by half a vector. The products of the newest samples, four for the first of two and five for the second, are
//! added last, one by one, so that a sample depends on the one just before it only by one product, and on no pending sum that
//! was just computed.
ghost use Rattle.std.specs.Prelude.{
  ◌≡◌,
  ◌+◌,
  ◌%◌,
  ◌<◌,
  ◌≤◌,
  ◌↔◌,
  ◌∷◌,
  [],
  List,
  ℤ,
  IfErr,
  IfOk,
  IfSome,
  IsSome,
  IsTrue,
  length,
  FitsSigned,
};
ghost use Rattle.std.specs.Int.{w32};
ghost use Rattle.claxon_subframe.specs.Lanes.{LanesFit64};
ghost use Rattle.claxon_subframe.specs.PendingSums.{ArePendingSumsOf, four_pending};
ghost use Rattle.claxon_subframe.specs.PredictorState.{
  EachFits,
  RestoresFront,
  RestoresPair,
  RestoresTen,
};

use super::lanes::{NewestFive, PredictorState};
use super::low_bits;
use std::simd::prelude::*;

/// The coefficients of the samples from the fifth on, in lanes, and how their products are added to pending sums.
pub trait LaneTaps: Copy {
    /// The pending sums of the next samples.
    type Sums: Copy;

    /// Whether these are all coefficients, the newest sample's first.
    ghost coefficients: { Self → List ℤ → Type 0 };

    /// Whether these are the pending sums of some coefficients after some samples, the newest first.
    ghost pending: { List ℤ → List ℤ → Self.Sums → Type 0 };

    /// Whether the coefficients fit their lanes.
    ghost taps_fit: { Self → Type 0 };

    /// Whether the sums fit their lanes.
    ghost fit: { Self.Sums → Type 0 };

    /// Whether the sums with this sample fit the lanes.
    ghost sample_fits: { ℤ → Type 0 };

    /// The sums before the first sample.
    fn no_sums(self) -> Self::Sums
        ensures fit { fit result }
        ensures pending { (coefficients : List ℤ) → pending coefficients [] result };

    /// The sums of the next four samples, the latest first.
    fn next_four(self, sums: Self::Sums) -> i64x4
        requires { fit sums }
        ensures lanes_fit64 { LanesFit64 result }
        ensures pending { (coefficients past : List ℤ) → pending coefficients past sums
            → result ≡ four_pending coefficients past 0 };

    /// Whether the sums with both samples fit the lanes.
    fn both_fit(self, one: i64, two: i64) -> bool
        requires one { FitsSigned w32 one }
        requires two { FitsSigned w32 two }
        ensures { IsTrue result ↔ (sample_fits one × sample_fits two) };

    /// The sums after two more samples.
    fn advance(self, sums: Self::Sums, one: i64, two: i64) -> Self::Sums
        requires taps { taps_fit self }
        requires sums { fit sums }
        requires one { sample_fits one }
        requires two { sample_fits two }
        ensures fit { fit result }
        ensures pending { (ks past : List ℤ) → coefficients self ks
            → pending ks past sums → pending ks (two ∷ one ∷ past) result };
}

/// The pending sums after these samples, or None where one of them doesn't fit.
#[inline(always)]
pub fn first_sums<T: LaneTaps>(taps: T, samples: &[i32]) -> Option<T::Sums>
    requires even { length samples.now % 2 ≡ 0 }
    requires taps { T.taps_fit taps }
    ensures all { EachFits T.sample_fits → IsSome result }
    ensures fit { IfSome result T.fit }
    ensures pending { IfSome result (ArePendingSumsOf (T.coefficients taps) T.pending samples.now) }
{
    let mut sums = taps.no_sums();
    for pair in 0..samples.len() / 2 {
        let one = i64::from(samples[2 * pair]);
        let two = i64::from(samples[2 * pair + 1]);
        if !taps.both_fit(one, two) {
            return None;
        }
        sums = taps.advance(sums, one, two);
    }
    Some(sums)
}

/// Restores the residual samples at `i` and after it. Where one of the samples doesn't fit, nothing is stored, and the Err is
/// `i`.
#[inline(always)]
pub fn restore_pair<T: LaneTaps>(
    last: NewestFive,
    taps: T,
    shift: u32,
    state: PredictorState<T::Sums>,
    buffer: &mut [i32],
    i: usize,
) -> Result<PredictorState<T::Sums>, usize>
    requires shift { shift ≤ 15 }
    requires taps { T.taps_fit taps }
    requires sums { T.fit state.sums }
    requires within { i + 2 ≤ length buffer.old }
    ensures kept { length buffer.new ≡ length buffer.old }
    ensures restores_pair { RestoresPair (T.coefficients taps) T.pending last shift buffer.old i
        state buffer.new result }
    ensures fits { IfOk result (λ next. T.fit next.sums) }
    ensures place { IfErr result (λ place. place ≡ i) }
    ensures all { EachFits T.sample_fits → IfErr result (λ place. ⊥) }
{
    let pending = taps.next_four(state.sums);
    let newest = state
        .newest
        .followed_by_two(last, pending, buffer[i], buffer[i + 1], shift);
    if !taps.both_fit(newest.second, newest.newest) {
        return Err(i);
    }
    buffer[i] = low_bits(newest.second);
    buffer[i + 1] = low_bits(newest.newest);
    let sums = taps.advance(state.sums, newest.second, newest.newest);
    Ok(PredictorState { newest, sums })
}

// Restores ten residual samples from `i` on while they fit. An Err is the place of the first pair that doesn't. A pair moves
// each name of `NewestFive` on by two samples, and five pairs by ten, to where it was, so that the compiler moves no registers.
#[inline(always)]
fn restore_ten<T: LaneTaps>(
    last: NewestFive,
    taps: T,
    shift: u32,
    state: PredictorState<T::Sums>,
    buffer: &mut [i32],
    i: usize,
) -> Result<PredictorState<T::Sums>, usize>
    requires shift { shift ≤ 15 }
    requires taps { T.taps_fit taps }
    requires sums { T.fit state.sums }
    requires within { i + 10 ≤ length buffer.old }
    ensures kept { length buffer.new ≡ length buffer.old }
    ensures restores_ten { RestoresTen (T.coefficients taps) T.pending last shift buffer.old i state
        buffer.new result }
    ensures fits { IfOk result (λ next. T.fit next.sums) }
    ensures place { IfErr result (λ place. (i ≤ place) × (place ≤ i + 8)) }
    ensures all { EachFits T.sample_fits → IfErr result (λ place. ⊥) }
{
    let two = restore_pair(last, taps, shift, state, buffer, i)?;
    let four = restore_pair(last, taps, shift, two, buffer, i + 2)?;
    let six = restore_pair(last, taps, shift, four, buffer, i + 4)?;
    let eight = restore_pair(last, taps, shift, six, buffer, i + 6)?;
    restore_pair(last, taps, shift, eight, buffer, i + 8)
}

/// Restores the residual samples from `start` on while they fit, where `state` is that after the samples before it.
/// Returns how many samples stand at the front then. Where all fit, fewer than ten are left.
#[inline(always)]
pub fn restore_front<T: LaneTaps>(
    last: NewestFive,
    taps: T,
    shift: u32,
    state: PredictorState<T::Sums>,
    buffer: &mut [i32],
    start: usize,
) -> usize
    requires shift { shift ≤ 15 }
    requires taps { T.taps_fit taps }
    requires sums { T.fit state.sums }
    requires start { start ≤ length buffer.old }
    ensures kept { length buffer.new ≡ length buffer.old }
    ensures least { start ≤ result }
    ensures few { result ≤ length buffer.new }
    ensures all { EachFits T.sample_fits → length buffer.new < result + 10 }
    ensures restores_front { RestoresFront (T.coefficients taps) T.pending last shift buffer.old
        start state buffer.new result }
{
    let mut current = state;
    let tens = (buffer.len() - start) / 10;
    for ten in 0..tens {
        match restore_ten(last, taps, shift, current, buffer, start + 10 * ten) {
            Ok(next) => current = next,
            Err(stop) => return stop,
        }
    }
    start + 10 * tens
}
