//! Predictors: samples from the warm-up samples and the residual, in place. Samples are modulo 2^32.
ghost use Rattle.std.specs.Prelude.{◌≡◌, ◌≤◌, length};
ghost use Rattle.claxon_format.specs.Predict.{wrap, dot, linear};
ghost use Rattle.claxon_format.specs.read.Predict.{restored};
ghost use Rattle.claxon_subframe.specs.Predictor.{SamplesAreRestored};

pub mod fixed;
mod high_order;
mod lanes;
mod low_order;
mod pairs;
mod restore;

use high_order::predict_lpc_high_order;
use low_order::predict_lpc_low_order;
use pairs::predict_by_pairs;

/// The samples of a linear predictor, from its warm-up samples, as many as it has coefficients, and the residual after them.
/// The first coefficient is that of the newest sample; the call reverses them. (RFC 9639, section 9.2.6.)
pub fn predict_lpc(coefficients: &mut [i16], shift: u32, buffer: &mut [i32])
    requires few { length coefficients.old ≤ 32 }
    requires warm_up { length coefficients.old ≤ length buffer.old }
    requires shift { shift ≤ 15 }
    ensures { buffer.new
        ≡ restored (linear coefficients.old shift) (length coefficients.old) buffer.old }
{
    // From here on the oldest sample's coefficient is first.
    coefficients.reverse();
    let known = predict_by_pairs(coefficients, shift, buffer);
    let rest = &mut buffer[known - coefficients.len()..];
    if coefficients.len() <= 12 {
        predict_lpc_low_order(coefficients, shift, rest);
    } else {
        predict_lpc_high_order(coefficients, shift, rest);
    }
}

// By the sum of products of each sample, at any order.
#[inline(never)]
fn predict_plain(coefficients: &[i16], shift: u32, buffer: &mut [i32])
    requires few { length coefficients.now ≤ 32 }
    requires warm_up { length coefficients.now ≤ length buffer.old }
    requires shift { shift ≤ 15 }
    ensures samples_are_restored { SamplesAreRestored coefficients.now shift buffer.old buffer.new }
{
    let order = coefficients.len();
    for i in order..buffer.len() {
        let sum = inner_product(coefficients, &buffer[i - order..i]);
        // The sum divided by 2^shift, rounded down.
        let prediction = sum >> shift;
        buffer[i] = low_bits(prediction).wrapping_add(buffer[i]);
    }
}

// The sum of the products of coefficients and samples. With 32 products of at most 2^15 * 2^31 it is at most 2^51 in size.
#[inline(always)]
fn inner_product(coefficients: &[i16], samples: &[i32]) -> i64
    requires same { length coefficients.now ≡ length samples.now }
    requires few { length coefficients.now ≤ 32 }
    ensures { result ≡ dot coefficients.now samples.now }
{
    let mut sum = 0;
    for (i, coefficient) in coefficients.iter().enumerate() {
        sum += i64::from(*coefficient) * i64::from(samples[i]);
    }
    sum
}

// The low 32 bits of a number, as a signed number.
#[inline(always)]
fn low_bits(value: i64) -> i32
    ensures { result ≡ wrap value }
{
    ((value.cast_unsigned() & 0xffff_ffff) as u32).cast_signed()
}
