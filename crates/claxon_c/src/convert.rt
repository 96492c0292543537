//! Samples as numbers of full scale.
ghost use Rattle.std.specs.Prelude.{◌≡◌, ◌≤◌, length, map};
ghost use Rattle.std.specs.Float.{binary32};
ghost use Rattle.std.specs.Float.Ieee;
ghost use Rattle.claxon_c.specs.Convert.{
  CNumbersArePut,
  IsNumbersStatus,
  NumbersAreKept,
  full_scale,
  upper_16,
};

use crate::status::{BUFFER_TOO_SMALL, OK, UNSUPPORTED};
use std::num::{nearest_i32_to_f32, nearest_u32_to_f32};

// Up to here a single-precision number is each integer.
const MAX_EXACT: i32 = 1 << 24;

/// Writes the upper 16 bits of each sample.
#[unsafe(no_mangle)]
pub extern "C" fn claxon_to_int16(samples: &[i32], bits_per_sample: u32, numbers: &mut [i16]) -> u32
    ensures are_put { CNumbersArePut (upper_16 bits_per_sample) samples.now result
        numbers.old numbers.new }
    ensures are_kept { NumbersAreKept result numbers.old numbers.new }
    ensures is_status { IsNumbersStatus bits_per_sample (length samples.now) (length numbers.old)
        result }
{
    if bits_per_sample == 0 || bits_per_sample > 32 {
        return UNSUPPORTED;
    }
    if samples.len() > numbers.len() {
        return BUFFER_TOO_SMALL;
    }
    put_int16(samples, bits_per_sample, &mut numbers[..samples.len()]);
    OK
}

fn put_int16(samples: &[i32], bits: u32, numbers: &mut [i16])
    requires some_bits { 1 ≤ bits }
    requires few_bits { bits ≤ 32 }
    requires count { length numbers.old ≡ length samples.now }
    ensures { numbers.new ≡ map (upper_16 bits) samples.now }
{
    for i in 0..samples.len() {
        numbers[i] = upper_16(samples[i], bits);
    }
}

fn upper_16(sample: i32, bits: u32) -> i16
    requires some_bits { 1 ≤ bits }
    requires few_bits { bits ≤ 32 }
    ensures { result ≡ upper_16 bits sample }
{
    (((sample.cast_unsigned() << (32 - bits)) >> 16) as u16).cast_signed()
}

/// Writes each sample as a number of full scale.
#[unsafe(no_mangle)]
pub extern "C" fn claxon_to_float(samples: &[i32], bits_per_sample: u32, numbers: &mut [f32]) -> u32
    ensures are_put { CNumbersArePut (full_scale bits_per_sample) samples.now result
        numbers.old numbers.new }
    ensures are_kept { NumbersAreKept result numbers.old numbers.new }
    ensures is_status { IsNumbersStatus bits_per_sample (length samples.now) (length numbers.old)
        result }
{
    if bits_per_sample == 0 || bits_per_sample > 32 {
        return UNSUPPORTED;
    }
    if samples.len() > numbers.len() {
        return BUFFER_TOO_SMALL;
    }
    put_float(samples, bits_per_sample, &mut numbers[..samples.len()]);
    OK
}

fn put_float(samples: &[i32], bits: u32, numbers: &mut [f32])
    requires some_bits { 1 ≤ bits }
    requires few_bits { bits ≤ 32 }
    requires count { length numbers.old ≡ length samples.now }
    ensures { numbers.new ≡ map (full_scale bits) samples.now }
{
    let most = nearest_u32_to_f32(1 << (bits - 1));
    for i in 0..samples.len() {
        numbers[i] = nearest_float(samples[i]) / most;
    }
}

// The number nearest to a sample. That of fewer bits is the sample itself.
fn nearest_float(sample: i32) -> f32
    ensures { result ≡ Ieee.of_int binary32 sample }
{
    if sample >= -MAX_EXACT && sample <= MAX_EXACT {
        sample as f32
    } else {
        nearest_i32_to_f32(sample)
    }
}
