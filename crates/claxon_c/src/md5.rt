//! The MD5 sum of samples.
ghost use Rattle.std.specs.Prelude.{[], length};
ghost use Rattle.claxon_md5.specs.HasHashed.{HasHashed};
ghost use Rattle.claxon_c.specs.HashCalls.{
  COtherDepthIsUnsupported,
  COtherPlanarIsUnsupported,
  CPlanarAreHashed,
  CSamplesAreHashed,
  CSumIsFound,
  HasherIsKept,
};

use crate::status::{OK, UNSUPPORTED};
use claxon_md5::Md5;

/// Begins a sum: no samples are hashed yet.
#[unsafe(no_mangle)]
pub extern "C" fn claxon_md5_start(hasher: &mut Md5)
    ensures has_hashed { HasHashed hasher.new [] }
{
    *hasher = Md5::new();
}

/// Hashes interleaved samples, after those that were hashed before.
#[unsafe(no_mangle)]
pub extern "C" fn claxon_md5_samples(hasher: &mut Md5, samples: &[i32], bits_per_sample: u32) -> u32
    ensures are_hashed { CSamplesAreHashed bits_per_sample samples.now result
        hasher.old hasher.new }
    ensures other_depth_is_unsupported { COtherDepthIsUnsupported bits_per_sample result }
    ensures hasher_is_kept { HasherIsKept result hasher.old hasher.new }
{
    if bits_per_sample == 0 || bits_per_sample > 32 {
        return UNSUPPORTED;
    }
    hasher.update_samples(samples, bits_per_sample);
    OK
}

/// Hashes planar samples, those of one channel after those of another, as `claxon_md5_samples` the same samples interleaved.
#[unsafe(no_mangle)]
pub extern "C" fn claxon_md5_planar(
    hasher: &mut Md5,
    samples: &[i32],
    channels: u32,
    bits_per_sample: u32,
) -> u32
    ensures are_hashed { CPlanarAreHashed bits_per_sample channels samples.now result
        hasher.old hasher.new }
    ensures other_is_unsupported { COtherPlanarIsUnsupported bits_per_sample channels
        (length samples.now) result }
    ensures hasher_is_kept { HasherIsKept result hasher.old hasher.new }
{
    if bits_per_sample == 0 || bits_per_sample > 32 || channels == 0 || channels > 8 {
        return UNSUPPORTED;
    }
    if samples.len() % channels as usize != 0 {
        return UNSUPPORTED;
    }
    hasher.update_planar(samples, channels, bits_per_sample);
    OK
}

/// The sum of the samples that were hashed. More may be hashed after it.
#[unsafe(no_mangle)]
pub extern "C" fn claxon_md5_finish(hasher: &Md5, sum: &mut [u8; 16])
    ensures sum_is_found { CSumIsFound hasher.now sum.new }
{
    *sum = hasher.finish();
}
