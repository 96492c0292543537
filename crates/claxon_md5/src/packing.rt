//! Samples as bytes (RFC 9639, section 8.2), and in the order in which they are hashed.
ghost use Rattle.std.specs.Prelude.{◌≡◌, ◌≤◌, ◌+◌, ◌%◌, length, take};
ghost use Rattle.claxon_md5.specs.Planar.{interleaved_part};
ghost use Rattle.claxon_md5.specs.WholeBytes.{whole_bytes_of_samples};

/// The most samples that are packed at once.
pub const MAX_SAMPLES: usize = 1024;

/// The number of bytes of a buffer that holds as many samples of 32 bits.
pub const BUFFER_LEN: usize = 4096;

/// Writes the bytes of the samples to the front of the buffer, and returns how many they are.
pub fn pack(samples: &[i32], bit_depth: u32, buffer: &mut [u8; BUFFER_LEN]) -> usize
    requires max_bit_depth { bit_depth ≤ 32 }
    requires few { length samples.now ≤ 1024 }
    ensures fits { result ≤ 4096 }
    ensures packed { take result buffer.new ≡ whole_bytes_of_samples bit_depth samples.now }
{
    let width = (bit_depth as usize + 7) / 8;
    let mut at = 0;
    for sample in samples {
        // Always four bytes, in one store. The next sample is written over those that are too many.
        buffer[at..at + 4].copy_from_slice(&sample.to_le_bytes());
        at += width;
    }
    at
}

/// Fills the buffer with the interleaved samples from index `from` on, of samples of `CHANNELS` channels, one channel after
/// another.
pub fn interleave<const CHANNELS: usize>(samples: &[i32], from: usize, buffer: &mut [i32])
    requires some_channels { 1 ≤ CHANNELS }
    requires same_lengths { length samples.now % CHANNELS ≡ 0 }
    requires inside { from + length buffer.old ≤ length samples.now }
    ensures { buffer.new ≡ interleaved_part CHANNELS samples.now from (length buffer.old) }
{
    let duration = samples.len() / CHANNELS;
    for i in 0..buffer.len() {
        let at = from + i;
        buffer[i] = samples[at % CHANNELS * duration + at / CHANNELS];
    }
}
