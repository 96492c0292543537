//! The FNV-1a hash of samples.

/// The hash of nothing.
pub const OFFSET_BASIS: u64 = 0xcbf2_9ce4_8422_2325;

const PRIME: u64 = 0x0000_0100_0000_01b3;

/// The hash after the little-endian bytes of these samples too.
pub fn hash_on(hash: u64, samples: &[i32]) -> u64 {
    let mut hash = hash;
    for sample in samples {
        for byte in (*sample).cast_unsigned().to_le_bytes() {
            hash = (hash ^ u64::from(byte)).wrapping_mul(PRIME);
        }
    }
    hash
}
