//! The first bytes that a reader gave.
ghost use Rattle.std.specs.Prelude.{All, ◌≡◌, ◌↔◌, ◌≤◌, IsTrue, length, replicate, take};
ghost use Rattle.claxon.specs.Bits.{bits_of, number};
ghost use Rattle.claxon_blocks.specs.FirstBytes.{update_first};

use claxon::running::Running;

/// The first 16 bytes that were read. A reader keeps them as it keeps a CRC.
#[derive(Clone, Copy, Debug)]
pub struct FirstBytes {
    // How many of them were read so far.
    seen: usize,
    // They, in the first places.
    bytes: [u8; 16],
    // How many bytes were read after them, modulo 2^64.
    others: u64,
}

impl Running for FirstBytes {
    ghost update = { update_first };

    ghost start = { record { seen = 0; bytes = replicate 16 0; others = 0 } };

    fn zero() -> FirstBytes {
        FirstBytes {
            seen: 0,
            bytes: [0; 16],
            others: 0,
        }
    }

    #[inline(always)]
    fn next(self, byte: u8) -> FirstBytes {
        if self.seen >= 16 {
            return FirstBytes {
                others: self.others.wrapping_add(1),
                ..self
            };
        }
        let mut bytes = self.bytes;
        bytes[self.seen] = byte;
        FirstBytes {
            seen: self.seen + 1,
            bytes,
            others: 0,
        }
    }

    fn after(self, bytes: &[u8]) -> FirstBytes {
        let mut first = self;
        for at in 0..bytes.len() {
            if first.seen >= 16 {
                let more = (bytes.len() - at) as u64;
                return FirstBytes {
                    others: first.others.wrapping_add(more),
                    ..first
                };
            }
            first = first.next(bytes[at]);
        }
        first
    }
}

impl FirstBytes {
    ghost use Rattle.claxon_blocks.specs.FirstBytes.{AreZeros, kept_of};

    /// They, as a slice.
    pub fn as_slice(&self) -> &[u8]
        ensures { result.now ≡ kept_of self.now }
    {
        &self.bytes[..self.seen.min(16)]
    }

    /// Whether each of them is 0.
    pub fn are_zeros(&self) -> bool
        ensures { IsTrue result ↔ AreZeros (kept_of self.now) }
    {
        are_zeros(self.as_slice())
    }

    // Whether at least four were read.
    pub(crate) fn has_four(&self) -> bool
        ensures { IsTrue result ↔ (4 ≤ self.now.seen) }
    {
        self.seen >= 4
    }

    // The first four of them, as a number.
    pub(crate) fn first_four(&self) -> u32
        ensures { result ≡ number (bits_of (take 4 self.now.bytes)) }
    {
        number_of_four(&self.bytes)
    }
}

// Whether each byte is 0.
fn are_zeros(bytes: &[u8]) -> bool
    ensures { IsTrue result ↔ All (λ byte. byte ≡ 0) bytes.now }
{
    for byte in bytes {
        if *byte != 0 {
            return false;
        }
    }
    true
}

// The first four bytes, as a number.
fn number_of_four(bytes: &[u8]) -> u32
    requires { 4 ≤ length bytes.now }
    ensures { result ≡ number (bits_of (take 4 bytes.now)) }
{
    u32::from_be_bytes([bytes[0], bytes[1], bytes[2], bytes[3]])
}
