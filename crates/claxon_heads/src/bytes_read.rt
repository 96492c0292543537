//! How many bytes a reader gave.
ghost use Rattle.std.specs.Prelude.{◌≡◌};
ghost use Rattle.claxon_heads.specs.BytesRead.{last_of, update_position};

use claxon::running::Running;

/// The number of bytes that were read, modulo 2^64. A reader keeps it as it keeps a CRC.
#[derive(Clone, Copy, Drop)]
pub struct BytesRead {
    /// That number.
    pub bytes: u64,
    /// The last of them, if there is one.
    pub last: u8,
}

impl Running for BytesRead {
    ghost update = { update_position };

    ghost start = { record { bytes = 0; last = 0 } };

    fn zero() -> BytesRead {
        BytesRead { bytes: 0, last: 0 }
    }

    #[inline(always)]
    fn next(self, byte: u8) -> BytesRead {
        BytesRead {
            bytes: self.bytes.wrapping_add(1),
            last: byte,
        }
    }

    fn after(self, bytes: &[u8]) -> BytesRead {
        BytesRead {
            bytes: self.bytes.wrapping_add(bytes.len() as u64),
            last: last_or(bytes, self.last),
        }
    }
}

// The last byte, or the other one if there is none.
fn last_or(bytes: &[u8], other: u8) -> u8
    ensures { result ≡ last_of other bytes.now }
{
    match bytes {
        [.., last] => *last,
        _ => other,
    }
}
