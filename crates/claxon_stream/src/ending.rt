//! Where a frame may end, by its CRC-16.
ghost use Rattle.std.specs.Prelude.{◌≡◌, ◌↔◌, ◌*◌, ◌≤◌, IsTrue, length, max};
ghost use Rattle.claxon_stream.specs.SumThrough.{IsSummed};

use claxon::running::Running;

// What is known of the end of a frame, by its first bytes. Its CRC-16 is kept from one piece to the next, so most bytes cost no try to
// decode it: a frame ends only where that is 0.
#[repr(C)]
#[derive(Clone, Copy, Debug)]
pub(crate) struct FrameEnd {
    // How many bytes were tried last, in vain.
    tried: usize,
    // How many bytes the CRC is of.
    summed: usize,
    crc: u16,
    // Whether it was 0 after some bytes that weren't tried since.
    is_near: bool,
}

impl FrameEnd {
    ghost use Rattle.claxon_stream.specs.FrameEnd.{EndIsNoted, MayEnd, StartKnows, summed_bytes, tried_bytes};

    // Nothing is known.
    pub(crate) fn new() -> FrameEnd
        ensures knows { StartKnows result }
        ensures summed { summed_bytes result ≡ 0 }
    {
        FrameEnd {
            tried: 0,
            summed: 0,
            crc: 0,
            is_near: false,
        }
    }

    // Whether these are twice as many bytes as were tried last. Then they are tried, whatever the CRC is: so a fault is found, and all
    // these tries read no more than twice the bytes.
    pub(crate) fn is_doubled(&self, bytes: &[u8]) -> bool
        ensures { IsTrue result ↔ (2 * tried_bytes self.now ≤ length bytes.now) }
    {
        bytes.len() / 2 >= self.tried
    }

    // Whether a frame that begins with these bytes may end within them.
    pub(crate) fn may_be_in(&mut self, bytes: &[u8]) -> bool
        ensures may_end { MayEnd bytes.now self.old result self.new }
        ensures tried { tried_bytes self.new ≡ tried_bytes self.old }
        ensures summed { summed_bytes self.new ≡ max (length bytes.now) (summed_bytes self.old) }
    {
        if bytes.len() > self.summed {
            let (crc, is_near) = sum_through(self.crc, self.is_near, &bytes[self.summed..]);
            *self = FrameEnd {
                tried: self.tried,
                summed: bytes.len(),
                crc,
                is_near,
            };
        }
        self.is_near
    }

    // Notes that neither a frame nor a fault begins these bytes.
    pub(crate) fn note_open(&mut self, bytes: &[u8])
        ensures { EndIsNoted bytes.now self.old self.new }
    {
        if bytes.len() < self.summed {
            self.tried = bytes.len();
            return;
        }
        *self = FrameEnd {
            tried: bytes.len(),
            summed: bytes.len(),
            crc: self.crc.after(&bytes[self.summed..]),
            is_near: false,
        };
    }
}

// The CRC after these bytes, and whether it was 0 after one of them, or before.
fn sum_through(crc: u16, was_zero: bool, bytes: &[u8]) -> (u16, bool)
    ensures { IsSummed crc was_zero bytes.now result.0 result.1 }
{
    let mut sum = crc;
    let mut is_zero = was_zero;
    for byte in bytes {
        sum = sum.next(*byte);
        if sum == 0 {
            is_zero = true;
        }
    }
    (sum, is_zero)
}
