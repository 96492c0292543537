//! What is kept of the bytes of damage.
ghost use Rattle.std.specs.Prelude.{◌≡◌, ◌↔◌, All, IsTrue, []};
ghost use Rattle.claxon_recovery.specs.Passed.{IsOfBytes, PassesMore, PassesUnsearched};

use claxon::running::Running;
use claxon_blocks::frames::FirstBytes;

// What is kept of the bytes that were passed.
#[derive(Clone, Copy)]
pub(crate) struct Passed {
    pub first: FirstBytes,
    pub are_zeros: bool,
    pub unsearched: u64,
}

impl Passed {
    // Nothing was passed.
    pub fn new() -> Passed
        ensures { IsOfBytes [] 0 result }
    {
        Passed {
            first: FirstBytes::zero(),
            are_zeros: true,
            unsearched: 0,
        }
    }

    // More bytes, after the others.
    pub fn with(self, bytes: &[u8]) -> Passed
        ensures { PassesMore bytes.now self result }
    {
        Passed {
            first: self.first.after(bytes),
            are_zeros: self.are_zeros && are_zeros(bytes),
            unsearched: self.unsearched,
        }
    }

    // One position more isn't searched.
    pub fn with_unsearched(self) -> Passed
        ensures { PassesUnsearched self result }
    {
        Passed {
            unsearched: self.unsearched.wrapping_add(1),
            ..self
        }
    }
}

// Whether each byte is 0.
fn are_zeros(bytes: &[u8]) -> bool
    ensures { IsTrue result ↔ All (λ byte. byte ≡ 0) bytes.now }
{
    for byte in bytes {
        if *byte != 0 {
            return false;
        }
    }
    true
}
