//! A clock as a plain struct, as C keeps it.
ghost use Rattle.std.specs.Prelude.{◌≡◌};
ghost use Rattle.claxon_stream_seek.specs.Kept.{kept_clock, kept_counted};

use super::{Clock, Counted};

// The numbers of what coded numbers count. Any other says that blocks have more than one size.
const NOT_KNOWN: u8 = 0;

const SAMPLES: u8 = 1;

const BLOCKS: u8 = 2;

const VARYING_BLOCKS: u8 = 3;

const VARIABLE_BLOCKS: u8 = 4;

/// A `Clock` as C keeps it. In memory it is laid out as the same struct in C.
#[repr(C)]
#[derive(Clone, Copy, Debug)]
pub struct KeptClock {
    has_frame: bool,
    has_time: bool,
    counted: u8,
    duration: u32,
    number: u64,
    end: u64,
    time: u64,
    block_size: u32,
}

impl KeptClock {
    /// The clock as it is kept.
    pub fn new(clock: Clock) -> KeptClock
        ensures { kept_clock result ≡ clock }
    {
        KeptClock {
            has_frame: clock.has_frame,
            has_time: clock.has_time,
            counted: numbered(clock.counted),
            duration: clock.duration,
            number: clock.number,
            end: clock.end,
            time: clock.time,
            block_size: clock.block_size,
        }
    }

    /// The clock that is kept.
    pub fn clock(&self) -> Clock
        ensures { result ≡ kept_clock self.now }
    {
        Clock {
            has_frame: self.has_frame,
            has_time: self.has_time,
            counted: counted_by(self.counted),
            duration: self.duration,
            number: self.number,
            end: self.end,
            time: self.time,
            block_size: self.block_size,
        }
    }
}

fn counted_by(number: u8) -> Counted
    ensures { result ≡ kept_counted number }
{
    match number {
        NOT_KNOWN => Counted::NotKnown,
        SAMPLES => Counted::Samples,
        BLOCKS => Counted::Blocks,
        VARIABLE_BLOCKS => Counted::VariableBlocks,
        _ => Counted::VaryingBlocks,
    }
}

fn numbered(counted: Counted) -> u8
    ensures { kept_counted result ≡ counted }
{
    match counted {
        Counted::NotKnown => NOT_KNOWN,
        Counted::Samples => SAMPLES,
        Counted::Blocks => BLOCKS,
        Counted::VaryingBlocks => VARYING_BLOCKS,
        Counted::VariableBlocks => VARIABLE_BLOCKS,
    }
}
