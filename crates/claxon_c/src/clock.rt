//! Where blocks begin in time.
ghost use Rattle.claxon_stream_seek.specs.Clock.{StartsRightOf};
ghost use Rattle.claxon_stream_seek.specs.Kept.{kept_clock};
ghost use Rattle.claxon_c.specs.Clock.{
  CNeedsFrames,
  CNoteKeepsOrder,
  CNoteKeepsRight,
  CNoteKnowsUnit,
  CNoteKnowsVariable,
  CTimeIsExact,
  CTimeIsInOrder,
  CTimeIsKept,
  CTimeIsKnown,
  CTimeIsShown,
};
ghost use Rattle.claxon_c.specs.Info.{known_info};

use crate::frame::ClaxonFrame;
use crate::heads::ClaxonInfo;
use claxon_stream_seek::{Clock, KeptClock};

/// Begins a clock: nothing is known but what the streaminfo says.
#[unsafe(no_mangle)]
pub extern "C" fn claxon_clock_start(clock: &mut KeptClock, info: &ClaxonInfo)
    ensures starts_right { StartsRightOf (known_info info.now) (kept_clock clock.new) }
{
    let begun = Clock::new(info.known_stream());
    *clock = KeptClock::new(begun);
}

/// Finds the sample of each channel at which the block of the frame begins. 1 if it is known, else 0.
#[unsafe(no_mangle)]
pub extern "C" fn claxon_clock_time(clock: &KeptClock, frame: &ClaxonFrame, time: &mut u64) -> u32
    ensures is_exact { CTimeIsExact (kept_clock clock.now) frame.now result time.new }
    ensures is_known { CTimeIsKnown (kept_clock clock.now) frame.now result time.new }
    ensures is_in_order { CTimeIsInOrder (kept_clock clock.now) frame.now result time.new }
    ensures is_kept { CTimeIsKept result time.old time.new }
{
    let told = clock.clock();
    let said = frame.said();
    match told.time(frame.position, &said) {
        Some(found) => {
            *time = found;
            1
        }
        None => 0,
    }
}

/// Notes a frame that was decoded.
#[unsafe(no_mangle)]
pub extern "C" fn claxon_clock_note(clock: &mut KeptClock, frame: &ClaxonFrame)
    ensures keeps_right { CNoteKeepsRight frame.now (kept_clock clock.old)
        (kept_clock clock.new) }
    ensures keeps_order { CNoteKeepsOrder frame.now (kept_clock clock.old)
        (kept_clock clock.new) }
    ensures knows_unit { CNoteKnowsUnit frame.now (kept_clock clock.old)
        (kept_clock clock.new) }
    ensures knows_variable { CNoteKnowsVariable frame.now (kept_clock clock.new) }
{
    let mut told = clock.clock();
    let said = frame.said();
    told.note(frame.position, frame.end, &said);
    *clock = KeptClock::new(told);
}

/// Finds the sample to show as the first of the frame's block, whose header says that it is `time`: that stays where the streaminfo
/// has one block size, or the clock doesn't know better. Then the frame is noted.
#[unsafe(no_mangle)]
pub extern "C" fn claxon_clock_show(
    clock: &mut KeptClock,
    info: &ClaxonInfo,
    frame: &ClaxonFrame,
    time: &mut u64,
)
    ensures is_shown { CTimeIsShown info.now (kept_clock clock.old) frame.now time.old time.new }
    ensures keeps_right { CNoteKeepsRight frame.now (kept_clock clock.old)
        (kept_clock clock.new) }
    ensures keeps_order { CNoteKeepsOrder frame.now (kept_clock clock.old)
        (kept_clock clock.new) }
    ensures knows_unit { CNoteKnowsUnit frame.now (kept_clock clock.old)
        (kept_clock clock.new) }
    ensures knows_variable { CNoteKnowsVariable frame.now (kept_clock clock.new) }
{
    let told = clock.clock();
    let said = frame.said();
    *time = told.shown_time(info.known_stream(), frame.position, &said, *time);
    claxon_clock_note(clock, frame);
}

/// Whether it isn't known what the coded numbers count. 1 if so, else 0.
#[unsafe(no_mangle)]
pub extern "C" fn claxon_clock_needs_frames(clock: &KeptClock) -> u32
    ensures needs_frames { CNeedsFrames (kept_clock clock.now) result }
{
    if clock.clock().needs_frames() { 1 } else { 0 }
}
