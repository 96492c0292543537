//! Where the frames of a damaged stream stand in time.
ghost use Rattle.std.specs.Prelude.{◌≡◌, ◌+◌, ◌<◌, ◌^◌};
ghost use Rattle.claxon.specs.DecodedFrame.{decoded_view};
ghost use Rattle.claxon.specs.Streams.{duration_of};

use crate::losses::{LossKind, LostRange};
use claxon::frame::BlockInfo;
use claxon::metadata::StreamInfo;
use claxon_recovery::FrameThere;

/// What decides where frames stand, and what is written where samples are lost.
#[derive(Clone, Copy)]
pub(crate) struct Rules {
    /// The streaminfo.
    pub info: StreamInfo,
    /// The number of samples that the stream may have.
    pub limit: u64,
    /// Whether silence is written where samples are lost.
    pub fills_gaps: bool,
}

/// What is due after the frames that were written.
#[derive(Clone, Copy)]
pub(crate) struct Due {
    /// The coded number of the next frame, modulo 2^64.
    pub number: u64,
    /// The number of its first sample.
    pub sample: u64,
    /// The position of its first byte.
    pub byte: u64,
}

impl Due {
    ghost use Rattle.std.specs.List.{count_by};
    ghost use Rattle.claxon_rescue.specs.Times.{
      IsGapAmong,
      IsGapBefore,
      begins_after,
      begins_before,
      due_after,
      first_due,
      frame_time,
      left_out,
      time_below,
    };

    /// The first frame is due at this position.
    pub fn new(byte: u64) -> Due
        ensures { result ≡ first_due byte }
    {
        Due {
            number: 0,
            sample: 0,
            byte,
        }
    }

    /// How many samples are lost before a frame which these frames come after; None if it isn't written: it isn't in order, or
    /// it begins later than what is due, and more of the others begin before it than after it.
    pub fn gap_among(self, rules: &Rules, there: &FrameThere, ahead: &[FrameThere]) -> Option<u64>
        ensures is_gap_among { IsGapAmong rules.now self there.now ahead.now result }
    {
        let gap = self.gap_before(rules, there)?;
        let sample = self.sample + gap;
        if gap > 0
            && self.count_before(rules, sample, ahead) > self.count_after(rules, sample, ahead)
        {
            return None;
        }
        Some(gap)
    }

    // How many frames begin before this sample, and not before what is due.
    fn count_before(self, rules: &Rules, sample: u64, ahead: &[FrameThere]) -> usize
        ensures { result ≡ count_by (begins_before rules.now self sample) ahead.now }
    {
        let mut count = 0;
        for i in 0..ahead.len() {
            if self.begins_before(rules, sample, &ahead[i]) {
                count += 1;
            }
        }
        count
    }

    // How many frames begin after this sample, and end within the limit.
    fn count_after(self, rules: &Rules, sample: u64, ahead: &[FrameThere]) -> usize
        ensures { result ≡ count_by (begins_after rules.now self sample) ahead.now }
    {
        let mut count = 0;
        for i in 0..ahead.len() {
            if self.begins_after(rules, sample, &ahead[i]) {
                count += 1;
            }
        }
        count
    }

    fn begins_before(self, rules: &Rules, sample: u64, there: &FrameThere) -> bool
        ensures { result ≡ begins_before rules.now self sample there.now }
    {
        match self.time(rules, &there.frame.info) {
            Some(time) => self.sample <= time && time < sample,
            None => false,
        }
    }

    fn begins_after(self, rules: &Rules, sample: u64, there: &FrameThere) -> bool
        ensures { result ≡ begins_after rules.now self sample there.now }
    {
        let limit = rules.limit;
        let duration = u64::from(there.frame.block.duration());
        match self.time(rules, &there.frame.info) {
            Some(time) => sample < time && duration <= limit && time <= limit - duration,
            None => false,
        }
    }

    // How many samples are lost before a frame; None if it isn't in order: it begins before the samples so far end, or it begins
    // later and ends after the limit.
    fn gap_before(self, rules: &Rules, there: &FrameThere) -> Option<u64>
        ensures is_gap_before { IsGapBefore rules.now self (decoded_view there.now.frame) result }
    {
        let time = self.time(rules, &there.frame.info)?;
        let gap = time.checked_sub(self.sample)?;
        let end = time.checked_add(u64::from(there.frame.block.duration()))?;
        if gap > 0 && end > rules.limit {
            return None;
        }
        Some(gap)
    }

    // The number of a frame's first sample, if it is below 2^64.
    fn time(self, rules: &Rules, header: &BlockInfo) -> Option<u64>
        ensures { result ≡ time_below (frame_time rules.now self header.now) }
    {
        if header.number == self.number {
            return Some(self.sample);
        }
        if header.is_variable {
            return Some(header.number);
        }
        header
            .number
            .checked_mul(u64::from(rules.info.max_block_size))
    }

    /// What is due after this frame, before which so many samples are lost.
    pub fn after(self, gap: u64, there: &FrameThere) -> Due
        requires { self.sample + gap + duration_of there.now.frame.block.channels < 2 ^ 64 }
        ensures { result ≡ due_after self gap there.now }
    {
        let header = &there.frame.info;
        let duration = u64::from(there.frame.block.duration());
        let step = if header.is_variable { duration } else { 1 };
        Due {
            number: header.number.wrapping_add(step),
            sample: self.sample + gap + duration,
            byte: there.end,
        }
    }

    /// The range of a frame that isn't written.
    pub fn left_out(self, rules: &Rules, there: &FrameThere) -> LostRange
        ensures { result ≡ left_out rules.now self there.now }
    {
        let start_sample = self.time(rules, &there.frame.info).unwrap_or(u64::MAX);
        let duration = u64::from(there.frame.block.duration());
        LostRange {
            kind: LossKind::LeftOut,
            start_sample,
            end_sample: start_sample.saturating_add(duration),
            start_byte: there.start,
            end_byte: there.end,
        }
    }
}
