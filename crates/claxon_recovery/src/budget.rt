//! How much work may lead to no frame. The counts are private to this module, so that nothing else can move them.
ghost use Rattle.std.specs.Prelude.{◌≡◌, ◌*◌, ◌≤◌, length};
ghost use Rattle.claxon_seek.specs.AtStart.{said_by};
ghost use Rattle.claxon_recovery.specs.AtStart.{EndsEarly};
ghost use Rattle.claxon_recovery.specs.Kept.{most_kept};

use claxon::frame::BlockInfo;
use claxon::metadata::StreamInfo;
use claxon_seek::HeaderInBytes;

// How much work that led to no frame, in samples and bytes, is allowed before headers are passed unsearched.
const MAX_WASTED: u64 = 1 << 25;

// How much of it each byte that is passed makes good, so that the time is linear in the bytes. By chance a header with its CRC-8
// stands at one place of 2^24, which takes less than 1 for each byte.
const MADE_GOOD_BY_A_BYTE: u64 = 4;

// The work that led to no frame, and the positions that weren't searched.
#[derive(Drop)]
pub(crate) struct Budget {
    // What wasn't made good yet.
    wasted: u64,
    // Modulo 2^64.
    unsearched: u64,
}

impl Budget {
    ghost use Rattle.claxon_recovery.specs.Budget.{
      CountsUnsearched,
      RequestIsAnswered,
      block_samples,
      charged_for,
      made_good,
      unsearched_positions,
      wasted_work,
    };

    // No work was in vain.
    pub(crate) fn new() -> Budget
        ensures wasted { wasted_work result ≡ 0 }
    {
        Budget {
            wasted: 0,
            unsearched: 0,
        }
    }

    // Whether the frame with this header may be tried. The position is counted as unsearched if not.
    pub(crate) fn request(&mut self, header: HeaderInBytes) -> bool
        ensures is_answered { RequestIsAnswered (block_samples (said_by header)) result self.old self.new }
    {
        let samples = samples_of(&header.info());
        let suffices = samples <= MAX_WASTED.saturating_sub(self.wasted);
        if !suffices {
            self.unsearched = self.unsearched.wrapping_add(1);
        }
        suffices
    }

    // The frame with this header was tried in vain, in so many bytes.
    pub(crate) fn charge(&mut self, header: HeaderInBytes, len: usize)
        ensures wasted { wasted_work self.new ≡ charged_for (block_samples (said_by header)) len
            (wasted_work self.old) }
        ensures unsearched { unsearched_positions self.new ≡ unsearched_positions self.old }
    {
        let samples = samples_of(&header.info());
        self.wasted = self
            .wasted
            .saturating_add(samples)
            .saturating_add(len as u64);
    }

    // The bytes are as many as are kept, and end within what may be a frame: the position is counted as unsearched.
    pub(crate) fn pass_long(&mut self, bytes: &[u8], known: Option<StreamInfo>)
        requires { EndsEarly known bytes.now × (most_kept known ≤ length bytes.now) }
        ensures wasted { wasted_work self.new ≡ wasted_work self.old }
        ensures unsearched { CountsUnsearched 1 self.old self.new }
    {
        self.unsearched = self.unsearched.wrapping_add(1);
    }

    // So many bytes were passed.
    pub(crate) fn make_good(&mut self, count: usize)
        ensures wasted { wasted_work self.new ≡ made_good count (wasted_work self.old) }
        ensures unsearched { unsearched_positions self.new ≡ unsearched_positions self.old }
    {
        let good = (count as u64).saturating_mul(MADE_GOOD_BY_A_BYTE);
        self.wasted = self.wasted.saturating_sub(good);
    }
}

// The samples of all channels of a block.
fn samples_of(block: &BlockInfo) -> u64
    ensures { result ≡ block.now.channels * block.now.duration }
{
    u64::from(block.channels) * u64::from(block.duration)
}
