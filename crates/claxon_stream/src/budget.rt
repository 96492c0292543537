//! How much work may lead to no frame.
ghost use Rattle.std.specs.Prelude.{◌≡◌, ◌↔◌, ◌-◌, ◌*◌, ◌≤◌, IsTrue, max};
ghost use Rattle.claxon_stream.specs.Budget.{cost_of_try};

// How much work that led to no frame, in bytes and samples, is allowed: of a decoder before it makes no tries where the CRC-16 is 0, of
// a search before it passes headers over.
const MAX_WASTED: u64 = 1 << 26;

// How much of it each byte makes good that a search passes, so that the time is linear. A damaged frame takes its bytes and its samples,
// which is 2 to 3 for each byte of music. By chance a header with its CRC-8 stands at one place of 2^24, which takes less than 1. So what
// passes the budget was made to cost time, or is very much silence, with damage in each of its frames.
const MADE_GOOD_BY_A_BYTE: u64 = 4;

// How much a try in vain is charged at least, where the CRC-16 is 0: half of the bytes that the largest frame has, of eight channels of
// 65,535 samples of 32 bits. So 64 tries are allowed, whatever they take. What has more bytes is charged those above this number.
const COST_OF_A_TRY: u64 = 1 << 20;

// How much of tries each byte makes good that is handed in: three tries for 131,072 bytes. By chance the CRC-16 is 0 at one place of
// 65,536, which is two. That 64 tries more than are made good come so has a chance of less than 2^-64.
const TRIES_MADE_GOOD_BY_A_BYTE: u64 = 24;

/// The work that led to no frame.
#[repr(C)]
#[derive(Clone, Copy, Debug)]
pub struct Budget {
    // What wasn't made good yet.
    wasted: u64,
    // The position in the stream after the last byte that was counted.
    seen: u64,
}

impl Budget {
    ghost use Rattle.claxon_stream.specs.Budget.{
      IsSpent,
      charged,
      counted_position,
      made_good,
      tries_made_good,
      wasted_work,
      work_left,
    };

    /// No work was in vain, and bytes are counted from this position on.
    pub fn new(position: u64) -> Budget
        ensures wasted { wasted_work result ≡ 0 }
        ensures counted { counted_position result ≡ position }
    {
        Budget {
            wasted: 0,
            seen: position,
        }
    }

    /// Whether no more work in vain is allowed.
    pub fn is_spent(&self) -> bool
        ensures { IsTrue result ↔ IsSpent self.now }
    {
        self.wasted > MAX_WASTED
    }

    /// Whether it suffices for so much more work.
    pub fn suffices_for(&self, work: u64) -> bool
        ensures { IsTrue result ↔ (work ≤ work_left (wasted_work self.now)) }
    {
        work <= MAX_WASTED.saturating_sub(self.wasted)
    }

    /// The same, where the bytes from this position on weren't counted yet.
    pub fn counted_from(self, position: u64) -> Budget
        ensures wasted { wasted_work result ≡ wasted_work self }
        ensures counted { counted_position result ≡ position }
    {
        Budget {
            wasted: self.wasted,
            seen: position,
        }
    }

    /// Bytes up to this position were passed by a search.
    pub fn make_good(&mut self, end: u64)
        ensures wasted { wasted_work self.new
            ≡ made_good (wasted_work self.old) (end - counted_position self.old) }
        ensures counted { counted_position self.new ≡ max (counted_position self.old) end }
    {
        self.count_up_to(end, MADE_GOOD_BY_A_BYTE);
    }

    /// Bytes up to this position were handed in to a decoder.
    pub fn make_tries_good(&mut self, end: u64)
        ensures wasted { wasted_work self.new
            ≡ tries_made_good (wasted_work self.old) (end - counted_position self.old) }
        ensures counted { counted_position self.new ≡ max (counted_position self.old) end }
    {
        self.count_up_to(end, TRIES_MADE_GOOD_BY_A_BYTE);
    }

    // Each byte up to this position that wasn't counted yet makes so much good.
    fn count_up_to(&mut self, end: u64, by_a_byte: u64)
        ensures wasted { wasted_work self.new
            ≡ wasted_work self.old - by_a_byte * (end - counted_position self.old) }
        ensures counted { counted_position self.new ≡ max (counted_position self.old) end }
    {
        let bytes = end.saturating_sub(self.seen);
        let good = bytes.saturating_mul(by_a_byte);
        self.wasted = self.wasted.saturating_sub(good);
        self.seen = self.seen.max(end);
    }

    /// So many bytes and samples were tried in vain.
    pub fn charge(&mut self, work: u64)
        ensures wasted { wasted_work self.new ≡ charged (wasted_work self.old) work }
        ensures counted { counted_position self.new ≡ counted_position self.old }
    {
        self.wasted = self.wasted.saturating_add(work);
    }
}

// What a try of so many bytes is charged, where it was in vain.
pub(crate) fn cost_of_try(bytes: usize) -> u64
    ensures { result ≡ cost_of_try bytes }
{
    COST_OF_A_TRY.max((bytes as u64).saturating_sub(COST_OF_A_TRY))
}
