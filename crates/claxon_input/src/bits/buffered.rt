//! Buffered bits: those that a `Bitstream` has without asking its source, which are read without being consumed.
ghost use Rattle.std.specs.Prelude.{
  ◌≡◌,
  ◌+◌,
  ◌*◌,
  ◌-◌,
  ◌%◌,
  ◌^◌,
  ◌<◌,
  ◌≤◌,
  ◌++◌,
  IfSome,
  length,
  take,
  drop,
};
ghost use Rattle.claxon_format.specs.Bits.{bits, bits_of};
ghost use Rattle.claxon_format.specs.read.Bits.{number_at, unary_at};

/// Buffered bits, the first ones in the cache and the others in whole bytes.
///
/// Whoever has read some of them tells the `Bitstream` how many, by `skip_bits`. No call can fail, so Rice codes of a few bits
/// are read at low cost.
#[derive(Clone, Copy)]
pub struct BufferedBits<'a> {
    bytes: &'a [u8],

    /// The index of the first byte that isn't in the cache.
    at: usize,

    /// The bits before it, in the high places, and zeros below.
    cache: u64,

    /// How many those are.
    count: u32,
    ghost within: { at ≤ length bytes.now },
    ghost few_bytes: { length bytes.now ≤ 65536 },
    ghost few: { count < 64 },
    ghost fits: { cache % 2 ^ (64 - count) ≡ 0 },
}

impl BufferedBits<'_> {
    ghost use Rattle.claxon_input.specs.BufferedBits.{
      GivesBufferedOrNone,
      PeeksBits,
      bits_in_buffer,
      in_cache,
    };

    // The `count` low bits of the cache, and then those of the first 65536 bytes.
    #[inline(always)]
    pub(super) fn new(cache: u64, count: u32, bytes: &[u8]) -> BufferedBits<'_>
        requires few { count < 8 }
        requires fits { cache < 2 ^ count }
        ensures { bits_in_buffer result ≡ bits count cache ++ bits_of (take 65536 bytes.now) }
    {
        let most = bytes.len().min(65536);
        BufferedBits {
            bytes: &bytes[..most],
            at: 0,
            cache: (cache << (63 - count)) << 1,
            count,
        }
    }

    /// How many bits are left.
    pub fn len(&self) -> u32
        ensures value { result ≡ length (bits_in_buffer self.now) }
    {
        self.count + (self.bytes.len() - self.at) as u32 * 8
    }

    // Puts four more bytes into the cache, where it has fewer bits than these and four bytes are left.
    #[inline(always)]
    fn fill(&mut self, bits: u32)
        requires { bits ≤ 32 }
        ensures { bits_in_buffer self.new ≡ bits_in_buffer self.old }
    {
        if self.count >= bits || self.bytes.len() - self.at < 4 {
            return;
        }
        let bytes = (four_bytes(self.bytes, self.at) as u64) << 32;
        self.cache |= bytes >> self.count;
        self.count += 32;
        self.at += 4;
    }

    /// The number of zeros before the next one bit, where the cache has it once it is refilled. That bit is consumed too.
    #[inline(always)]
    pub fn unary(&mut self) -> Option<u32>
        ensures gives_buffered_or_none { GivesBufferedOrNone unary_at self.old result self.new }
    {
        self.fill(32);
        if self.cache == 0 {
            return None;
        }
        let zeros = self.cache.leading_zeros();
        self.consume(zeros + 1);
        Some(zeros)
    }

    /// A number of at most 32 bits, where they are buffered.
    #[inline(always)]
    pub fn number(&mut self, bits: u32) -> Option<u32>
        requires { bits ≤ 32 }
        ensures gives_buffered_or_none { GivesBufferedOrNone (number_at bits) self.old result
            self.new }
    {
        self.fill(bits);
        if self.count < bits {
            return None;
        }
        let number = (self.cache >> 1) >> (63 - bits);
        self.consume(bits);
        Some(number as u32)
    }

    /// The next 64 bits, where the cache and the eight bytes after it have them. None of them is consumed: `consume` consumes the
    /// first ones, up to 56.
    #[inline(always)]
    pub fn peek(&mut self) -> Option<u64>
        ensures same { bits_in_buffer self.new ≡ bits_in_buffer self.old }
        ensures some { IfSome result (λ peek. PeeksBits peek self.new) }
    {
        if self.bytes.len() - self.at < 8 {
            return None;
        }
        let peek = self.cache | eight_bytes(self.bytes, self.at) >> self.count;
        let kept = self.count % 8;
        self.at += ((56 - (self.count - kept)) / 8) as usize;
        self.cache = peek - (peek & ((1 << (8 - kept)) - 1));
        self.count = 56 + kept;
        Some(peek)
    }

    /// Consumes this many bits, which the cache has.
    #[inline(always)]
    pub fn consume(&mut self, bits: u32)
        requires { bits ≤ in_cache self.now }
        ensures { bits_in_buffer self.new ≡ drop bits (bits_in_buffer self.old) }
    {
        self.cache <<= bits;
        self.count -= bits;
    }
}

// Four bytes as a big-endian number.
#[inline(always)]
fn four_bytes(bytes: &[u8], at: usize) -> u32
    requires { at + 4 ≤ length bytes.now }
    ensures { bits 32 result ≡ bits_of (take 4 (drop at bytes.now)) }
{
    u32::from_be_bytes([bytes[at], bytes[at + 1], bytes[at + 2], bytes[at + 3]])
}

// Eight bytes as a big-endian number.
#[inline(always)]
fn eight_bytes(bytes: &[u8], at: usize) -> u64
    requires { at + 8 ≤ length bytes.now }
    ensures { bits 64 result ≡ bits_of (take 8 (drop at bytes.now)) }
{
    u64::from_be_bytes([
        bytes[at],
        bytes[at + 1],
        bytes[at + 2],
        bytes[at + 3],
        bytes[at + 4],
        bytes[at + 5],
        bytes[at + 6],
        bytes[at + 7],
    ])
}
