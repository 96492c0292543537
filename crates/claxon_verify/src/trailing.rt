//! What stands after the last frame.
ghost use Rattle.std.specs.Prelude.{◌≡◌, ◌↔◌, ◌<◌, IsTrue, List, ℕ, [], ◌∷◌, length};
ghost use Rattle.claxon.specs.Bits.{bits_of};
ghost use Rattle.claxon.specs.Error.{IsFault};
ghost use Rattle.claxon.specs.Fault.{SyncMissing};
ghost use Rattle.claxon_blocks.specs.FirstBytes.{kept_of};
ghost use Rattle.claxon_verify.specs.Trailing.{
  AreBytes,
  IsApe,
  IsId3v1,
  IsOfTail,
  IsSecondStream,
  KeepsAFrame,
  KeepsAll,
  KeepsMore,
  KeepsTwo,
  TellsKind,
};
ghost use Rattle.claxon_verify.specs.Walk.{IsFailedRead};

use claxon::Error;
use claxon::fault_texts::SYNC_CODE_MISSING;
use claxon_blocks::frames::FirstBytes;
use claxon_report::Trailing;
use std::io::ErrorKind;

/// What is kept of bytes that are no frame: the first eight, or those up to a byte of 0xff and any after it; and whether each
/// is 0.
#[derive(Clone, Copy, Debug)]
pub struct BytesAfter {
    first: [u8; 8],
    seen: usize,
    are_zeros: bool,
}

impl BytesAfter {
    /// No bytes.
    pub fn new() -> BytesAfter
        ensures { IsOfTail [] result }
    {
        BytesAfter {
            first: [0; 8],
            seen: 0,
            are_zeros: true,
        }
    }

    /// More bytes, after the others: the first of them, and whether each is 0.
    pub fn with_bytes(self, more: FirstBytes, are_zeros: bool) -> BytesAfter
        ensures { KeepsAll more are_zeros self result }
    {
        let first = more.as_slice();
        let mut after = self;
        for byte in first {
            after = after.with_byte(*byte);
        }
        BytesAfter {
            are_zeros: both(after.are_zeros, are_zeros),
            ..after
        }
    }

    /// Two bytes more, after the others: the first of these; or those of a frame, if there are fewer.
    pub fn with_two(self, first: FirstBytes) -> BytesAfter
        ensures two { KeepsTwo first self result }
        ensures fewer { length (kept_of first) < 2 → KeepsAFrame self result }
    {
        match first.as_slice() {
            [a, b, ..] => self.with_both(*a, *b),
            _ => self.with_frame(),
        }
    }

    // Both bytes more, after the others.
    fn with_both(self, a: u8, b: u8) -> BytesAfter
        ensures { (more : List ℕ) → AreBytes more → bits_of (a ∷ b ∷ []) ≡ bits_of more
            → KeepsMore more self result }
    {
        self.with_byte(a).with_byte(b)
    }

    /// A frame, after the others. Its first byte is 0xff.
    pub fn with_frame(self) -> BytesAfter
        ensures { KeepsAFrame self result }
    {
        self.with_byte(0xff)
    }

    /// One byte more, after the others.
    pub fn with_byte(self, byte: u8) -> BytesAfter
        ensures { KeepsMore (byte ∷ []) self result }
    {
        let are_zeros = both(self.are_zeros, byte == 0);
        if self.seen >= 8 {
            return BytesAfter { are_zeros, ..self };
        }
        let mut first = self.first;
        first[self.seen] = byte;
        BytesAfter {
            first,
            seen: self.seen + 1,
            are_zeros,
        }
    }

    /// What so many bytes are, of which these are the first.
    pub fn kind(self, count: u64) -> Trailing
        ensures { TellsKind count self result }
    {
        let first = &self.first[..self.seen.min(8)];
        if is_id3v1(first, count) {
            Trailing::Id3v1
        } else if is_ape(first) {
            Trailing::Ape
        } else if is_second_stream(first) {
            Trailing::SecondStream
        } else if self.are_zeros {
            Trailing::Zeros
        } else {
            Trailing::Other
        }
    }
}

fn both(a: bool, b: bool) -> bool
    ensures { IsTrue result ↔ (IsTrue a × IsTrue b) }
{
    a && b
}

// Whether so many bytes, of which these are the first, are an ID3v1 tag.
fn is_id3v1(first: &[u8], count: u64) -> bool
    ensures { IsTrue result ↔ IsId3v1 count first.now }
{
    count == 128 && first.starts_with(b"TAG")
}

// Whether bytes of which these are the first are an APE tag.
fn is_ape(first: &[u8]) -> bool
    ensures { IsTrue result ↔ IsApe first.now }
{
    first.starts_with(b"APETAGEX")
}

// Whether bytes of which these are the first are a second stream.
fn is_second_stream(first: &[u8]) -> bool
    ensures { IsTrue result ↔ IsSecondStream first.now }
{
    first.starts_with(b"fLaC\0\0\0\x22") || first.starts_with(b"fLaC\x80\0\0\x22")
}

/// Whether the error is that of a failed read, and not of the bytes.
pub(crate) fn is_failed_read(error: &Error) -> bool
    ensures { IsTrue result ↔ IsFailedRead error.now }
{
    match error {
        Error::IoError(cause) => cause.kind() != ErrorKind::UnexpectedEof,
        _ => false,
    }
}

/// Whether no frame begins there, as far as its first two bytes tell.
#[tactic(auto, unfolding(claxon_format::specs::Fault::fault_text))]
pub(crate) fn is_no_sync_code(error: &Error) -> bool
    ensures { IsTrue result ↔ IsFault SyncMissing error.now }
{
    matches!(error, Error::FormatError(SYNC_CODE_MISSING))
}
