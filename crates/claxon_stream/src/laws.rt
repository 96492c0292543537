//! Laws of what is answered, as contracts of functions without code.
ghost use Rattle.claxon_stream.specs.Laws.{
  AnswersAreDecoders,
  CutsDontMatter,
  FramesEndAtZero,
  OneAnswer,
};

/// At a position of a stream there is one answer, and one position after it.
pub fn one_answer()
    ensures one_answer { OneAnswer }
{}

/// The answers of calls, one after another, are the same over any cutting of the stream into pieces, but for `ReadOn`.
pub fn cuts_dont_matter()
    ensures cuts_dont_matter { CutsDontMatter }
{}

/// An answer is that of `FrameReader::read_next_or_eof` over all bytes of the stream from the position on.
pub fn answers_are_decoders()
    ensures answers_are_decoders { AnswersAreDecoders }
{}

/// A frame ends only where the CRC-16 of its bytes is 0 (RFC 9639, section 9.3).
///
/// So no try to decode it is needed elsewhere.
pub fn frames_end_at_zero()
    ensures frames_end_at_zero { FramesEndAtZero }
{}
