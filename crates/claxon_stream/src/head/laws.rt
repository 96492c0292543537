//! Laws of what is answered in a head, as contracts of functions without code.
ghost use Rattle.claxon_stream.specs.HeadLaws.{
  HeadAnswersAreComplete,
  HeadAnswersAreReadHeads,
  HeadAnswersAreReading,
  HeadCutsDontMatter,
  OneHeadAnswer,
};

/// At a decoder's position of a stream there is one answer, and one state of the decoder after it.
pub fn one_head_answer()
    ensures one_head_answer { OneHeadAnswer }
{}

/// The answers of calls, one after another, are the same over any cutting of the stream into pieces, but for `ReadOn`.
pub fn head_cuts_dont_matter()
    ensures head_cuts_dont_matter { HeadCutsDontMatter }
{}

/// What the bytes begin with is answered: a part, a fault, or that they are too few.
pub fn head_answers_are_complete()
    ensures head_answers_are_complete { HeadAnswersAreComplete }
{}

/// The answers, one after another, say what the format's reader of heads gives of all bytes.
pub fn head_answers_are_reading()
    ensures head_answers_are_reading { HeadAnswersAreReading }
{}

/// They say what `read_head` returns.
pub fn head_answers_are_read_heads()
    ensures head_answers_are_read_heads { HeadAnswersAreReadHeads }
{}
