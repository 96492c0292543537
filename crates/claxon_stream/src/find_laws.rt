//! Laws of what a search for a frame answers, as contracts of functions without code.
ghost use Rattle.claxon_stream.specs.FindLaws.{
  FindCutsDontMatter,
  FindIsFirst,
  FindsAreFindFrames,
  OneFind,
};

/// From a position of a stream on there is one answer, and one position after it.
pub fn one_find()
    ensures one_find { OneFind }
{}

/// The answers of calls, one after another, are the same over any cutting of the stream into pieces, but for `ReadOn`.
pub fn find_cuts_dont_matter()
    ensures find_cuts_dont_matter { FindCutsDontMatter }
{}

/// The frame that is found is the first one, and where none is found there is none, unless a header was passed over.
pub fn find_is_first()
    ensures find_is_first { FindIsFirst }
{}

/// An answer is that of `claxon_seek::find_frame` over all bytes of the stream from the position on, with the same budget.
pub fn finds_are_find_frames()
    ensures finds_are_find_frames { FindsAreFindFrames }
{}
