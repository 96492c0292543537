//! Laws of what a seek answers, as contracts of functions without code.
ghost use Rattle.claxon_stream_seek.specs.SeekLaws.{NotFoundIsNone, SeeksAgree};

/// `NotFound` says that no frame from the first one on has the sample.
pub fn not_found_is_none()
    ensures not_found_is_none { NotFoundIsNone }
{}

/// Two answers of one stream agree that there is a frame with the sample, or none, or that the budget is spent.
pub fn seeks_agree()
    ensures seeks_agree { SeeksAgree }
{}
