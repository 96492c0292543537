//! Laws of the parts of whole streams, as contracts of functions without code.
ghost use Rattle.claxon_recovery.specs.Runs.{FramesAlone, OneRun, PartsJoin};

/// The parts of a stream are determined by its bytes, where each position of damage was searched.
pub fn one_run()
    ensures one_run { OneRun }
{}

/// A stream of frames alone, none longer than what is kept, has just these frames as parts.
pub fn frames_alone()
    ensures frames_alone { FramesAlone }
{}

/// The parts of a stream join without a gap, from the first position to the end.
pub fn parts_join()
    ensures parts_join { PartsJoin }
{}
