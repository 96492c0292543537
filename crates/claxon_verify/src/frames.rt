//! Frames that are verified alone, as those of a stream whose head can't be read.
ghost use Rattle.claxon.specs.ShownHead.{HasBitDepth};
ghost use Rattle.claxon.specs.State.{bytes_in};
ghost use Rattle.claxon_verify.specs.FramesAlone.{
  FramesFaultIsSound,
  FramesReportIsSound,
  FramesTrailingIsTold,
};
ghost use Rattle.claxon_verify.specs.Verify.{KeepsAtMost, VerifyIsQuiet};

use crate::parts::walk_parts;
use crate::report_of;
use claxon::Result;
use claxon::input::ReadBytes;
use claxon::metadata::StreamInfo;
use claxon_command_line::progress::Progress;
use claxon_recovery::Parts;
use claxon_report::Report;
use std::alloc::Global;
use std::io::Write;

/// Verifies the frames of a stream whose head can't be read, by its parts as `verify_parts` does: from the first byte on, as
/// frames of a stream with this streaminfo, of which the number of samples and the MD5 sum aren't used. What stands before the
/// first frame, as the head, is damage. The stream isn't right, whatever is found.
///
/// # Errors
///
/// Those of `Parts::new` and `Parts::next_part`; `Unsupported` if there are 2^64 samples or more, or 2^64 - 1 parts or more.
pub fn verify_frames<R: ReadBytes, E: Write>(
    alloc: Global,
    input: &mut R,
    info: StreamInfo,
    more: usize,
    progress: &mut Progress<'_, '_, E>,
) -> Result<Report>
    requires has_bit_depth { HasBitDepth info }
    ensures is_sound { FramesReportIsSound info (bytes_in R.source input.old) result }
    ensures fault_is_sound { FramesFaultIsSound info (bytes_in R.source input.old) result
        (bytes_in R.source input.new) }
    ensures trailing_is_told { FramesTrailingIsTold info (bytes_in R.source input.old) result }
    ensures keeps_at_most { KeepsAtMost more result }
    ensures is_quiet { VerifyIsQuiet result progress.old progress.new }
{
    let info = StreamInfo {
        samples: None,
        ..info
    };
    let start = 0;
    progress.start(info.samples);
    let mut parts = Parts::new(alloc, input, Some(info), start)?;
    let walked = walk_parts(alloc, &mut parts, info, start, false, more, progress);
    // So it is known what was read of the input, and whether a read failed.
    parts.into_source();
    Ok(Report {
        is_right: false,
        ..report_of(info, None, walked?)
    })
}
