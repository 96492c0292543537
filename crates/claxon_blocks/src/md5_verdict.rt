//! What became of the MD5 sum of a stream (RFC 9639, section 8.2).
ghost use Rattle.claxon.specs.MetadataBlock.{info_view};
ghost use Rattle.claxon_blocks.specs.Md5Verdict.{Md5IsJudged, Md5IsShown};

use claxon::metadata::StreamInfo;
use claxon_md5::Md5;

/// What became of the MD5 sum of the samples.
#[derive(Clone, Copy, Debug)]
pub enum Md5Verdict {
    /// It wasn't computed.
    NotComputed,
    /// The streaminfo has none.
    Missing,
    /// It is that of the streaminfo.
    Right,
    /// It is another one.
    Wrong,
}

/// What became of the MD5 sum of the samples that were hashed.
pub fn judge_md5(info: &StreamInfo, md5: Option<Md5>) -> Md5Verdict
    ensures md5_is_judged { Md5IsJudged (info_view info.now) md5 result }
{
    let Some(md5) = md5 else {
        return Md5Verdict::NotComputed;
    };
    if info.md5sum == [0; 16] {
        return Md5Verdict::Missing;
    }
    if info.md5sum == md5.finish() {
        Md5Verdict::Right
    } else {
        Md5Verdict::Wrong
    }
}

/// The MD5 sum of the samples that were hashed.
pub fn computed_md5(md5: Option<Md5>) -> Option<[u8; 16]>
    ensures md5_is_shown { Md5IsShown md5 result }
{
    match md5 {
        Some(md5) => Some(md5.finish()),
        None => None,
    }
}
