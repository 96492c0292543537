//! What is said of a file, and the exit status of a run.
ghost use Rattle.std.specs.Prelude.{◌≡◌, ◌↔◌, IsSome, IsTrue};
ghost use Rattle.claxon.specs.Error.{IsFault};
ghost use Rattle.claxon.specs.Fault.{Id3Header, SampleRate, SideTooWide};
ghost use Rattle.claxon_verdict.specs.Verdict.{
  ErrorVerdictIsSound,
  HasSoundFrames,
  IsUnread,
  IsUnsupportedFrame,
  IsUnsupportedHead,
  IsWorst,
  ReportVerdictIsSound,
  block_reason,
  outcome_of,
  status_of,
};

use claxon::Error;
use claxon::fault_texts::{ID3_HEADER, INVALID_SAMPLE_RATE, SIDE_TOO_WIDE};
use claxon::metadata::StreamInfo;
use claxon_blocks::frames::FrameError;
use claxon_heads::UnsupportedBlock;
use claxon_report::{Damage, Report, has_nothing_wrong};
use std::io::ErrorKind;

/// What is said of a file.
#[derive(Clone, Copy)]
pub enum Verdict {
    /// It is right.
    Right,
    /// It isn't right.
    Wrong,
    /// The format allows what it has, and the decoder refuses it: for this reason.
    NotSupported(&'static str),
    /// It can't be read, or memory was refused.
    NotRead,
}

impl Verdict {
    /// What is said of a stream with this report. If a read failed after damage was found, the stream is wrong.
    pub fn of_report(report: &Report) -> Verdict
        ensures is_sound { ReportVerdictIsSound report.now result }
    {
        if report.is_right {
            return Verdict::Right;
        }
        if let (Some(why), true) = (report.unsupported, has_sound_frames(report)) {
            return Verdict::NotSupported(block_reason(why));
        }
        let Some(first) = &report.found.places.first else {
            return Verdict::Wrong;
        };
        let Damage::Fault(fault) = &first.damage else {
            return Verdict::Wrong;
        };
        if is_unread(&fault.error) {
            return Verdict::NotRead;
        }
        if is_unsupported_frame(&report.info, fault) {
            return Verdict::NotSupported(frame_reason(fault));
        }
        Verdict::Wrong
    }

    /// What is said of a file that gave this error in place of a report.
    pub fn of_error(error: &Error) -> Verdict
        ensures is_sound { ErrorVerdictIsSound error.now result }
    {
        if is_unread(error) {
            return Verdict::NotRead;
        }
        match head_reason(error) {
            Some(reason) => Verdict::NotSupported(reason),
            None => Verdict::Wrong,
        }
    }

    /// What it adds to the exit status.
    pub fn outcome(self) -> Outcome
        ensures { result ≡ outcome_of self }
    {
        match self {
            Verdict::Right => Outcome::Right,
            Verdict::NotSupported(_) => Outcome::NotSupported,
            Verdict::Wrong | Verdict::NotRead => Outcome::Wrong,
        }
    }
}

/// A file whose head is wrong, and its frames.
#[derive(Drop)]
pub struct WrongHead {
    /// What is wrong with the head.
    pub error: Error,
    /// What was found from the first byte on, by the format that a frame says.
    pub frames: Report,
}

// Whether nothing is wrong, but that some of the metadata may not be supported.
fn has_sound_frames(report: &Report) -> bool
    ensures { IsTrue result ↔ HasSoundFrames report.now }
{
    has_nothing_wrong(&report.found, report.info.samples, report.md5)
}

/// What isn't supported of a metadata block.
pub fn block_reason(why: UnsupportedBlock) -> &'static str
    ensures is_reason { result.now ≡ block_reason why }
{
    match why {
        UnsupportedBlock::SecondComments => "a second Vorbis comment block",
        UnsupportedBlock::NotUtf8 => "a tag or vendor string that isn't UTF-8",
        UnsupportedBlock::NoSeparator => "a tag without '='",
        UnsupportedBlock::FieldName => "a tag's name with a byte other than 0x20 to 0x7d",
        UnsupportedBlock::BytesLeft => "bytes after the last tag",
        UnsupportedBlock::LargeComments => "Vorbis comment blocks larger than 10 MiB",
        UnsupportedBlock::LargeApplication => "application blocks larger than 10 MiB",
    }
}

// Whether the error isn't one of the bytes of a file, but of reading them, or of memory.
fn is_unread(error: &Error) -> bool
    ensures { IsTrue result ↔ IsUnread error.now }
{
    match error {
        Error::FormatError(_) | Error::Unsupported(_) => false,
        Error::IoError(cause) => cause.kind() != ErrorKind::UnexpectedEof,
        Error::OutOfMemory => true,
    }
}

// Why a head isn't supported, where the format allows it.
fn head_reason(error: &Error) -> Option<&'static str>
    ensures { IsSome result ↔ IsUnsupportedHead error.now }
{
    if is_id3_tag(error) {
        return Some("an ID3v2 tag in front of the stream");
    }
    if is_other_rate(error) {
        return Some("a sample rate of 0 or above 655350 Hz");
    }
    match error {
        Error::Unsupported(feature) => Some(without_end(*feature)),
        _ => None,
    }
}

// Whether the error says that an ID3v2 tag is in front of the stream.
fn is_id3_tag(error: &Error) -> bool
    ensures { IsTrue result ↔ IsFault Id3Header error.now }
{
    matches!(error, Error::FormatError(ID3_HEADER))
}

// Whether the error says that the decoder refuses the sample rate of the streaminfo.
fn is_other_rate(error: &Error) -> bool
    ensures { IsTrue result ↔ IsFault SampleRate error.now }
{
    matches!(error, Error::FormatError(INVALID_SAMPLE_RATE))
}

// The name of a feature, of which the decoder says that it isn't supported.
fn without_end(feature: &'static str) -> &'static str {
    match feature.strip_suffix(" are not supported") {
        Some(name) => name,
        None => feature,
    }
}

// Whether the format allows a frame that isn't decoded, in a stream with this streaminfo.
fn is_unsupported_frame(info: &StreamInfo, fault: &FrameError) -> bool
    ensures { IsTrue result ↔ IsUnsupportedFrame info.now fault.now }
{
    info.bits_per_sample == 32 && (fault.is_32_bit || is_wide_side(&fault.error))
}

// Whether the error says of a frame that its side channel has 33 bits.
fn is_wide_side(error: &Error) -> bool
    ensures { IsTrue result ↔ IsFault SideTooWide error.now }
{
    matches!(error, Error::Unsupported(SIDE_TOO_WIDE))
}

fn frame_reason(fault: &FrameError) -> &'static str {
    if fault.is_32_bit {
        return "32-bit samples";
    }
    "side channels of 33 bits"
}

/// What became of a file, or of all files so far.
#[derive(Clone, Copy)]
pub enum Outcome {
    /// All are right.
    Right,
    /// One isn't supported, and none is wrong.
    NotSupported,
    /// One is wrong or can't be read.
    Wrong,
}

impl Outcome {
    /// The outcome of these files and of others.
    pub fn worst(self, other: Outcome) -> Outcome
        ensures is_worst { IsWorst self other result }
    {
        match (self, other) {
            (Outcome::Wrong, _) | (_, Outcome::Wrong) => Outcome::Wrong,
            (Outcome::NotSupported, _) | (_, Outcome::NotSupported) => Outcome::NotSupported,
            (Outcome::Right, Outcome::Right) => Outcome::Right,
        }
    }

    /// The exit status.
    pub fn status(self) -> u8
        ensures { result ≡ status_of self }
    {
        match self {
            Outcome::Right => 0,
            Outcome::Wrong => 1,
            Outcome::NotSupported => 3,
        }
    }
}
