//! What is printed of a file that was verified, as text.
ghost use Rattle.std.specs.Prelude.{◌≡◌, ◌↔◌, IsTrue};
ghost use Rattle.claxon.specs.Error.{IsFault};
ghost use Rattle.claxon.specs.Fault.{ShiftNegative, StreamMarker};
ghost use Rattle.claxon_verdict.specs.Verdict.{
  DamageTextIsSound,
  FrameErrorTextIsSound,
  FrameTextIsSound,
  HeadErrorTextIsSound,
  PlaceTextIsSound,
  but_text,
  gap_text,
  is_head,
  other_damage,
  size_note,
  trailing_name,
  trailing_text,
  unsupported_note,
  wide_text,
};
ghost use Rattle.claxon_command_line.specs.Text.{IsText};

use crate::verdict::{Verdict, WrongHead, block_reason};
use claxon::Error;
use claxon::metadata::StreamInfo;
use claxon_blocks::frames::{FrameError, UNSUPPORTED_32_BIT};
use claxon_blocks::md5_verdict::Md5Verdict;
use claxon_command_line::messages::{Part, error_text};
use claxon_command_line::text::count_text;
use claxon_heads::UnsupportedBlock;
use claxon_report::{BlockSizes, Damage, Found, Gap, Place, Places, Report, Trailing};
use std::alloc::{AllocError, Global};

// The decoder's text, which is that of claxon 0.4.3.
const NEGATIVE_SHIFT: &str =
    "a negative quantized linear predictor coefficient shift is not supported, please file a bug.";

/// What says the format of a stream, with which that of a frame is compared.
#[derive(Clone, Copy)]
pub enum SaidBy {
    /// The streaminfo.
    Streaminfo,
    /// The first frame that says it, as the head is wrong.
    FirstFrame,
}

/// The line of a file with a report, without its name. If it `is_brief` it has the first place, which else has its own line.
pub fn verdict_text(
    alloc: Global,
    report: &Report,
    verdict: Verdict,
    is_brief: bool,
) -> Result<String, AllocError> {
    match verdict {
        Verdict::Right => right_text(alloc, report),
        Verdict::NotSupported(reason) => format!(in alloc; "not supported, {reason}"),
        Verdict::Wrong | Verdict::NotRead => wrong_text(alloc, report, is_brief),
    }
}

/// The line of a file whose head is refused, without its name.
pub fn head_text(alloc: Global, error: &Error, verdict: Verdict) -> Result<String, AllocError> {
    if let Verdict::NotSupported(reason) = verdict {
        return format!(in alloc; "not supported, {reason}");
    }
    let text = head_error_text(alloc, error)?;
    format!(in alloc; "wrong, {text}")
}

/// The line of a file whose head is wrong, and of whose frames there is a report, without its name. If it `is_brief` it has the
/// first place.
pub fn wrong_head_text(
    alloc: Global,
    head: &WrongHead,
    is_brief: bool,
) -> Result<String, AllocError> {
    let report = &head.frames;
    let mut text = head_text(alloc, &head.error, Verdict::Wrong)?;
    push_counts(alloc, &mut text, &report.found)?;
    push_unsearched(&mut text, report)?;
    push_places(alloc, &mut text, report, SaidBy::FirstFrame, is_brief)?;
    Ok(text)
}

/// What is wrong with a head.
pub fn head_error_text(alloc: Global, error: &Error) -> Result<String, AllocError>
    ensures is_sound { HeadErrorTextIsSound error.now result }
{
    if is_other_file(error) {
        return String::from_str(alloc, "not a FLAC file");
    }
    error_text(alloc, Part::Head, error)
}

// Whether the error says that a file doesn't begin as a FLAC file does.
fn is_other_file(error: &Error) -> bool
    ensures { IsTrue result ↔ IsFault StreamMarker error.now }
{
    matches!(error, Error::FormatError("invalid stream header"))
}

fn right_text(alloc: Global, report: &Report) -> Result<String, AllocError> {
    let mut text = String::from_str(alloc, "ok")?;
    push_counts(alloc, &mut text, &report.found)?;
    for (is_so, note) in notes(report) {
        if is_so {
            write!(&mut text, ", {note}")?;
        }
    }
    if let Some(sizes) = report.found.notes.changed_block_size {
        let note = size_note(alloc, sizes)?;
        write!(&mut text, ", {note}")?;
    }
    Ok(text)
}

// That in damage not each byte was searched: very many headers led to no frame.
const NOT_SEARCHED: &str = "some bytes weren't searched for frames";

const BYTE_LEFT: &str = "1 byte after the last frame";

/// What is unusual in a stream, but not wrong, and whether it is so. `size_note` isn't among them.
pub fn notes(report: &Report) -> [(bool, &'static str); 7] {
    let notes = report.found.notes;
    [
        (matches!(report.md5, Md5Verdict::Missing), "no MD5 sum"),
        (report.info.samples.is_none(), "unknown length"),
        (
            notes.has_other_block_size,
            "a block size is out of the streaminfo's bounds",
        ),
        (
            notes.has_other_frame_size,
            "a frame size is out of the streaminfo's bounds",
        ),
        (notes.has_byte_left, BYTE_LEFT),
        (notes.has_failed_read, "a read failed"),
        (notes.has_unsearched, NOT_SEARCHED),
    ]
}

/// What is noted of frames whose head is wrong, and whether it is so.
pub fn frame_notes(report: &Report) -> [(bool, &'static str); 2] {
    let notes = report.found.notes;
    [
        (notes.has_byte_left, BYTE_LEFT),
        (notes.has_unsearched, NOT_SEARCHED),
    ]
}

/// What is noted of a fixed block size that changes.
pub fn size_note(alloc: Global, sizes: BlockSizes) -> Result<String, AllocError>
    ensures is_text { IsText (size_note sizes) result }
{
    let BlockSizes { first, other } = sizes;
    format!(in alloc; "the fixed block size changes from {first} to {other}")
}

/// What is noted of a metadata block that isn't supported.
pub fn unsupported_note(alloc: Global, why: UnsupportedBlock) -> Result<String, AllocError>
    ensures is_text { IsText (unsupported_note why) result }
{
    let reason = block_reason(why);
    format!(in alloc; "not supported: {reason}")
}

fn wrong_text(alloc: Global, report: &Report, is_brief: bool) -> Result<String, AllocError> {
    let mut text = String::from_str(alloc, "wrong")?;
    push_counts(alloc, &mut text, &report.found)?;
    let is_expected = push_expected(&mut text, report)?;
    if report.found.notes.has_failed_read {
        text.push_str(", a read failed")?;
    }
    push_unsearched(&mut text, report)?;
    let has_place = report.found.places.first.is_some();
    if !has_place && is_expected && matches!(report.md5, Md5Verdict::Wrong) {
        text.push_str(", but their MD5 sum isn't that of the streaminfo")?;
    }
    push_unsupported(alloc, &mut text, report)?;
    push_places(alloc, &mut text, report, SaidBy::Streaminfo, is_brief)?;
    Ok(text)
}

// Adds that some bytes weren't searched, if it is so.
fn push_unsearched(text: &mut String, report: &Report) -> Result<(), AllocError> {
    if report.found.notes.has_unsearched {
        write!(text, ", {NOT_SEARCHED}")?;
    }
    Ok(())
}

// Adds how many places there are, if there are some, and what the first is, if the line `is_brief`.
fn push_places(
    alloc: Global,
    text: &mut String,
    report: &Report,
    by: SaidBy,
    is_brief: bool,
) -> Result<(), AllocError> {
    let Some(first) = &report.found.places.first else {
        return Ok(());
    };
    let total = places_total(&report.found.places);
    push_count(alloc, text, ", ", total, "place")?;
    if is_brief {
        push_first_place(alloc, text, report, by, first)?;
    }
    Ok(())
}

// Adds the metadata block that isn't supported, if there is one.
fn push_unsupported(alloc: Global, text: &mut String, report: &Report) -> Result<(), AllocError> {
    match report.unsupported {
        Some(why) => {
            let note = unsupported_note(alloc, why)?;
            write!(text, ", {note}")
        }
        None => Ok(()),
    }
}

fn push_counts(alloc: Global, text: &mut String, found: &Found) -> Result<(), AllocError> {
    push_count(alloc, text, ", ", found.frames, "frame")?;
    push_count(alloc, text, ", ", found.samples, "sample")
}

// Adds the number of samples in the streaminfo, if it is another one, and returns whether it isn't.
fn push_expected(text: &mut String, report: &Report) -> Result<bool, AllocError> {
    match report.info.samples {
        Some(expected) if expected != report.found.samples => {
            write!(text, ", but the streaminfo says {expected}")?;
            Ok(false)
        }
        _ => Ok(true),
    }
}

// Adds what the first place is.
fn push_first_place(
    alloc: Global,
    text: &mut String,
    report: &Report,
    by: SaidBy,
    first: &Place,
) -> Result<(), AllocError> {
    if places_total(&report.found.places) > 1 {
        text.push_str(", the first")?;
    }
    let (byte, what) = (first.start_byte, place_text(alloc, report, by, 0, first)?);
    write!(text, " at byte {byte}")?;
    push_count(alloc, text, " after ", first.start_sample, "sample")?;
    write!(text, ": {what}")
}

// How many places there are, of which one is the first.
fn places_total(places: &Places) -> u64 {
    (places.more.len() as u64)
        .saturating_add(1)
        .saturating_add(places.left_out)
}

/// The line of a place, without the name of its file: `index` places are before it.
pub fn place_line(
    alloc: Global,
    report: &Report,
    by: SaidBy,
    index: usize,
    place: &Place,
) -> Result<String, AllocError> {
    let what = place_text(alloc, report, by, index, place)?;
    let (start, end) = (place.start_byte, place.end_byte);
    let (first, last) = (place.start_sample, place.end_sample);
    if start == end {
        return format!(in alloc; "  byte {start}, samples {first} to {last}: {what}");
    }
    format!(in alloc; "  bytes {start} to {end}, samples {first} to {last}: {what}")
}

/// The line of the places that are left out, without the name of their file.
pub fn left_out_line(alloc: Global, left_out: u64) -> Result<String, AllocError> {
    let counted = count_text(alloc, left_out, "more place")?;
    format!(in alloc; "  and {counted}")
}

/// What is wrong in a place: `index` places are before it. What stands after the last frame is the last of them.
pub fn place_text(
    alloc: Global,
    report: &Report,
    by: SaidBy,
    index: usize,
    place: &Place,
) -> Result<String, AllocError> {
    let places = &report.found.places;
    let is_last = index == places.more.len() && places.left_out == 0;
    match report.trailing {
        Some(trailing) if is_last && !is_head(by, place) => {
            let bytes = place.end_byte.wrapping_sub(place.start_byte);
            trailing_text(alloc, bytes, trailing)
        }
        _ => text_of_place(alloc, &report.info, by, place),
    }
}

// Whether a place is a head that is wrong: it begins at the first byte, where no frame is decoded.
fn is_head(by: SaidBy, place: &Place) -> bool
    ensures { result ≡ is_head by place.now }
{
    matches!((by, &place.damage), (SaidBy::FirstFrame, Damage::Fault(_))) && place.start_byte == 0
}

// What is wrong in a place before the last frame.
fn text_of_place(
    alloc: Global,
    info: &StreamInfo,
    by: SaidBy,
    place: &Place,
) -> Result<String, AllocError>
    ensures is_sound { PlaceTextIsSound info.now by place.now result }
{
    if is_head(by, place) {
        return String::from_str(alloc, "the head");
    }
    damage_text(alloc, info, by, &place.damage)
}

// What stands after the last frame: so many bytes.
fn trailing_text(alloc: Global, bytes: u64, trailing: Trailing) -> Result<String, AllocError>
    ensures is_text { IsText (trailing_text bytes trailing) result }
{
    let counted = count_text(alloc, bytes, "byte")?;
    let name = trailing_name(trailing);
    format!(in alloc; "{counted} after the last frame{name}")
}

fn trailing_name(trailing: Trailing) -> &'static str
    ensures { result.now ≡ trailing_name trailing }
{
    match trailing {
        Trailing::Id3v1 => ": an ID3v1 tag",
        Trailing::Ape => ": an APE tag",
        Trailing::Zeros => ": zeros",
        Trailing::SecondStream => ": a second stream begins",
        Trailing::Other => "",
    }
}

// What is wrong.
fn damage_text(
    alloc: Global,
    info: &StreamInfo,
    by: SaidBy,
    damage: &Damage,
) -> Result<String, AllocError>
    ensures is_sound { DamageTextIsSound info.now by damage.now result }
{
    match damage {
        Damage::Fault(fault) => frame_error_text(alloc, fault),
        Damage::Channels(count) => {
            let counted = count_text(alloc, u64::from(*count), "channel")?;
            but_text(alloc, counted.as_str(), by, info.channels)
        }
        Damage::BitDepth(bits) => {
            let counted = count_text(alloc, u64::from(*bits), "bit")?;
            let each = format!(in alloc; "{counted} per sample")?;
            but_text(alloc, each.as_str(), by, info.bits_per_sample)
        }
        Damage::SampleRate(rate) => {
            let rate = *rate;
            let hertz = format!(in alloc; "{rate} Hz")?;
            but_text(alloc, hertz.as_str(), by, info.sample_rate)
        }
        Damage::Missing(gap) => gap_text(alloc, *gap, " missing"),
        _ => String::from_str(alloc, other_damage(by, damage)),
    }
}

// What a frame says, and then the number that it should have.
fn but_text(alloc: Global, what: &str, by: SaidBy, expected: u32) -> Result<String, AllocError>
    ensures is_text { IsText (but_text what.now by expected) result }
{
    match by {
        SaidBy::Streaminfo => format!(in alloc; "{what}, but the streaminfo says {expected}"),
        SaidBy::FirstFrame => format!(in alloc; "{what}, but the first frame has {expected}"),
    }
}

// What is wrong, where nothing is counted.
fn other_damage(by: SaidBy, damage: &Damage) -> &'static str
    ensures { result.now ≡ other_damage by damage.now }
{
    match damage {
        Damage::BlockingStrategy => "the blocking strategy differs from the first frame's",
        Damage::Repeated => "frames are repeated",
        Damage::OutOfOrder => "frames are out of order",
        Damage::WideSample => wide_text(by),
        Damage::Beyond => "frames after the streaminfo's last sample",
        _ => "",
    }
}

// That a sample doesn't fit in the bit depth.
fn wide_text(by: SaidBy) -> &'static str
    ensures { result.now ≡ wide_text by }
{
    match by {
        SaidBy::Streaminfo => "a sample has more bits than the streaminfo says",
        SaidBy::FirstFrame => "a sample has more bits than those of the first frame",
    }
}

// A number of frames, or of samples where the block size is variable, and what they are.
fn gap_text(alloc: Global, gap: Gap, what: &str) -> Result<String, AllocError>
    ensures is_text { IsText (gap_text gap what.now) result }
{
    let Gap { count, is_variable } = gap;
    let thing = if is_variable { "sample" } else { "frame" };
    let verb = if count == 1 { "is" } else { "are" };
    let counted = count_text(alloc, count, thing)?;
    format!(in alloc; "{counted} {verb}{what}")
}

// What is wrong with a frame.
fn frame_error_text(alloc: Global, fault: &FrameError) -> Result<String, AllocError>
    ensures is_sound { FrameErrorTextIsSound fault.now result }
{
    if fault.is_32_bit {
        return String::from_str(alloc, UNSUPPORTED_32_BIT);
    }
    frame_text(alloc, &fault.error)
}

/// The text of an error of a frame, as `error_text` has it, but for one that asks the reader to file a bug.
pub fn frame_text(alloc: Global, error: &Error) -> Result<String, AllocError>
    ensures is_sound { FrameTextIsSound error.now result }
{
    if is_negative_shift(error) {
        return String::from_str(
            alloc,
            "Ill-formed FLAC stream: negative linear predictor coefficient shift",
        );
    }
    error_text(alloc, Part::Frame, error)
}

// Whether the error says that a shift of a linear predictor is negative.
fn is_negative_shift(error: &Error) -> bool
    ensures { IsTrue result ↔ IsFault ShiftNegative error.now }
{
    matches!(error, Error::Unsupported(NEGATIVE_SHIFT))
}

fn push_count(
    alloc: Global,
    text: &mut String,
    before: &str,
    count: u64,
    thing: &str,
) -> Result<(), AllocError> {
    let counted = count_text(alloc, count, thing)?;
    write!(text, "{before}{counted}")
}
