//! What is printed of a file that was verified, as JSON (RFC 8259).
use crate::text::{
    SaidBy, frame_notes, head_error_text, notes, place_text, size_note, unsupported_note,
};
use crate::verdict::{Verdict, WrongHead};
use claxon::Error;
use claxon_blocks::md5_verdict::Md5Verdict;
use claxon_command_line::json::push_json_string;
use claxon_command_line::text::md5_text;
use claxon_report::{Place, Report};
use std::alloc::{AllocError, Global};

/// The object of a file with a report, and a line feed.
pub fn report_object(
    alloc: Global,
    name: &str,
    report: &Report,
    verdict: Verdict,
) -> Result<String, AllocError> {
    let mut text = start_text(alloc, name, report, verdict)?;
    push_places(alloc, &mut text, report, SaidBy::Streaminfo)?;
    text.push_str(end_text(alloc, report, verdict)?.as_str())?;
    Ok(text)
}

/// The object of a file whose head is wrong, of which frames are told, and a line feed.
pub fn wrong_head_object(
    alloc: Global,
    name: &str,
    head: &WrongHead,
) -> Result<String, AllocError> {
    let report = &head.frames;
    let mut text = name_text(alloc, name, Verdict::Wrong)?;
    push_reason(&mut text, head_error_text(alloc, &head.error)?.as_str())?;
    push_numbers(&mut text, report)?;
    text.push_str(",\"md5\":\"not computed\"")?;
    push_places(alloc, &mut text, report, SaidBy::FirstFrame)?;
    text.push_str(",\"notes\":[")?;
    push_notes_that_are_so(&mut text, &frame_notes(report))?;
    text.push_str("]}\n")?;
    Ok(text)
}

// The object up to its places.
fn start_text(
    alloc: Global,
    name: &str,
    report: &Report,
    verdict: Verdict,
) -> Result<String, AllocError> {
    let mut text = name_text(alloc, name, verdict)?;
    push_numbers(&mut text, report)?;
    if let Some(samples) = report.info.samples {
        write!(&mut text, ",\"streaminfo_samples\":{samples}")?;
    }
    let md5 = md5_word(report, verdict);
    write!(&mut text, ",\"md5\":\"{md5}\"")?;
    push_sum(alloc, &mut text, report, verdict)?;
    Ok(text)
}

fn push_numbers(text: &mut String, report: &Report) -> Result<(), AllocError> {
    for (member, number) in numbers(report) {
        write!(text, ",\"{member}\":{number}")?;
    }
    Ok(())
}

// The sum of all samples. Of a file with frames that aren't supported not all are hashed.
fn push_sum(
    alloc: Global,
    text: &mut String,
    report: &Report,
    verdict: Verdict,
) -> Result<(), AllocError> {
    match report.computed_md5 {
        Some(sum) if hashes_all(report, verdict) => {
            let sum = md5_text(alloc, &sum)?;
            write!(text, ",\"computed_md5\":\"{sum}\"")
        }
        _ => Ok(()),
    }
}

fn numbers(report: &Report) -> [(&'static str, u64); 5] {
    let info = &report.info;
    [
        ("frames", report.found.frames),
        ("samples", report.found.samples),
        ("sample_rate", u64::from(info.sample_rate)),
        ("channels", u64::from(info.channels)),
        ("bits_per_sample", u64::from(info.bits_per_sample)),
    ]
}

// Whether all samples are hashed: not those of frames that aren't supported.
fn hashes_all(report: &Report, verdict: Verdict) -> bool {
    !matches!(verdict, Verdict::NotSupported(_)) || report.found.places.first.is_none()
}

fn md5_word(report: &Report, verdict: Verdict) -> &'static str {
    if !hashes_all(report, verdict) {
        return "not computed";
    }
    match report.md5 {
        Md5Verdict::NotComputed => "not computed",
        Md5Verdict::Missing => "none",
        Md5Verdict::Right => "ok",
        Md5Verdict::Wrong => "wrong",
    }
}

// Adds the places, and how many are left out.
fn push_places(
    alloc: Global,
    text: &mut String,
    report: &Report,
    by: SaidBy,
) -> Result<(), AllocError> {
    text.push_str(",\"places\":[")?;
    let places = &report.found.places;
    if let Some(first) = &places.first {
        text.push_str(place_object(alloc, report, by, 0, first)?.as_str())?;
    }
    for (index, place) in places.more.iter().enumerate() {
        text.push_str(place_object(alloc, report, by, index + 1, place)?.as_str())?;
    }
    text.push_str("]")?;
    let left_out = places.left_out;
    if left_out > 0 {
        write!(text, ",\"left_out\":{left_out}")?;
    }
    Ok(())
}

// A place, with a comma before it if it isn't the first: `index` places are before it.
fn place_object(
    alloc: Global,
    report: &Report,
    by: SaidBy,
    index: usize,
    place: &Place,
) -> Result<String, AllocError> {
    let mut text = String::from_str(alloc, if index == 0 { "{" } else { ",{" })?;
    let (start, end) = (place.start_byte, place.end_byte);
    write!(&mut text, "\"start_byte\":{start},\"end_byte\":{end}")?;
    let (first, last) = (place.start_sample, place.end_sample);
    write!(
        &mut text,
        ",\"start_sample\":{first},\"end_sample\":{last},\"what\":"
    )?;
    let what = place_text(alloc, report, by, index, place)?;
    push_json_string(&mut text, what.as_str())?;
    text.push_str("}")?;
    Ok(text)
}

// The object after its places, and a line feed.
fn end_text(alloc: Global, report: &Report, verdict: Verdict) -> Result<String, AllocError> {
    let mut text = String::new(alloc);
    push_notes(alloc, &mut text, report, verdict)?;
    if let Verdict::NotSupported(reason) = verdict {
        push_reason(&mut text, reason)?;
    }
    text.push_str("}\n")?;
    Ok(text)
}

// Whether a metadata block is the reason why a file isn't supported.
fn is_reason(report: &Report, verdict: Verdict) -> bool {
    matches!(verdict, Verdict::NotSupported(_)) && report.found.places.first.is_none()
}

fn push_notes(
    alloc: Global,
    text: &mut String,
    report: &Report,
    verdict: Verdict,
) -> Result<(), AllocError> {
    text.push_str(",\"notes\":[")?;
    let mut before = push_notes_that_are_so(text, &notes(report))?;
    if let Some(sizes) = report.found.notes.changed_block_size {
        text.push_str(before)?;
        push_json_string(text, size_note(alloc, sizes)?.as_str())?;
        before = ",";
    }
    match report.unsupported {
        Some(why) if !is_reason(report, verdict) => {
            text.push_str(before)?;
            push_json_string(text, unsupported_note(alloc, why)?.as_str())?;
        }
        _ => {}
    }
    text.push_str("]")
}

// Adds the notes that are so, and returns what comes before the next one.
fn push_notes_that_are_so(
    text: &mut String,
    notes: &[(bool, &'static str)],
) -> Result<&'static str, AllocError> {
    let mut before = "";
    for (is_so, note) in notes {
        if *is_so {
            text.push_str(before)?;
            push_json_string(text, *note)?;
            before = ",";
        }
    }
    Ok(before)
}

/// The object of a file that gave this error in place of a report, and a line feed.
pub fn error_object(
    alloc: Global,
    name: &str,
    error: &Error,
    verdict: Verdict,
) -> Result<String, AllocError> {
    match verdict {
        Verdict::NotSupported(reason) => object(alloc, name, verdict, reason),
        _ => {
            let reason = head_error_text(alloc, error)?;
            object(alloc, name, verdict, reason.as_str())
        }
    }
}

/// The object of a file of which nothing is known, but why, and a line feed.
pub fn object(
    alloc: Global,
    name: &str,
    verdict: Verdict,
    reason: &str,
) -> Result<String, AllocError> {
    let mut text = name_text(alloc, name, verdict)?;
    push_reason(&mut text, reason)?;
    text.push_str("}\n")?;
    Ok(text)
}

// The begin of an object.
fn name_text(alloc: Global, name: &str, verdict: Verdict) -> Result<String, AllocError> {
    let mut text = String::from_str(alloc, "{\"name\":")?;
    push_json_string(&mut text, name)?;
    let word = verdict_word(verdict);
    write!(&mut text, ",\"verdict\":\"{word}\"")?;
    Ok(text)
}

fn verdict_word(verdict: Verdict) -> &'static str {
    match verdict {
        Verdict::Right => "ok",
        Verdict::Wrong => "wrong",
        Verdict::NotSupported(_) => "not supported",
        Verdict::NotRead => "not read",
    }
}

fn push_reason(text: &mut String, reason: &str) -> Result<(), AllocError> {
    text.push_str(",\"reason\":")?;
    push_json_string(text, reason)
}
