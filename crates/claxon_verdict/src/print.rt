//! Printing what is said of files.
ghost use Rattle.std.specs.Prelude.{◌↔◌, IsTrue};
ghost use Rattle.claxon_verdict.specs.Verdict.{IsBrokenPipe};

use crate::json_report::{error_object, object, report_object, wrong_head_object};
use crate::tally::{Tally, summary_line, summary_object};
use crate::text::{SaidBy, head_text, left_out_line, place_line, verdict_text, wrong_head_text};
use crate::verdict::{Verdict, WrongHead};
use claxon::Error;
use claxon_blocks::md5_verdict::Md5Verdict;
use claxon_command_line::input::STANDARD;
use claxon_command_line::messages::{Part, line, print_error, print_message, shown_name};
use claxon_report::{Damage, Report};
use std::alloc::{AllocError, Global};
use std::io::{ErrorKind, Write};

/// What is printed.
#[derive(Clone, Copy)]
pub struct PrintOptions {
    /// There is no line for a place that isn't right.
    pub is_brief: bool,
    /// The output is JSON.
    pub is_json: bool,
    /// Nothing is printed about a file that is right and has an MD5 sum.
    pub is_quiet: bool,
    /// The numbers of files are printed last.
    pub has_summary: bool,
}

/// Prints what is said of a file with this report, and returns the verdict: None if the output fails. Of one that can't
/// be read it prints what `print_failure` does.
pub fn print_report<W: Write, E: Write>(
    alloc: Global,
    name: &str,
    report: &Report,
    options: PrintOptions,
    output: &mut W,
    errors: &mut E,
) -> Option<Verdict> {
    let verdict = Verdict::of_report(report);
    if let (Verdict::NotRead, Some(error)) = (verdict, first_error(report)) {
        return print_failure(alloc, name, error, options, output, errors);
    }
    let printed = if options.is_quiet && is_unremarkable(report, verdict) {
        Ok(())
    } else if options.is_json {
        put_flushed(report_object(alloc, name, report, verdict), output)
    } else {
        print_lines(alloc, name, report, verdict, options.is_brief, output)
    };
    verdict_after(alloc, printed, verdict, errors)
}

// Whether a file is right, also by its MD5 sum, if that is computed.
fn is_unremarkable(report: &Report, verdict: Verdict) -> bool {
    matches!(verdict, Verdict::Right) && !matches!(report.md5, Md5Verdict::Missing)
}

// The error of the first place, if it has one.
fn first_error(report: &Report) -> Option<&Error> {
    match &report.found.places.first {
        Some(place) => match &place.damage {
            Damage::Fault(fault) => Some(&fault.error),
            _ => None,
        },
        None => None,
    }
}

// Prints the lines of a file with this report.
fn print_lines<W: Write>(
    alloc: Global,
    name: &str,
    report: &Report,
    verdict: Verdict,
    is_brief: bool,
    output: &mut W,
) -> claxon::Result<()> {
    let text = verdict_text(alloc, report, verdict, is_brief);
    print_line(alloc, name, text, output)?;
    if !is_brief && matches!(verdict, Verdict::Wrong) {
        print_places(alloc, name, report, SaidBy::Streaminfo, output)?;
    }
    output.flush()?;
    Ok(())
}

/// Prints what is said of a file whose head is wrong, of which frames are told, and returns the verdict: None if the output
/// fails.
pub fn print_wrong_head<W: Write, E: Write>(
    alloc: Global,
    name: &str,
    head: &WrongHead,
    options: PrintOptions,
    output: &mut W,
    errors: &mut E,
) -> Option<Verdict> {
    let printed = if options.is_json {
        put_flushed(wrong_head_object(alloc, name, head), output)
    } else {
        print_wrong_head_lines(alloc, name, head, options.is_brief, output)
    };
    verdict_after(alloc, printed, Verdict::Wrong, errors)
}

// Prints the lines of such a file.
fn print_wrong_head_lines<W: Write>(
    alloc: Global,
    name: &str,
    head: &WrongHead,
    is_brief: bool,
    output: &mut W,
) -> claxon::Result<()> {
    let text = wrong_head_text(alloc, head, is_brief);
    print_line(alloc, name, text, output)?;
    if !is_brief {
        print_places(alloc, name, &head.frames, SaidBy::FirstFrame, output)?;
    }
    output.flush()?;
    Ok(())
}

fn print_places<W: Write>(
    alloc: Global,
    name: &str,
    report: &Report,
    by: SaidBy,
    output: &mut W,
) -> claxon::Result<()> {
    let places = &report.found.places;
    if let Some(first) = &places.first {
        print_line(alloc, name, place_line(alloc, report, by, 0, first), output)?;
    }
    for (index, place) in places.more.iter().enumerate() {
        print_line(
            alloc,
            name,
            place_line(alloc, report, by, index + 1, place),
            output,
        )?;
    }
    if places.left_out > 0 {
        print_line(alloc, name, left_out_line(alloc, places.left_out), output)?;
    }
    Ok(())
}

/// Prints what is said of a file that gave this error, and returns the verdict: None if the output fails. Of one that
/// can't be read the line is on `errors`.
pub fn print_failure<W: Write, E: Write>(
    alloc: Global,
    name: &str,
    error: &Error,
    options: PrintOptions,
    output: &mut W,
    errors: &mut E,
) -> Option<Verdict> {
    let verdict = Verdict::of_error(error);
    let printed = if options.is_json {
        put_flushed(error_object(alloc, name, error, verdict), output)
    } else if matches!(verdict, Verdict::NotRead) {
        print_error(alloc, name, Part::Head, error, errors);
        Ok(())
    } else {
        print_flushed_line(alloc, name, head_text(alloc, error, verdict), output)
    };
    verdict_after(alloc, printed, verdict, errors)
}

/// Prints that what has this name, which isn't UTF-8, isn't read, for this reason. The name is one line.
pub fn print_unread<W: Write, E: Write>(
    alloc: Global,
    name: Result<String, AllocError>,
    reason: &str,
    options: PrintOptions,
    output: &mut W,
    errors: &mut E,
) -> Option<Verdict> {
    let verdict = Verdict::NotRead;
    let Ok(name) = name else {
        return Some(verdict);
    };
    if options.is_json {
        let text = object(alloc, name.as_str(), verdict, reason);
        return verdict_after(alloc, put_flushed(text, output), verdict, errors);
    }
    let _ = writeln!(errors, "{name}: not read: {reason}");
    Some(verdict)
}

/// Prints that what has this name isn't read, for this reason.
pub fn print_not_read<W: Write, E: Write>(
    alloc: Global,
    name: &str,
    reason: &str,
    options: PrintOptions,
    output: &mut W,
    errors: &mut E,
) -> Option<Verdict> {
    let verdict = Verdict::NotRead;
    let printed = if options.is_json {
        put_flushed(object(alloc, name, verdict, reason), output)
    } else {
        print_message(
            alloc,
            name,
            Part::Head,
            String::from_str(alloc, reason),
            errors,
        );
        Ok(())
    };
    verdict_after(alloc, printed, verdict, errors)
}

/// Prints the numbers of files, as a line or an object, and returns whether the output didn't fail.
pub fn print_summary<W: Write, E: Write>(
    alloc: Global,
    tally: Tally,
    options: PrintOptions,
    output: &mut W,
    errors: &mut E,
) -> bool {
    let text = if options.is_json {
        summary_object(alloc, tally)
    } else {
        summary_line(alloc, tally)
    };
    match put_flushed(text, output) {
        Ok(()) => true,
        Err(error) => {
            print_lost_output(alloc, &error, errors);
            false
        }
    }
}

fn print_line<W: Write>(
    alloc: Global,
    name: &str,
    text: Result<String, AllocError>,
    output: &mut W,
) -> claxon::Result<()> {
    let line = line(alloc, shown_name(name, Part::Frame), text?.as_str());
    put_text(line, output)
}

fn print_flushed_line<W: Write>(
    alloc: Global,
    name: &str,
    text: Result<String, AllocError>,
    output: &mut W,
) -> claxon::Result<()> {
    print_line(alloc, name, text, output)?;
    output.flush()?;
    Ok(())
}

// An object is one write.
fn put_flushed<W: Write>(text: Result<String, AllocError>, output: &mut W) -> claxon::Result<()> {
    put_text(text, output)?;
    output.flush()?;
    Ok(())
}

fn put_text<W: Write>(text: Result<String, AllocError>, output: &mut W) -> claxon::Result<()> {
    output.write_all(text?.as_bytes())?;
    Ok(())
}

// The verdict of a file, or None, if the output failed.
fn verdict_after<E: Write>(
    alloc: Global,
    printed: claxon::Result<()>,
    verdict: Verdict,
    errors: &mut E,
) -> Option<Verdict> {
    match printed {
        Ok(()) => Some(verdict),
        Err(error) => {
            print_lost_output(alloc, &error, errors);
            None
        }
    }
}

// Prints that the output failed, unless it is a pipe that nobody reads any more, as that of `head`.
fn print_lost_output<E: Write>(alloc: Global, error: &Error, errors: &mut E) {
    if !is_broken_pipe(error) {
        print_error(alloc, STANDARD, Part::Output, error, errors);
    }
}

fn is_broken_pipe(error: &Error) -> bool
    ensures { IsTrue result ↔ IsBrokenPipe error.now }
{
    match error {
        Error::IoError(cause) => cause.kind() == ErrorKind::BrokenPipe,
        _ => false,
    }
}
