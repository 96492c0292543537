//! What `claxon wav` prints of a damaged file.
use crate::wav::conversion_status;
use claxon::metadata::StreamInfo;
use claxon_command_line::messages::{Part, print_message};
use claxon_command_line::text::count_text;
use claxon_rescue::{LossKind, Losses, LostRange, Rescued};
use std::alloc::{AllocError, Global};
use std::io::Write;
use std::result::Result;

/// Prints what is lost of the file `from`, or what went wrong, and returns the exit status.
pub(crate) fn rescue_status<E: Write>(
    alloc: Global,
    from: &str,
    to: &str,
    info: &StreamInfo,
    outcome: claxon_wav::Result<Rescued>,
    errors: &mut E,
) -> u8 {
    match outcome {
        Ok(rescued) if rescued.losses.count > 0 => {
            print_losses(alloc, from, &rescued.losses, errors);
            1
        }
        Ok(rescued) => conversion_status(alloc, from, to, info, Ok(rescued.conversion), errors),
        Err(error) => conversion_status(alloc, from, to, info, Err(error), errors),
    }
}

// Prints a line for each range that is lost, as far as it is kept, and one of all.
fn print_losses<E: Write>(alloc: Global, name: &str, losses: &Losses, errors: &mut E) {
    for range in losses.ranges.as_slice() {
        print_message(alloc, name, Part::Frame, range_text(alloc, range), errors);
    }
    let left_out = losses.count.saturating_sub(losses.ranges.len() as u64);
    if left_out > 0 {
        print_message(alloc, name, Part::Frame, more_text(alloc, left_out), errors);
    }
    print_message(alloc, name, Part::Frame, total_text(alloc, losses), errors);
}

// A range that is lost.
fn range_text(alloc: Global, range: &LostRange) -> Result<String, AllocError> {
    let (start, end) = (range.start_byte, range.end_byte);
    let (first, last) = (range.start_sample, range.end_sample);
    let what = kind_text(range.kind);
    if start == end {
        return format!(in alloc; "byte {start}, samples {first} to {last}: {what}");
    }
    format!(in alloc; "bytes {start} to {end}, samples {first} to {last}: {what}")
}

fn kind_text(kind: LossKind) -> &'static str {
    match kind {
        LossKind::Missing => "missing",
        LossKind::LeftOut => "left out, a frame that is repeated or out of order",
    }
}

fn more_text(alloc: Global, count: u64) -> Result<String, AllocError> {
    let counted = count_text(alloc, count, "more range")?;
    format!(in alloc; "and {counted}")
}

// How many samples are missing.
fn total_text(alloc: Global, losses: &Losses) -> Result<String, AllocError> {
    let counted = count_text(alloc, losses.missing, "sample")?;
    let are = if losses.missing == 1 { "is" } else { "are" };
    format!(in alloc; "{counted} {are} missing in all")
}
