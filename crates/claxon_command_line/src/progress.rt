//! The progress of a file that is converted, or of files that are verified.
ghost use Rattle.std.specs.Prelude.{◌≡◌, None};

use crate::text::escaped_text;
use std::alloc::{AllocError, Global};
use std::io::Write;

/// A line `57 %  12 of 300  song.flac`: the percentage of samples of a file that are done, and a label. It is written again
/// when that changes. `end` or `clear` has to be called.
pub struct Progress<'e, 'l, E> {
    errors: &'e mut E,
    // None where no line is shown.
    label: Option<&'l str>,
    total: Option<u64>,
    percent: Option<u64>,
}

impl<'e, 'l, E: Write> Progress<'e, 'l, E> {
    ghost use Rattle.claxon_command_line.specs.Progress.{
      EndsOnlyLine,
      IsNewProgress,
      SameErrors,
      ShowsPercentage,
      TotalIsSet,
      WritesOnlyChanges,
    };

    /// A line on `errors` that isn't written yet, and ends with this label. Without one it never is.
    pub fn new(errors: &'e mut E, label: Option<&'l str>) -> Progress<'e, 'l, E>
        ensures is_new_progress { IsNewProgress errors.entry label.entry result }
    {
        Progress {
            errors,
            label,
            total: None,
            percent: None,
        }
    }

    /// Says how many samples there are. Without their number the line isn't written.
    pub fn start(&mut self, total: Option<u64>)
        ensures same_errors { SameErrors self.old self.new }
        ensures total_is_set { TotalIsSet total self.old self.new }
    {
        self.total = total;
    }

    /// Writes the line if the percentage has changed. A failed write is ignored.
    pub fn show(&mut self, done: u64)
        ensures same_errors { SameErrors self.old self.new }
        ensures shows_percentage { ShowsPercentage done self.old self.new }
        ensures writes_only_changes { WritesOnlyChanges self.old self.new }
    {
        let (Some(label), Some(total)) = (self.label, self.total) else {
            return;
        };
        let percent = (done.saturating_mul(100) / total.max(1)).min(100);
        if self.percent != Some(percent) {
            self.percent = Some(percent);
            let _ = write!(self.errors, "\r{percent} %{label}");
        }
    }

    /// Ends the line, if there is one.
    pub fn end(self)
        ensures ends_only_line { EndsOnlyLine self.entry self.exit.0.now }
    {
        let Progress {
            errors,
            label: _,
            total: _,
            percent,
        } = self;
        write_after(errors, percent, "\n");
    }

    /// Clears the line, if there is one.
    pub fn clear(self)
        ensures ends_only_line { EndsOnlyLine self.entry self.exit.0.now }
    {
        let Progress {
            errors,
            label: _,
            total: _,
            percent,
        } = self;
        write_after(errors, percent, "\r\x1b[K");
    }
}

// Writes this after a line with this percentage, if there is one. A failed write is ignored.
fn write_after<E: Write>(errors: &mut E, percent: Option<u64>, last: &str)
    ensures { percent ≡ None → errors.new ≡ errors.old }
{
    if percent.is_some() {
        let _ = write!(errors, "{last}");
    }
}

/// Where a file stands among those that are verified.
#[derive(Clone, Copy)]
pub struct Position {
    /// Its number. The first is 1.
    pub number: u64,
    /// How many there are, if that is known.
    pub total: Option<u64>,
}

// How many columns a line takes at most, as even small terminals have them.
const MOST_COLUMNS: usize = 79;

// How many of them a name takes at most.
const MOST_OF_NAME: usize = 50;

/// What stands after the percentage: `  12 of 300  song.flac`, or `  12  song.flac` where the total isn't known, or
/// `  song.flac` of the only file. The name is on one line, as `escaped_text` has it, and of a long one just the end is there.
/// A terminal with fewer columns cuts the line off, and doesn't begin another one.
pub fn file_label(alloc: Global, position: Position, name: &str) -> Result<String, AllocError> {
    let escaped = escaped_text(alloc, name)?;
    let before = position_text(alloc, position)?;
    // The percentage takes up to five.
    let left = MOST_COLUMNS.saturating_sub(before.len().saturating_add(7));
    let name = last_columns(alloc, escaped.as_str(), left.min(MOST_OF_NAME))?;
    format!(in alloc; "\x1b[?7l  {before}{name}\x1b[?7h")
}

fn position_text(alloc: Global, position: Position) -> Result<String, AllocError> {
    let number = position.number;
    match position.total {
        Some(1) => Ok(String::new(alloc)),
        Some(total) => format!(in alloc; "{number} of {total}  "),
        None => format!(in alloc; "{number}  "),
    }
}

// The end of a text, which takes at most so many columns of a terminal.
fn last_columns(alloc: Global, text: &str, most: usize) -> Result<String, AllocError> {
    let mut left = columns(text);
    let mut end = String::new(alloc);
    for c in text.chars() {
        if left > most {
            left = left.saturating_sub(width(c));
        } else {
            end.push(c)?;
        }
    }
    Ok(end)
}

fn columns(text: &str) -> usize {
    let mut columns = 0usize;
    for c in text.chars() {
        columns = columns.saturating_add(width(c));
    }
    columns
}

// Wide letters and symbols of Unicode's East Asian Width. A character that takes no column counts as one.
const WIDE: [(char, char); 15] = [
    ('\u{1100}', '\u{115f}'),
    ('\u{231a}', '\u{231b}'),
    ('\u{2329}', '\u{232a}'),
    ('\u{23e9}', '\u{23f3}'),
    ('\u{25fd}', '\u{2b55}'),
    ('\u{2e80}', '\u{303e}'),
    ('\u{3041}', '\u{a4cf}'),
    ('\u{a960}', '\u{a97c}'),
    ('\u{ac00}', '\u{d7a3}'),
    ('\u{f900}', '\u{faff}'),
    ('\u{fe10}', '\u{fe19}'),
    ('\u{fe30}', '\u{fe6f}'),
    ('\u{ff01}', '\u{ff60}'),
    ('\u{ffe0}', '\u{ffe6}'),
    ('\u{16fe0}', '\u{3fffd}'),
];

// How many columns of a terminal a character takes at most.
fn width(c: char) -> usize {
    for (first, last) in WIDE {
        if first <= c && c <= last {
            return 2;
        }
    }
    1
}
