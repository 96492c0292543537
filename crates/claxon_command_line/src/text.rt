//! Values as text.
ghost use Rattle.claxon_command_line.specs.Text.{
  Adds,
  IsText,
  count_text,
  escaped_char,
  escaped_text,
  length_text,
  md5_text,
  number_text,
  time_text,
};

use std::alloc::{AllocError, Allocator};

/// A number in decimal digits, or `unknown` for None.
#[tactic(auto, unfolding(crate::specs::Text::number_text))]
pub fn number_text<A: Allocator>(alloc: A, number: Option<u64>) -> Result<String<A>, AllocError>
    ensures is_text { IsText (number_text number) result }
{
    match number {
        Some(number) => format!(in alloc; "{number}"),
        None => String::from_str(alloc, "unknown"),
    }
}

/// A number of things, in the plural unless it is 1.
#[tactic(auto, unfolding(crate::specs::Text::count_text))]
pub fn count_text<A: Allocator>(alloc: A, count: u64, thing: &str) -> Result<String<A>, AllocError>
    ensures is_text { IsText (count_text count thing.now) result }
{
    let end = if count == 1 { "" } else { "s" };
    format!(in alloc; "{count} {thing}{end}")
}

/// The length of this number of samples per channel at this sample rate, rounded down to milliseconds, as `h:mm:ss.mmm`; or
/// `unknown` if the number isn't known or the rate is 0.
#[tactic(auto, unfolding(crate::specs::Text::length_text))]
pub fn length_text<A: Allocator>(
    alloc: A,
    samples: Option<u64>,
    rate: u32,
) -> Result<String<A>, AllocError>
    ensures is_text { IsText (length_text samples rate) result }
{
    match samples {
        Some(samples) if rate > 0 => {
            time_text(alloc, u128::from(samples) * 1000 / u128::from(rate))
        }
        _ => String::from_str(alloc, "unknown"),
    }
}

// A time in milliseconds.
fn time_text<A: Allocator>(alloc: A, time: u128) -> Result<String<A>, AllocError>
    ensures is_text { IsText (time_text time) result }
{
    let (hours, minutes) = (time / 3_600_000, time / 60_000 % 60);
    let (seconds, thousandths) = (time / 1000 % 60, time % 1000);
    format!(in alloc; "{hours}:{minutes:02}:{seconds:02}.{thousandths:03}")
}

/// An MD5 sum in hexadecimal digits, or `unknown` if it is all zeros.
#[tactic(auto, unfolding(crate::specs::Text::md5_text))]
pub fn md5_text<A: Allocator>(alloc: A, md5sum: &[u8; 16]) -> Result<String<A>, AllocError>
    ensures is_text { IsText (md5_text md5sum.now) result }
{
    if *md5sum == [0; 16] {
        return String::from_str(alloc, "unknown");
    }
    let mut text = String::new(alloc);
    for byte in md5sum {
        write!(&mut text, "{byte:02x}")?;
    }
    Ok(text)
}

/// A text on one line, from which it can be read back: a backslash as `\\`, a line feed as `\n`, a carriage return as
/// `\r`, a tab as `\t`, and any other control character, U+2028 and U+2029 as `\u{..}` with its hexadecimal number.
pub fn escaped_text<A: Allocator>(alloc: A, text: &str) -> Result<String<A>, AllocError>
    ensures is_text { IsText (escaped_text text.now) result }
{
    let mut line = String::new(alloc);
    for c in text.chars() {
        push_escaped(&mut line, c)?;
    }
    Ok(line)
}

#[tactic(auto, unfolding(crate::specs::Text::escaped_char))]
fn push_escaped<A: Allocator>(line: &mut String<A>, c: char) -> Result<(), AllocError>
    ensures adds { Adds (escaped_char c) result line.old line.new }
{
    match c {
        '\\' => line.push_str("\\\\"),
        '\n' => line.push_str("\\n"),
        '\r' => line.push_str("\\r"),
        '\t' => line.push_str("\\t"),
        '\0'..='\x1f' | '\x7f'..='\u{9f}' | '\u{2028}' | '\u{2029}' => {
            let number = u32::from(c);
            write!(line, "\\u{{{number:x}}}")
        }
        _ => line.push(c),
    }
}
