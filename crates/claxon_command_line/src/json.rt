//! Strings of JSON.
ghost use Rattle.claxon_command_line.specs.Json.{json_char, json_chars, json_string};
ghost use Rattle.claxon_command_line.specs.Text.{Adds};

use std::alloc::{AllocError, Allocator};

/// Adds a string of JSON (RFC 8259, section 7) with its quotation marks. Only what has to be escaped is: a quotation mark, a
/// backslash and each character below U+0020.
pub fn push_json_string<A: Allocator>(text: &mut String<A>, s: &str) -> Result<(), AllocError>
    ensures adds { Adds (json_string s.now) result text.old text.new }
{
    text.push_str("\"")?;
    push_json_chars(text, s)?;
    text.push_str("\"")
}

fn push_json_chars<A: Allocator>(text: &mut String<A>, s: &str) -> Result<(), AllocError>
    ensures adds { Adds (json_chars s.now) result text.old text.new }
{
    for c in s.chars() {
        push_json_char(text, c)?;
    }
    Ok(())
}

#[tactic(auto, unfolding(crate::specs::Json::json_char))]
fn push_json_char<A: Allocator>(text: &mut String<A>, c: char) -> Result<(), AllocError>
    ensures adds { Adds (json_char c) result text.old text.new }
{
    match c {
        '"' => text.push_str("\\\""),
        '\\' => text.push_str("\\\\"),
        '\n' => text.push_str("\\n"),
        '\r' => text.push_str("\\r"),
        '\t' => text.push_str("\\t"),
        '\x08' => text.push_str("\\b"),
        '\x0c' => text.push_str("\\f"),
        '\0'..='\x1f' => {
            let number = u32::from(c);
            write!(text, "\\u00{number:02x}")
        }
        _ => text.push(c),
    }
}
