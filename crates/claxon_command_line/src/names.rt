//! Names that end with a zero byte, as `find -print0` writes them.
ghost use Rattle.claxon_command_line.specs.Names.{
  NotUtf8NameIs,
  ReadNameIsSound,
  WordIsSound,
  escaped_bytes,
  hex_escapes,
};
ghost use Rattle.claxon_command_line.specs.Text.{Adds, IsText};

use crate::text::escaped_text;
use claxon_input::error::{Error, Result};
use claxon_input::input::ReadBytes;
use std::alloc::{AllocError, Allocator, Global};
use std::{result, str};

/// Reads the next name that isn't empty in place of what `name` holds, and returns true, or false at the end of the input. The
/// last name may lack its zero byte.
///
/// # Errors
///
/// An `IoError` if a read fails, `OutOfMemory` if memory for the name is refused.
pub fn read_name<R: ReadBytes, A: Allocator>(input: &mut R, name: &mut Vec<u8, A>) -> Result<bool>
    ensures is_sound { ReadNameIsSound R.source input.old result input.new name.new.items }
{
    name.clear();
    for _ in 0..u64::MAX {
        let Some(byte) = input.read_u8_or_eof()? else {
            return Ok(!name.is_empty());
        };
        if byte != 0 {
            name.push(byte)?;
        } else if !name.is_empty() {
            return Ok(true);
        }
    }
    Err(Error::Unsupported("more than 18446744073709551615 bytes of names"))
}

/// A name on one line, from which its bytes can be read back: each byte that is no part of UTF-8 as `\x` with its two
/// hexadecimal digits, and the text between them as `crate::text::escaped_text` has it.
pub fn escaped_bytes<A: Allocator + Copy>(
    alloc: A,
    name: &[u8],
) -> result::Result<String<A>, AllocError>
    ensures is_text { IsText (escaped_bytes name.now) result }
{
    let mut text = String::new(alloc);
    for chunk in name.utf8_chunks() {
        text.push_str(escaped_text(alloc, chunk.valid())?.as_str())?;
        push_hex_escapes(&mut text, chunk.invalid())?;
    }
    Ok(text)
}

/// An argument as a word of text. One that isn't UTF-8 becomes a zero byte, which no argument has, and its bytes as
/// `escaped_bytes` has them.
pub fn word_of(alloc: Global, argument: &[u8]) -> result::Result<String, AllocError>
    ensures is_word { WordIsSound argument.now result }
{
    if let Ok(text) = str::from_utf8(argument) {
        return String::from_str(alloc, text);
    }
    let mut word = String::from_str(alloc, "\0")?;
    word.push_str(escaped_bytes(alloc, argument)?.as_str())?;
    Ok(word)
}

/// How an argument that isn't UTF-8 is shown, or None of the word of another one.
pub fn not_utf8_name(word: &str) -> Option<&str>
    ensures name_is { NotUtf8NameIs word.now result }
{
    word.strip_prefix("\0")
}

fn push_hex_escapes<A: Allocator>(
    text: &mut String<A>,
    bytes: &[u8],
) -> result::Result<(), AllocError>
    ensures adds { Adds (hex_escapes bytes.now) result text.old text.new }
{
    for byte in bytes {
        write!(text, "\\x{byte:02x}")?;
    }
    Ok(())
}
