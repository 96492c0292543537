//! Tags, one after another.
ghost use Rattle.std.specs.Prelude.{◌≡◌, ◌≤◌, ◌+◌, drop, length};
ghost use Rattle.claxon.specs.read.Bytes.{little_at};
ghost use Rattle.claxon.specs.read.Reading.{Done};
ghost use Rattle.claxon_c.specs.NextTag.{
  CTagFaultIsComplete,
  CTagFaultIsSound,
  CTagIsComplete,
  CTagIsSound,
  CTagNoMoreIffEnd,
  CTagStatusIsKnown,
  CTagsAreInOrder,
  TagIsKept,
};
ghost use Rattle.claxon_c.specs.TagName.{CTagHasName};
ghost use Rattle.claxon_c.specs.TagReader.{
  EntriesStartIsRead,
  EntryEndIsRead,
  EntryIsRead,
  NameIsRead,
  TagIsRead,
  first_entry_at,
  tag_at,
};

use crate::status::{NO_MORE, OK, report};
use claxon::metadata::comment_checks::{
    BLOCK_TOO_SHORT, ENTRY_TOO_LONG, EXCESS_DATA, NOT_UTF8, VENDOR_TOO_LONG, separator_of,
};
use claxon::{Error, Result};
use std::str;

// The number of bytes of the length of an entry.
const LENGTH_BYTES: usize = 4;

/// Where the name and the value of a tag are in a content.
#[repr(C)]
#[derive(Clone, Copy)]
pub struct ClaxonTag {
    /// The position of the name.
    pub name_at: usize,
    /// The number of bytes of the name.
    pub name_length: usize,
    /// The position of the value.
    pub value_at: usize,
    /// The number of bytes of the value.
    pub value_length: usize,
}

/// Finds the next tag in the content of a Vorbis comment block, and moves the position after it.
#[unsafe(no_mangle)]
pub extern "C" fn claxon_next_tag(
    content: &[u8],
    at: &mut usize,
    tag: &mut ClaxonTag,
    error: &mut [u8],
) -> u32
    ensures is_sound { CTagIsSound content.now at.old result at.new tag.new }
    ensures is_complete { CTagIsComplete content.now at.old result at.new tag.new }
    ensures are_in_order { CTagsAreInOrder content.now at.old result at.new tag.new }
    ensures no_more_iff_end { CTagNoMoreIffEnd content.now at.old result }
    ensures status_is_known { CTagStatusIsKnown content.now at.old result }
    ensures fault_is_sound { CTagFaultIsSound content.now at.old result error.old error.new }
    ensures fault_is_complete { CTagFaultIsComplete content.now at.old result error.old error.new }
    ensures tag_is_kept { TagIsKept result at.old at.new tag.old tag.new }
{
    match find_tag(content, *at) {
        Ok(Some(found)) => {
            let value_at = found.name_at + found.name_length + 1;
            *tag = ClaxonTag {
                name_at: found.name_at,
                name_length: found.name_length,
                value_at,
                value_length: found.end - value_at,
            };
            *at = found.end;
            OK
        }
        Ok(None) => NO_MORE,
        Err(fault) => report(&fault, error),
    }
}

/// Whether a tag has this name in the content, in upper or lower case: 1 if it has, else 0.
#[unsafe(no_mangle)]
pub extern "C" fn claxon_tag_has_name(content: &[u8], tag: &ClaxonTag, name: &[u8]) -> u32
    ensures has_name { CTagHasName content.now tag.now name.now result }
{
    let (at, count) = (tag.name_at, tag.name_length);
    if at > content.len() || count > content.len() - at {
        return 0;
    }
    if content[at..at + count].eq_ignore_ascii_case(name) {
        1
    } else {
        0
    }
}

// Where a tag is in a content.
#[derive(Clone, Copy)]
struct Tag {
    name_at: usize,
    name_length: usize,
    end: usize,
}

// The end of an entry in a content, and the length of its name, unless it is empty.
#[derive(Clone, Copy)]
struct FoundEntry {
    end: usize,
    name_length: Option<usize>,
}

// The next tag from the position on.
fn find_tag(content: &[u8], at: usize) -> Result<Option<Tag>>
    ensures is_read { TagIsRead content.now (tag_at at content.now) result }
{
    let start = start_of_entries(content, at)?;
    first_tag(content, start)
}

// Where entries are read from: at 0 after the vendor string and the number of entries, else at the position itself.
fn start_of_entries(content: &[u8], at: usize) -> Result<usize>
    ensures is_read { EntriesStartIsRead at content.now result }
{
    if at > 0 {
        return Ok(content.len().min(at));
    }
    if content.len() < 2 * LENGTH_BYTES {
        return Err(Error::FormatError(BLOCK_TOO_SHORT));
    }
    let vendor_length = length_at(content, 0) as usize;
    if vendor_length > content.len() - 2 * LENGTH_BYTES {
        return Err(Error::FormatError(VENDOR_TOO_LONG));
    }
    Ok(vendor_length + 2 * LENGTH_BYTES)
}

// The first tag among the entries from this position on. Empty entries are skipped.
fn first_tag(content: &[u8], start: usize) -> Result<Option<Tag>>
    requires { start ≤ length content.now }
    ensures is_read { TagIsRead content.now
        (first_entry_at (length content.now) (drop start content.now)) result }
{
    let mut at = start;
    while at < content.len() {
        let entry = entry_at(content, at)?;
        if let Some(name_length) = entry.name_length {
            return Ok(Some(Tag {
                name_at: at + LENGTH_BYTES,
                name_length,
                end: entry.end,
            }));
        }
        at = entry.end;
    }
    Ok(None)
}

// The entry whose length is at this position.
fn entry_at(content: &[u8], at: usize) -> Result<FoundEntry>
    requires { at ≤ length content.now }
    ensures is_read { EntryIsRead content.now at result }
{
    let end = end_of_entry(content, at)?;
    let entry = &content[at + LENGTH_BYTES..end];
    if entry.is_empty() {
        return Ok(FoundEntry {
            end,
            name_length: None,
        });
    }
    let count = length_of_name(entry)?;
    Ok(FoundEntry {
        end,
        name_length: Some(count),
    })
}

// The end of the entry whose length is at this position.
fn end_of_entry(content: &[u8], at: usize) -> Result<usize>
    requires { at ≤ length content.now }
    ensures is_read { EntryEndIsRead content.now at result }
{
    let left = content.len() - at;
    if left < LENGTH_BYTES {
        return Err(Error::FormatError(EXCESS_DATA));
    }
    let length = length_at(content, at) as usize;
    if length > left - LENGTH_BYTES {
        return Err(Error::FormatError(ENTRY_TOO_LONG));
    }
    Ok(at + LENGTH_BYTES + length)
}

// Four bytes as a little-endian number.
fn length_at(content: &[u8], at: usize) -> u32
    requires { at + 4 ≤ length content.now }
    ensures { little_at 4 (drop at content.now) ≡ Done result (drop (at + 4) content.now) }
{
    u32::from_le_bytes([
        content[at],
        content[at + 1],
        content[at + 2],
        content[at + 3],
    ])
}

// The length of the name of an entry, which has its first `=` after it.
fn length_of_name(entry: &[u8]) -> Result<usize>
    ensures is_read { NameIsRead entry.now result }
{
    let count = separator_of(entry)?;
    let Ok(_) = str::from_utf8(entry) else {
        return Err(Error::FormatError(NOT_UTF8));
    };
    Ok(count)
}
