//! Reads Vorbis comments.
ghost use Rattle.std.specs.Prelude.{
  ◌≡◌,
  ◌≤◌,
  ◌-◌,
  ◌/◌,
  true,
  false,
  string_bytes,
  IfOk,
  IfSome,
  MatchResult,
};
ghost use Rattle.claxon_format.specs.Comments.{not_utf8};
ghost use Rattle.claxon_format.specs.read.Comments.{
  entry_at,
  entry_or_empty_at,
  entries_at,
  vendor_at,
  count_at,
  comment_at,
};
ghost use Rattle.claxon_format.specs.Fault.{EntryNotUtf8};
ghost use Rattle.claxon_format.specs.Metadata.{max_content_bytes};
ghost use Rattle.claxon_input.specs.Promises.{IsOutOfMemory};
ghost use Rattle.claxon_input.specs.State.{bytes_in};
ghost use Rattle.claxon_input.specs.Gives.{Gives, GivesOrOutOfMemory};
ghost use Rattle.claxon_input.specs.Error.{IsFault};
ghost use Rattle.claxon_input.specs.declared.error.Error.TheVariants.{FormatError};
ghost use Rattle.claxon_metadata.specs.ReadMetadataBlock.{AtMostIsConsumed, CommentIsRead};
ghost use Rattle.claxon_metadata.specs.VorbisComment.{
  EndIsChecked,
  LengthIsRead,
  OutOfMemoryAfterVendorLength,
  entry_or_empty_view,
};
ghost use Rattle.claxon_metadata.specs.TagEntries.{
  HaveSeparatorIndices,
  IsSeparatorIndex,
  entry_view,
  entries_view,
};

use super::comment_checks::{
    BLOCK_TOO_SHORT, ENTRY_TOO_LONG, EXCESS_DATA, NOT_UTF8, VENDOR_TOO_LONG, separator_of,
};
use super::{MAX_BLOCK_LENGTH, VorbisComment, read_bytes};
use claxon_input::error::{Error, Result};
use claxon_input::input::ReadBytes;
use std::alloc::Allocator;

/// Reads the content of a Vorbis comment block of this length.
#[tactic(auto, unfolding(claxon_format::specs::read::Comments::comment_at, claxon_format::specs::Fault::fault_text))]
pub fn read_vorbis_comment_block<R: ReadBytes, A: Allocator + Copy>(
    alloc: A,
    input: &mut R,
    length: u32,
) -> Result<VorbisComment<A>>
    ensures separators { IfOk result (λ comment. HaveSeparatorIndices comment.comments.items) }
    // Memory is allocated only after the lengths of the block and of its vendor string were checked.
    ensures is_out_of_memory { IsOutOfMemory result → (8 ≤ length) × (length ≤ max_content_bytes) }
    ensures out_of_memory_after_vendor_length { OutOfMemoryAfterVendorLength (length - 8) result
        (bytes_in R.source input.old) }
    ensures is_read { CommentIsRead R.source length input.old result input.new }
    ensures at_most_is_consumed { AtMostIsConsumed R.source length input.old input.new }
{
    if length < 8 {
        return Err(Error::FormatError(BLOCK_TOO_SHORT));
    }
    if length > MAX_BLOCK_LENGTH {
        return Err(Error::Unsupported(
            "Vorbis comment blocks larger than 10 MiB are not supported",
        ));
    }
    let vendor_length = read_length(input, length - 8, VENDOR_TOO_LONG)?;
    let vendor = read_vendor(alloc, input, vendor_length)?;
    let count = read_count(input, length / 4)?;
    let comments = read_entries(alloc, input, count, length - 8 - vendor_length)?;
    Ok(VorbisComment { vendor, comments })
}

// A length of at most `most`. A greater one is a `FormatError` with the text `too_long`.
#[tactic(auto, using(claxon_input::proofs::ByteFields::little_numbers))]
fn read_length<R: ReadBytes>(input: &mut R, most: u32, too_long: &'static str) -> Result<u32>
    ensures most { IfOk result (λ length. length ≤ most) }
    ensures is_read { LengthIsRead R.source most (FormatError too_long.entry)
        input.old result input.new }
    ensures at_most_is_consumed { AtMostIsConsumed R.source 4 input.old input.new }
{
    let length = input.read_le_u32()?;
    if length > most {
        return Err(Error::FormatError(too_long));
    }
    Ok(length)
}

#[tactic(auto, unfolding(claxon_format::specs::read::Comments::vendor_at, claxon_format::specs::Fault::fault_text))]
fn read_vendor<R: ReadBytes, A: Allocator>(
    alloc: A,
    input: &mut R,
    length: u32,
) -> Result<String<A>>
    ensures gives { GivesOrOutOfMemory string_bytes result (vendor_at length)
        (bytes_in R.source input.old) (bytes_in R.source input.new) }
    ensures at_most_is_consumed { AtMostIsConsumed R.source length input.old input.new }
{
    let bytes = read_bytes(alloc, input, length)?;
    text_of(bytes)
}

#[tactic(auto, unfolding(claxon_format::specs::Fault::fault_text))]
fn text_of<A: Allocator>(bytes: Vec<u8, A>) -> Result<String<A>>
    ensures { MatchResult result
        (λ text. (string_bytes text ≡ bytes.items) × (not_utf8 bytes.items ≡ false))
        (λ error. IsFault EntryNotUtf8 error × (not_utf8 bytes.items ≡ true)) }
{
    let Ok(text) = String::from_utf8(bytes) else {
        return Err(Error::FormatError(NOT_UTF8));
    };
    Ok(text)
}

// The number of entries. An entry has at least the four bytes of its length, so a larger count is invalid.
#[tactic(auto, using(claxon_input::proofs::ByteFields::little_numbers), unfolding(claxon_format::specs::read::Comments::count_at, claxon_format::specs::Fault::fault_text))]
fn read_count<R: ReadBytes>(input: &mut R, limit: u32) -> Result<u32>
    ensures gives { Gives (λ x. x) result (count_at limit)
        (bytes_in R.source input.old) (bytes_in R.source input.new) }
    ensures at_most_is_consumed { AtMostIsConsumed R.source 4 input.old input.new }
{
    let count = input.read_le_u32()?;
    if count >= limit {
        return Err(Error::FormatError("too many entries for Vorbis comment block"));
    }
    Ok(count)
}

// The entries of a block, which have to fill exactly `length` bytes.
fn read_entries<R: ReadBytes, A: Allocator + Copy>(
    alloc: A,
    input: &mut R,
    count: u32,
    length: u32,
) -> Result<Vec<(String<A>, usize), A>>
    ensures separators { IfOk result (λ comments. HaveSeparatorIndices comments.items) }
    ensures gives { GivesOrOutOfMemory (λ comments. entries_view comments.items) result
        (entries_at count length) (bytes_in R.source input.old) (bytes_in R.source input.new) }
    ensures at_most_is_consumed { AtMostIsConsumed R.source length input.old input.new }
{
    let mut comments = Vec::new(alloc);
    let mut missing = count;
    let mut bytes_left = length;
    while missing > 0 && bytes_left >= 4 {
        let entry_length = read_length(input, bytes_left - 4, ENTRY_TOO_LONG)?;
        if let Some(entry) = read_entry_or_empty(alloc, input, entry_length)? {
            comments.push(entry)?;
        }
        missing -= 1;
        bytes_left -= 4 + entry_length;
    }
    check_end(missing, bytes_left)?;
    Ok(comments)
}

// Checks that neither bytes nor entries are left.
#[tactic(auto, unfolding(claxon_format::specs::Fault::fault_text))]
fn check_end(missing: u32, bytes_left: u32) -> Result<()>
    ensures end_is_checked { EndIsChecked missing bytes_left result }
{
    if bytes_left > 0 {
        return Err(Error::FormatError(EXCESS_DATA));
    }
    if missing > 0 {
        return Err(Error::FormatError("Vorbis comment block contains wrong number of entries"));
    }
    Ok(())
}

// An entry of `length` bytes. An empty one, as old encoders write them, is None.
#[tactic(auto, unfolding(claxon_format::specs::read::Comments::entry_or_empty_at))]
fn read_entry_or_empty<R: ReadBytes, A: Allocator>(
    alloc: A,
    input: &mut R,
    length: u32,
) -> Result<Option<(String<A>, usize)>>
    ensures place { IfOk result
        (λ found. IfSome found (λ entry. IsSeparatorIndex (string_bytes entry.0) entry.1)) }
    ensures gives { GivesOrOutOfMemory entry_or_empty_view result (entry_or_empty_at length)
        (bytes_in R.source input.old) (bytes_in R.source input.new) }
    ensures at_most_is_consumed { AtMostIsConsumed R.source length input.old input.new }
{
    if length == 0 {
        return Ok(None);
    }
    Ok(Some(read_entry(alloc, input, length)?))
}

// An entry of `length` bytes, and the index of its first `=`.
#[tactic(auto, unfolding(claxon_format::specs::read::Comments::entry_at, claxon_format::specs::Fault::fault_text))]
fn read_entry<R: ReadBytes, A: Allocator>(
    alloc: A,
    input: &mut R,
    length: u32,
) -> Result<(String<A>, usize)>
    ensures place { IfOk result (λ entry. IsSeparatorIndex (string_bytes entry.0) entry.1) }
    ensures gives { GivesOrOutOfMemory entry_view result (entry_at length)
        (bytes_in R.source input.old) (bytes_in R.source input.new) }
    ensures at_most_is_consumed { AtMostIsConsumed R.source length input.old input.new }
{
    let bytes = read_bytes(alloc, input, length)?;
    let place = separator_of(&bytes)?;
    Ok((text_of(bytes)?, place))
}
