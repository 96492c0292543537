//! The head of a stream, of which a metadata block that isn't supported is passed over.
ghost use Rattle.std.specs.Prelude.{◌≡◌, ◌<◌, ◌^◌, IfOk, IfSome, None};
ghost use Rattle.claxon.specs.Gives.{Gives, GivesOrOutOfMemory};
ghost use Rattle.claxon.specs.Heads.{stream_marker};
ghost use Rattle.claxon.specs.MetadataBlock.{HasBounds, MayRunOutOfMemory};
ghost use Rattle.claxon.specs.State.{bytes_in};
ghost use Rattle.claxon.specs.read.Heads.{marker_at};
ghost use Rattle.claxon.specs.read.Metadata.{block_header_at};
ghost use Rattle.claxon_heads.specs.StreamHead.{
  FoundHasBounds,
  FoundHeadElseIoError,
  FoundFaultIsComplete,
  FoundFaultIsSound,
  FoundHeadIsComplete,
  FoundHeadIsRead,
  FoundHeadIsSound,
  HeadNeedsMemory,
  IsInfoOf,
  IsErrorOfBytes,
  NeedsMemory,
  NeedsMemoryAfterBlocks,
  OutOfMemoryOnlyWhere,
  TellsWhy,
  are_found_comments,
  found_block_at,
  found_block_view,
  found_blocks_at,
  found_content_at,
  found_head_at,
  found_head_view,
  found_content_view,
  header_read,
  is_found_info,
  left_at,
  none_seen,
  other_found_at,
  seen_after,
  unsupported_in,
};
ghost use Rattle.claxon_heads.specs.BytesRead.{counted_bytes};

use crate::BytesRead;
use claxon::fault_texts::ID3_HEADER;
use claxon::input::ReadBytes;
use claxon::metadata::comment_checks::{EXCESS_DATA, NOT_UTF8};
use claxon::metadata::{MetadataBlock, StreamInfo, read_metadata_block};
use claxon::running::RunningReader;
use claxon::{Error, Result};
use std::alloc::Allocator;

/// Why a metadata block is passed over. Other decoders accept it, and the frames may be right.
#[derive(Clone, Copy, Debug)]
pub enum UnsupportedBlock {
    /// It is a second Vorbis comment block.
    SecondComments,
    /// A tag or the vendor string isn't UTF-8.
    NotUtf8,
    /// A tag has no `=`.
    NoSeparator,
    /// The name of a tag has a byte other than 0x20 to 0x7d.
    FieldName,
    /// Bytes are left after the last tag.
    BytesLeft,
    /// It is a Vorbis comment block of more than 10 MiB.
    LargeComments,
    /// It is an application block of more than 10 MiB.
    LargeApplication,
}

// The greatest number of metadata blocks after the streaminfo, as `claxon::read_head` has it.
const MAX_OTHER_BLOCKS: u32 = 65535;

// The header of a block.
#[derive(Clone, Copy)]
struct BlockHeader {
    is_last: bool,
    block_type: u8,
    length: u32,
}

// What was found of a block.
#[derive(Drop)]
enum Found<A: Allocator> {
    // Its content, which was read.
    Read(MetadataBlock<A>),
    // Why it is passed over.
    PassedOver(UnsupportedBlock),
}

// What was seen of the blocks so far.
#[derive(Clone, Copy)]
struct Seen {
    // Comments were read.
    has_comments: bool,
    // The first thing that isn't supported.
    unsupported: Option<UnsupportedBlock>,
}

/// Reads the head of a stream: its streaminfo, and the first thing that isn't supported of the blocks after it.
///
/// # Errors
///
/// Those of `claxon::read_head`, but for what is passed over.
pub fn read_head<R: ReadBytes, A: Allocator + Copy>(
    alloc: A,
    input: &mut RunningReader<R, BytesRead>,
) -> Result<(StreamInfo, Option<UnsupportedBlock>)>
    // What it returns, and consumes.
    ensures is_sound { FoundHeadIsSound (counted_bytes R.source input.old) result
        (counted_bytes R.source input.new) }
    ensures is_complete { FoundHeadIsComplete (counted_bytes R.source input.old) result
        (counted_bytes R.source input.new) }
    ensures fault_is_sound { FoundFaultIsSound (counted_bytes R.source input.old) result
        (counted_bytes R.source input.new) }
    ensures fault_is_complete { FoundFaultIsComplete (counted_bytes R.source input.old) result
        (counted_bytes R.source input.new) }
    ensures else_io_error { FoundHeadElseIoError (counted_bytes R.source input.old) result
        (counted_bytes R.source input.new) }
    // What holds of it, and what callers' proofs need.
    ensures has_bounds { IfOk result (λ found. HasBounds found.0) }
    ensures out_of_memory { OutOfMemoryOnlyWhere HeadNeedsMemory result
        (counted_bytes R.source input.old) }
    // By the format's reader on lists.
    ensures is_read { FoundHeadIsRead (counted_bytes R.source input.old) result
        (counted_bytes R.source input.new) }
{
    read_head_exact(alloc, input)
}

// `read_head`, with its exact clause.
fn read_head_exact<R: ReadBytes, A: Allocator + Copy>(
    alloc: A,
    input: &mut RunningReader<R, BytesRead>,
) -> Result<(StreamInfo, Option<UnsupportedBlock>)>
    ensures has_bounds { IfOk result (λ found. HasBounds found.0) }
    ensures out_of_memory { OutOfMemoryOnlyWhere HeadNeedsMemory result
        (counted_bytes R.source input.old) }
    ensures gives { GivesOrOutOfMemory found_head_view result found_head_at
        (counted_bytes R.source input.old) (counted_bytes R.source input.new) }
{
    read_marker(input)?;
    let (is_last, first) = read_block(alloc, input)?;
    let Some(info) = info_of(first) else {
        return Err(Error::FormatError("streaminfo block missing"));
    };
    if is_last {
        return Ok((info, None));
    }
    let unsupported = read_other_blocks(alloc, input)?;
    Ok((info, unsupported))
}

#[tactic(auto, using(claxon_input::proofs::ByteFields::first_number), unfolding(claxon_format::specs::read::Heads::marker_at, claxon_format::specs::Fault::fault_text))]
fn read_marker<R: ReadBytes>(input: &mut R) -> Result<()>
    ensures gives { Gives (λ x. stream_marker) result marker_at
        (bytes_in R.source input.old) (bytes_in R.source input.new) }
{
    let marker = input.read_be_u32()?;
    if marker == 0x664c_6143 {
        return Ok(());
    }
    if marker >> 8 == 0x49_4433 {
        return Err(Error::FormatError(ID3_HEADER));
    }
    Err(Error::FormatError("invalid stream header"))
}

// The streaminfo, if it is one.
fn info_of<A: Allocator>(found: Found<A>) -> Option<StreamInfo>
    requires { FoundHasBounds found }
    ensures is_info { IsInfoOf (found_content_view found) result }
    ensures has_bounds { IfSome result HasBounds }
{
    match found {
        Found::Read(MetadataBlock::StreamInfo(info)) => Some(info),
        _ => None,
    }
}

// The blocks after the streaminfo: the first thing that isn't supported.
fn read_other_blocks<R: ReadBytes, A: Allocator + Copy>(
    alloc: A,
    input: &mut RunningReader<R, BytesRead>,
) -> Result<Option<UnsupportedBlock>>
    ensures out_of_memory { OutOfMemoryOnlyWhere NeedsMemoryAfterBlocks result
        (counted_bytes R.source input.old) }
    ensures gives { GivesOrOutOfMemory (λ x. x) result (found_blocks_at 65535 none_seen)
        (counted_bytes R.source input.old) (counted_bytes R.source input.new) }
{
    let mut seen = Seen {
        has_comments: false,
        unsupported: None,
    };
    let mut most = MAX_OTHER_BLOCKS;
    while most > 0 {
        let (is_last, next) = read_other_block(alloc, input, seen)?;
        seen = next;
        if is_last {
            return Ok(seen.unsupported);
        }
        most -= 1;
    }
    Err(Error::Unsupported("more than 65536 metadata blocks are not supported"))
}

// One of these blocks: whether it is marked as last, and what was seen up to it.
fn read_other_block<R: ReadBytes, A: Allocator + Copy>(
    alloc: A,
    input: &mut RunningReader<R, BytesRead>,
    seen: Seen,
) -> Result<(bool, Seen)>
    ensures out_of_memory { OutOfMemoryOnlyWhere NeedsMemory result
        (counted_bytes R.source input.old) }
    ensures gives { GivesOrOutOfMemory (λ x. x) result (other_found_at seen)
        (counted_bytes R.source input.old) (counted_bytes R.source input.new) }
{
    let (is_last, block) = read_block(alloc, input)?;
    if is_info(&block) {
        return Err(Error::FormatError("encountered second streaminfo block"));
    }
    Ok((is_last, seen.with(&block)))
}

impl Seen {
    // With one block more.
    #[tactic(auto, unfolding(crate::specs::StreamHead::seen_after))]
    fn with<A: Allocator>(self, block: &Found<A>) -> Seen
        ensures { result ≡ seen_after self (found_content_view block.now) }
    {
        let has_comments = are_comments(block);
        let unsupported = unsupported_in(self.has_comments, block);
        Seen {
            has_comments: self.has_comments || has_comments,
            unsupported: self.unsupported.or(unsupported),
        }
    }
}

// What isn't supported of a block, where comments were read before it or not.
fn unsupported_in<A: Allocator>(has_comments: bool, block: &Found<A>) -> Option<UnsupportedBlock>
    ensures { result ≡ unsupported_in has_comments (found_content_view block.now) }
{
    match block {
        Found::Read(_) => {
            if has_comments && are_comments(block) {
                return Some(UnsupportedBlock::SecondComments);
            }
            None
        }
        Found::PassedOver(why) => Some(*why),
    }
}

fn is_info<A: Allocator>(block: &Found<A>) -> bool
    ensures { result ≡ is_found_info (found_content_view block.now) }
{
    matches!(block, Found::Read(MetadataBlock::StreamInfo(_)))
}

fn are_comments<A: Allocator>(block: &Found<A>) -> bool
    ensures { result ≡ are_found_comments (found_content_view block.now) }
{
    matches!(block, Found::Read(MetadataBlock::VorbisComment(_)))
}

// A block, and its last-block flag.
fn read_block<R: ReadBytes, A: Allocator + Copy>(
    alloc: A,
    input: &mut RunningReader<R, BytesRead>,
) -> Result<(bool, Found<A>)>
    ensures has_bounds { IfOk result (λ found. FoundHasBounds found.1) }
    ensures out_of_memory { OutOfMemoryOnlyWhere NeedsMemory result
        (counted_bytes R.source input.old) }
    ensures gives { GivesOrOutOfMemory found_block_view result found_block_at
        (counted_bytes R.source input.old) (counted_bytes R.source input.new) }
{
    let header = read_block_header(input)?;
    let block = read_content(alloc, input, header.block_type, header.length)?;
    Ok((header.is_last, block))
}

#[tactic(auto, using(claxon_input::proofs::ByteFields::numbers), unfolding(claxon_format::specs::read::Metadata::block_header_at))]
fn read_block_header<R: ReadBytes>(input: &mut R) -> Result<BlockHeader>
    ensures gives { Gives header_read result block_header_at
        (bytes_in R.source input.old) (bytes_in R.source input.new) }
{
    let first = input.read_u8()?;
    let length = input.read_be_u24()?;
    Ok(BlockHeader {
        is_last: first >= 128,
        block_type: first % 128,
        length,
    })
}

// The content of a block of this type and length, which is passed over where it isn't supported.
fn read_content<R: ReadBytes, A: Allocator + Copy>(
    alloc: A,
    input: &mut RunningReader<R, BytesRead>,
    block_type: u8,
    length: u32,
) -> Result<Found<A>>
    ensures has_bounds { IfOk result FoundHasBounds }
    ensures out_of_memory { OutOfMemoryOnlyWhere (MayRunOutOfMemory block_type length) result
        (counted_bytes R.source input.old) }
    ensures gives { GivesOrOutOfMemory found_content_view result (found_content_at block_type length)
        (counted_bytes R.source input.old) (counted_bytes R.source input.new) }
{
    let start = input.value().bytes;
    let error = match read_metadata_block(alloc, input, block_type, length) {
        Ok(block) => return Ok(Found::Read(block)),
        Err(error) => error,
    };
    let Some(why) = unsupported_by(&error) else {
        return Err(error);
    };
    let left = left_at(length, start, input.value().bytes);
    input.skip(left)?;
    Ok(Found::PassedOver(why))
}

// How many bytes of content are left at the position `end`, where it began at `start`.
fn left_at(length: u32, start: u64, end: u64) -> u32
    ensures fits { start < 2 ^ 64 }
    ensures is_left { result ≡ left_at length start end }
{
    let read = end.wrapping_sub(start);
    u64::from(length).saturating_sub(read) as u32
}

// Why content with this error is passed over, if it is.
fn unsupported_by(error: &Error) -> Option<UnsupportedBlock>
    ensures tells_why { TellsWhy error.now result }
    ensures is_error_of_bytes { IsErrorOfBytes error.now result }
{
    match error {
        Error::FormatError(NOT_UTF8) => Some(UnsupportedBlock::NotUtf8),
        Error::FormatError("Vorbis comment does not contain '='") => {
            Some(UnsupportedBlock::NoSeparator)
        }
        Error::FormatError("Vorbis comment field name contains invalid byte") => {
            Some(UnsupportedBlock::FieldName)
        }
        Error::FormatError(EXCESS_DATA) => Some(UnsupportedBlock::BytesLeft),
        Error::Unsupported("Vorbis comment blocks larger than 10 MiB are not supported") => {
            Some(UnsupportedBlock::LargeComments)
        }
        Error::Unsupported("application blocks larger than 10 MiB are not supported") => {
            Some(UnsupportedBlock::LargeApplication)
        }
        _ => None,
    }
}
