//! The `metadata` module deals with metadata at the beginning of a FLAC stream.
ghost use Rattle.std.specs.Prelude.{◌≡◌, ◌≤◌, false, IfOk, vec_len};
ghost use Rattle.claxon_format.specs.MetadataBlocks.{skipped};
ghost use Rattle.claxon_format.specs.read.MetadataBlocks.{application_at, block_at};
ghost use Rattle.claxon_format.specs.read.Bytes.{bytes_at};
ghost use Rattle.claxon_format.specs.Metadata.{max_content_bytes};
ghost use Rattle.claxon_format.specs.read.Metadata.{block_header_at};
ghost use Rattle.claxon_input.specs.Promises.{IsOutOfMemory};
ghost use Rattle.claxon_input.specs.State.{bytes_in};
ghost use Rattle.claxon_input.specs.Gives.{Gives, GivesOrOutOfMemory};
ghost use Rattle.claxon_metadata.specs.ReadMetadataBlock.{
  AtMostIsConsumed,
  AtMostBlockIsConsumed,
  MetadataBlockFaultIsSound,
  MetadataBlockIsRead,
  ResultHasBounds,
  MetadataBlockIsSound,
  ContentFaultIsSound,
  ContentIsRead,
  ContentOutOfMemoryAfterLengths,
  ContentIsSound,
  MetadataBlockFaultIsComplete,
  MetadataBlockIsComplete,
  ContentFaultIsComplete,
  ContentIsComplete,
  MetadataBlockAndFlagIsRead,
  MetadataBlockElseIoError,
  ContentElseIoError,
  MetadataBlockLeavesRest,
};
ghost use Rattle.claxon_metadata.specs.MetadataBlock.{
  BlockHasBounds,
  OutOfMemoryAfterBlockHeader,
  content_at,
  content_view,
  header_view,
};

mod comment;
pub mod comment_checks;
mod streaminfo;
mod tags;

use claxon_input::error::{Error, Result};
use claxon_input::input::ReadBytes;
use comment::read_vorbis_comment_block;
use std::alloc::{Allocator, Global};
use streaminfo::read_streaminfo_block;
pub use streaminfo::{INVALID_SAMPLE_RATE, StreamInfo};
pub use tags::{GetTag, Tags};

/// The length in bytes of the longest block that is read into memory.
const MAX_BLOCK_LENGTH: u32 = 10 * 1024 * 1024;

#[derive(Clone, Copy)]
struct MetadataBlockHeader {
    is_last: bool,
    block_type: u8,
    length: u32,
}

/// A seek point in the seek table.
#[derive(Clone, Copy)]
pub struct SeekPoint {
    /// The number of the first sample of the frame, or 2^64 - 1 for a placeholder.
    pub sample: u64,
    /// The number of bytes from the first frame's header to this frame's.
    pub offset: u64,
    /// The number of samples per channel in the frame.
    pub samples: u16,
}

/// A seek table. None is read yet: its block is returned as padding.
#[derive(Drop)]
pub struct SeekTable<A: Allocator = Global> {
    #[allow(dead_code)]
    seekpoints: Vec<SeekPoint, A>,
}

/// Vorbis comments, also known as FLAC tags: artist, title and so on.
#[derive(Drop)]
pub struct VorbisComment<A: Allocator = Global> {
    /// The vendor string, which names the program that wrote the stream.
    pub vendor: String<A>,
    /// Each entry as the text `NAME=value` and the index of its first `=`.
    ///
    /// In an entry that was read from a stream the name has only bytes from 0x20 to 0x7d. Names
    /// are case-insensitive, and a name may occur more than once: `GetTag` looks one up.
    pub comments: Vec<(String<A>, usize), A>,
}

/// A block of metadata.
#[derive(Drop)]
pub enum MetadataBlock<A: Allocator = Global> {
    /// A streaminfo block.
    StreamInfo(StreamInfo),
    /// A block whose bytes are skipped: padding, a seek table, a cue sheet or a picture.
    Padding {
        /// The number of bytes.
        length: u32,
    },
    /// An application block.
    Application {
        /// The registered application ID.
        id: u32,
        /// The application data.
        bytes: Vec<u8, A>,
    },
    /// A seek table. It is never returned.
    SeekTable(SeekTable<A>),
    /// A Vorbis comment block, also known as FLAC tags.
    VorbisComment(VorbisComment<A>),
    /// A cue sheet. It is never returned.
    CueSheet,
    /// A picture. It is never returned.
    Picture,
    /// A block of a reserved type.
    Reserved,
}

/// Either a `MetadataBlock` or an `Error`.
pub type MetadataBlockResult<A = Global> = Result<MetadataBlock<A>>;

// The header of a block: its last-block flag, its type and its length.
#[tactic(auto, using(claxon_input::proofs::ByteFields::numbers), unfolding(claxon_format::specs::read::Metadata::block_header_at))]
fn read_metadata_block_header<R: ReadBytes>(input: &mut R) -> Result<MetadataBlockHeader>
    ensures gives { Gives header_view result block_header_at
        (bytes_in R.source input.old) (bytes_in R.source input.new) }
    ensures at_most_is_consumed { AtMostIsConsumed R.source 4 input.old input.new }
{
    let first = input.read_u8()?;
    let length = input.read_be_u24()?;
    Ok(MetadataBlockHeader {
        is_last: first >= 128,
        block_type: first % 128,
        length,
    })
}

// A block, and its last-block flag.
#[tactic(auto, unfolding(claxon_format::specs::read::MetadataBlocks::block_at))]
pub fn read_metadata_block_and_flag<R: ReadBytes, A: Allocator + Copy>(
    alloc: A,
    input: &mut R,
) -> Result<(bool, MetadataBlock<A>)>
    ensures bounds { IfOk result (λ found. BlockHasBounds found.1) }
    ensures out_of_memory_after_block_header { OutOfMemoryAfterBlockHeader result
        (bytes_in R.source input.old) }
    ensures is_read { MetadataBlockAndFlagIsRead R.source input.old result input.new }
    ensures at_most_block_is_consumed { AtMostBlockIsConsumed R.source input.old input.new }
{
    let header = read_metadata_block_header(input)?;
    let block = read_metadata_block_exact(alloc, input, header.block_type, header.length)?;
    Ok((header.is_last, block))
}

/// Reads a metadata block with its header, as Ogg embeds them.
///
/// An Ok consumes just the block. An Err may have consumed some of its bytes, but no more than the header and the length that
/// it gives.
///
/// # Errors
///
/// Those of `read_metadata_block`.
pub fn read_metadata_block_with_header<R: ReadBytes, A: Allocator + Copy>(
    alloc: A,
    input: &mut R,
) -> Result<MetadataBlock<A>>
    ensures has_bounds { ResultHasBounds result }
    ensures out_of_memory_after_block_header { OutOfMemoryAfterBlockHeader result
        (bytes_in R.source input.old) }
    ensures is_sound { MetadataBlockIsSound R.source input.old result input.new }
    ensures is_complete { MetadataBlockIsComplete R.source input.old result input.new }
    ensures fault_is_sound { MetadataBlockFaultIsSound R.source input.old result input.new }
    ensures fault_is_complete { MetadataBlockFaultIsComplete R.source input.old result input.new }
    ensures else_io_error { MetadataBlockElseIoError R.source input.old result input.new }
    ensures leaves_rest { MetadataBlockLeavesRest R.source input.old result input.new }
    ensures is_read { MetadataBlockIsRead R.source input.old result input.new }
    ensures at_most_block_is_consumed { AtMostBlockIsConsumed R.source input.old input.new }
{
    read_metadata_block_with_header_exact(alloc, input)
}

#[tactic(auto, unfolding(crate::specs::MetadataBlock::content_at))]
fn read_metadata_block_with_header_exact<R: ReadBytes, A: Allocator + Copy>(
    alloc: A,
    input: &mut R,
) -> Result<MetadataBlock<A>>
    ensures has_bounds { ResultHasBounds result }
    ensures out_of_memory_after_block_header { OutOfMemoryAfterBlockHeader result
        (bytes_in R.source input.old) }
    ensures is_read { MetadataBlockIsRead R.source input.old result input.new }
    ensures at_most_block_is_consumed { AtMostBlockIsConsumed R.source input.old input.new }
{
    let (_, block) = read_metadata_block_and_flag(alloc, input)?;
    Ok(block)
}

/// Reads the content of a metadata block of this type and length (in bytes), as MP4 embeds them.
///
/// The input is to begin after the block's header. An Ok consumes just the content. Seek tables,
/// cue sheets and pictures are skipped and returned as padding.
///
/// # Errors
///
/// `FormatError` if the block is invalid, `Unsupported` if it is too large, `IoError` if the
/// input ends or fails, `OutOfMemory` if memory for texts or application data is refused. An Err
/// may have consumed some of the block's bytes, `length` at most.
pub fn read_metadata_block<R: ReadBytes, A: Allocator + Copy>(
    alloc: A,
    input: &mut R,
    block_type: u8,
    length: u32,
) -> Result<MetadataBlock<A>>
    ensures has_bounds { ResultHasBounds result }
    ensures out_of_memory_after_lengths { ContentOutOfMemoryAfterLengths R.source block_type length
        input.old result }
    ensures is_sound { ContentIsSound R.source block_type length input.old result input.new }
    ensures is_complete { ContentIsComplete R.source block_type length input.old result input.new }
    ensures fault_is_sound { ContentFaultIsSound R.source block_type length input.old result
        input.new }
    ensures fault_is_complete { ContentFaultIsComplete R.source block_type length input.old result
        input.new }
    ensures else_io_error { ContentElseIoError R.source block_type length input.old result
        input.new }
    ensures leaves_rest { MetadataBlockLeavesRest R.source input.old result input.new }
    ensures is_read { ContentIsRead R.source block_type length input.old result input.new }
    ensures at_most_is_consumed { AtMostIsConsumed R.source length input.old input.new }
{
    read_metadata_block_exact(alloc, input, block_type, length)
}

#[tactic(auto, using(claxon_input::proofs::ByteFields::most_refused))]
fn read_metadata_block_exact<R: ReadBytes, A: Allocator + Copy>(
    alloc: A,
    input: &mut R,
    block_type: u8,
    length: u32,
) -> Result<MetadataBlock<A>>
    ensures has_bounds { ResultHasBounds result }
    ensures out_of_memory_after_lengths { ContentOutOfMemoryAfterLengths R.source block_type length
        input.old result }
    ensures is_read { ContentIsRead R.source block_type length input.old result input.new }
    ensures at_most_is_consumed { AtMostIsConsumed R.source length input.old input.new }
{
    match block_type {
        0 => Ok(MetadataBlock::StreamInfo(read_streaminfo_block(input, length)?)),
        2 => read_application_block(alloc, input, length),
        4 => {
            let comment = read_vorbis_comment_block(alloc, input, length)?;
            Ok(MetadataBlock::VorbisComment(comment))
        }
        127 => Err(Error::FormatError("invalid metadata block type")),
        _ => {
            input.skip(length)?;
            Ok(skipped_block(block_type, length))
        }
    }
}

// What is returned for a block whose content is skipped.
fn skipped_block<A: Allocator>(block_type: u8, length: u32) -> MetadataBlock<A>
    ensures block_has_bounds { BlockHasBounds result }
    ensures value { content_view result ≡ skipped block_type length }
{
    match block_type {
        1 | 3 | 5 | 6 => MetadataBlock::Padding { length },
        _ => MetadataBlock::Reserved,
    }
}

// The application ID and the application data.
#[tactic(auto, using(claxon_input::proofs::ByteFields::numbers), unfolding(claxon_format::specs::read::MetadataBlocks::application_at, claxon_format::specs::Fault::fault_text))]
fn read_application_block<R: ReadBytes, A: Allocator>(
    alloc: A,
    input: &mut R,
    length: u32,
) -> Result<MetadataBlock<A>>
    ensures has_bounds { ResultHasBounds result }
    ensures is_out_of_memory { IsOutOfMemory result → (4 ≤ length) × (length ≤ max_content_bytes) }
    ensures gives { GivesOrOutOfMemory content_view result (application_at length)
        (bytes_in R.source input.old) (bytes_in R.source input.new) }
    ensures at_most_is_consumed { AtMostIsConsumed R.source length input.old input.new }
{
    if length < 4 {
        return Err(Error::FormatError("application block length must be at least 4 bytes"));
    }
    if length > MAX_BLOCK_LENGTH {
        return Err(Error::Unsupported("application blocks larger than 10 MiB are not supported"));
    }
    let id = input.read_be_u32()?;
    let bytes = read_bytes(alloc, input, length - 4)?;
    Ok(MetadataBlock::Application { id, bytes })
}

// Allocates the memory before the bytes are read, so callers have to limit the count.
#[tactic(auto, using(claxon_input::proofs::ByteFields::buffers))]
fn read_bytes<R: ReadBytes, A: Allocator>(alloc: A, input: &mut R, count: u32) -> Result<Vec<u8, A>>
    ensures length { IfOk result (λ bytes. vec_len bytes ≡ count) }
    ensures gives { GivesOrOutOfMemory (λ bytes. bytes.items) result (bytes_at count)
        (bytes_in R.source input.old) (bytes_in R.source input.new) }
    ensures at_most_is_consumed { AtMostIsConsumed R.source count input.old input.new }
{
    let mut bytes = Vec::new(alloc);
    bytes.resize(count as usize, 0)?;
    input.read_into(&mut bytes)?;
    Ok(bytes)
}

/// Reads metadata blocks one after another, up to the one with the last-block flag.
///
/// After an Err and after the last block it returns None and reads nothing. The number of blocks
/// isn't limited.
///
/// ```
/// for block in MetadataBlockReader::new(alloc, &mut input).take(1000) {
///     match block? {
///         MetadataBlock::StreamInfo(info) => rate = info.sample_rate,
///         MetadataBlock::Padding { length } => unread += u64::from(length),
///         _ => {}
///     }
/// }
/// ```
#[derive(Drop)]
pub struct MetadataBlockReader<R: ReadBytes, A: Allocator = Global> {
    alloc: A,
    input: R,
    done: bool,
}

impl<R: ReadBytes, A: Allocator + Copy> MetadataBlockReader<R, A> {
    ghost use Rattle.claxon_metadata.specs.MetadataBlockReader.{
      ReadsBlock,
      reader_input,
      has_ended,
    };

    /// Reads blocks from the current position of the input, where a block's header is to be.
    pub fn new(alloc: A, input: R) -> MetadataBlockReader<R, A>
        ensures input { reader_input result ≡ input }
        ensures not_ended { has_ended result ≡ false }
    {
        MetadataBlockReader {
            alloc,
            input,
            done: false,
        }
    }

    fn read_next(&mut self) -> MetadataBlockResult<A>
        ensures reads_block { ReadsBlock R.source self.old result self.new }
    {
        match read_metadata_block_and_flag(self.alloc, &mut self.input) {
            Ok((is_last, block)) => {
                self.done = is_last;
                Ok(block)
            }
            Err(error) => {
                self.done = true;
                Err(error)
            }
        }
    }
}

impl<R: ReadBytes + Drop, A: Allocator + Copy> Iterator for MetadataBlockReader<R, A> {
    ghost use Rattle.std.specs.Iterator.{UpTo, at_most, endless};
    ghost use Rattle.std.specs.Iterator.SizeHint.{IsWithinCount};
    ghost use Rattle.std.specs.Prelude.{if◌then◌else◌, None, Some, IfSome};
    ghost use Rattle.claxon_metadata.specs.MetadataBlockReader.{ReaderStep, has_ended};

    type Item = MetadataBlockResult<A>;

    ghost next_gives = { ReaderStep R.source };

    ghost remaining = { λ s. if has_ended s then at_most 0 else endless };

    fn next(&mut self) -> Option<MetadataBlockResult<A>> {
        if self.done {
            return None;
        }
        Some(self.read_next())
    }

    fn size_hint(&self) -> (usize, Option<usize>)
        ensures exact { result ≡ (if has_ended self.now then (0, Some 0) else (1, None)) }
        ensures lower { IsWithinCount result.0 (if has_ended self.now then at_most 0 else endless) }
        ensures upper { IfSome result.1 (UpTo (if has_ended self.now then at_most 0 else endless)) }
    {
        if self.done { (0, Some(0)) } else { (1, None) }
    }
}
