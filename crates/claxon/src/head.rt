//! The head of a stream: its marker and metadata blocks (RFC 9639, sections 6 and 8).
ghost use Rattle.std.specs.Prelude.{◌≡◌, IfOk, IfSome, true, false, None};
ghost use Rattle.claxon_format.specs.read.Heads.{head_at, marker_at, others_at};
ghost use Rattle.claxon_format.specs.Heads.{stream_marker};
ghost use Rattle.claxon_input.specs.State.{bytes_in};
ghost use Rattle.claxon_input.specs.Gives.{Gives, GivesOrOutOfMemory};
ghost use Rattle.claxon_metadata.specs.MetadataBlock.{BlockHasBounds, OutOfMemoryAfterBlockHeader};
ghost use Rattle.claxon_metadata.specs.TagEntries.{HaveSeparatorIndices};
ghost use Rattle.claxon.specs.ReadHead.{
  CommentHasSeparatorIndices,
  CommentsAreFound,
  HeadFaultIsComplete,
  HeadIsComplete,
  HeadFaultIsSound,
  HeadHasCommentIfRead,
  HeadIsRead,
  HeadLeavesRest,
  HeadOutOfMemoryAfterHeader,
  HeadIsSound,
  InfoHasBounds,
  HeadElseIoError,
  OutOfMemoryAfterBlocks,
  found_view,
  head_view,
  max_other_blocks,
  other_at,
  other_view,
  options_view,
};

mod shown;

use crate::error::{Error, Result};
use crate::input::ReadBytes;
use claxon_metadata::metadata::{
    MetadataBlock, StreamInfo, VorbisComment, read_metadata_block_and_flag,
};
pub use shown::Head;
use std::alloc::Allocator;

/// The text of the error for a stream with an ID3v2 tag in front of it.
pub const ID3_HEADER: &str = "stream starts with ID3 header rather than FLAC header";

/// Which metadata a `FlacReader` reads when it is made.
///
/// - To read the streaminfo alone, set `metadata_only` to true and `read_vorbis_comment` to false.
/// - To read the streaminfo and the tags alone, set both to true.
///
/// A reader made with `metadata_only` can't give samples.
#[derive(Copy, Clone, Debug, Eq, PartialEq)]
pub struct FlacReaderOptions {
    /// Whether to stop once the requested metadata was read. It saves reads where no samples are needed.
    ///
    /// Defaults to false.
    pub metadata_only: bool,

    /// Whether to keep the tags and the vendor string. If not, none are shown, even where the stream has them.
    ///
    /// Defaults to true.
    pub read_vorbis_comment: bool,
}

impl Default for FlacReaderOptions {
    ghost is_default = { λ o. (o.metadata_only ≡ false) × (o.read_vorbis_comment ≡ true) };

    fn default() -> FlacReaderOptions {
        FlacReaderOptions {
            metadata_only: false,
            read_vorbis_comment: true,
        }
    }
}

// The greatest number of metadata blocks of a stream, the streaminfo included. The format sets no limit.
const MAX_BLOCKS: u32 = 65536;

/// Reads the head of a stream, and returns its streaminfo and, where requested and present, its Vorbis comments.
///
/// The options say which blocks are read; the input is then at the first frame, if all were. Over a `Cursor` the
/// position is then that of the bytes after the head, where some follow. (RFC 9639, sections 6 and 8.)
///
/// # Errors
///
/// Those of `FlacReader::new`. After an error a prefix of the remaining bytes is consumed.
pub fn read_head<R: ReadBytes, A: Allocator + Copy>(
    alloc: A,
    input: &mut R,
    options: FlacReaderOptions,
) -> Result<(StreamInfo, Option<VorbisComment<A>>)>
    // What it returns, and consumes.
    ensures is_sound { HeadIsSound R.source options input.old result input.new }
    ensures is_complete { HeadIsComplete R.source options input.old result input.new }
    ensures fault_is_sound { HeadFaultIsSound R.source options input.old result input.new }
    ensures fault_is_complete { HeadFaultIsComplete R.source options input.old result input.new }
    ensures else_io_error { HeadElseIoError R.source options input.old result input.new }
    ensures leaves_rest { HeadLeavesRest R.source input.old result input.new }
    // What holds of it.
    ensures has_bounds { InfoHasBounds result }
    ensures has_separator_indices { CommentHasSeparatorIndices result }
    ensures has_comment_if_read { HeadHasCommentIfRead options.read_vorbis_comment result }
    // Memory.
    ensures out_of_memory_after_header { HeadOutOfMemoryAfterHeader R.source input.old result }
    // What callers' proofs need.
    ensures is_read { HeadIsRead R.source options input.old result input.new }
{
    read_head_exact(alloc, input, options)
}

// `read_head`, with its exact clause.
fn read_head_exact<R: ReadBytes, A: Allocator + Copy>(
    alloc: A,
    input: &mut R,
    options: FlacReaderOptions,
) -> Result<(StreamInfo, Option<VorbisComment<A>>)>
    ensures has_bounds { InfoHasBounds result }
    ensures has_separator_indices { CommentHasSeparatorIndices result }
    ensures has_comment_if_read { HeadHasCommentIfRead options.read_vorbis_comment result }
    ensures out_of_memory_after_header { HeadOutOfMemoryAfterHeader R.source input.old result }
    ensures gives { GivesOrOutOfMemory head_view result (head_at (options_view options))
        (bytes_in R.source input.old) (bytes_in R.source input.new) }
{
    read_stream_header(input)?;
    let (is_last, first) = read_metadata_block_and_flag(alloc, input)?;
    let MetadataBlock::StreamInfo(info) = first else {
        return Err(Error::FormatError("streaminfo block missing"));
    };
    if is_last || (options.metadata_only && !options.read_vorbis_comment) {
        return Ok((info, None));
    }
    let comment = read_other_blocks(alloc, input, options.metadata_only)?;
    if options.read_vorbis_comment {
        Ok((info, comment))
    } else {
        Ok((info, None))
    }
}

#[tactic(auto, using(claxon_input::proofs::ByteFields::first_number), unfolding(claxon_format::specs::read::Heads::marker_at, claxon_format::specs::Fault::fault_text))]
fn read_stream_header<R: ReadBytes>(input: &mut R) -> Result<()>
    ensures gives { Gives (λ x. stream_marker) result marker_at
        (bytes_in R.source input.old) (bytes_in R.source input.new) }
{
    let marker = input.read_be_u32()?;
    if marker == 0x664c_6143 {
        return Ok(());
    }
    if marker >> 8 == 0x49_4433 {
        return Err(Error::FormatError(ID3_HEADER));
    }
    Err(Error::FormatError("invalid stream header"))
}

// The blocks after the streaminfo, up to the one marked as last, or up to the comments if these suffice.
fn read_other_blocks<R: ReadBytes, A: Allocator + Copy>(
    alloc: A,
    input: &mut R,
    comments_suffice: bool,
) -> Result<Option<VorbisComment<A>>>
    ensures places { IfOk result (λ found.
        IfSome found (λ comment. HaveSeparatorIndices comment.comments.items)) }
    ensures out_of_memory_after_blocks { OutOfMemoryAfterBlocks result
        (bytes_in R.source input.old) }
    ensures gives { GivesOrOutOfMemory found_view result
        (others_at comments_suffice max_other_blocks None)
        (bytes_in R.source input.old) (bytes_in R.source input.new) }
{
    let mut found = None;
    let mut most = MAX_BLOCKS - 1;
    while most > 0 {
        let (is_last, with_block) = read_other_block(alloc, input, found)?;
        found = with_block;
        if is_last || (comments_suffice && found.is_some()) {
            return Ok(found);
        }
        most -= 1;
    }
    Err(Error::Unsupported("more than 65536 metadata blocks are not supported"))
}

// One of these blocks: whether it is marked as last, and the comments found so far.
fn read_other_block<R: ReadBytes, A: Allocator + Copy>(
    alloc: A,
    input: &mut R,
    found: Option<VorbisComment<A>>,
) -> Result<(bool, Option<VorbisComment<A>>)>
    requires { IfSome found (λ comment. HaveSeparatorIndices comment.comments.items) }
    ensures places { IfOk result (λ other.
        IfSome other.1 (λ comment. HaveSeparatorIndices comment.comments.items)) }
    ensures out_of_memory_after_block_header { OutOfMemoryAfterBlockHeader result
        (bytes_in R.source input.old) }
    ensures gives { GivesOrOutOfMemory other_view result (other_at (found_view found))
        (bytes_in R.source input.old) (bytes_in R.source input.new) }
{
    let (is_last, block) = read_metadata_block_and_flag(alloc, input)?;
    Ok((is_last, comments_with(block, found)?))
}

// The comments found so far, with those of this block.
fn comments_with<A: Allocator>(
    block: MetadataBlock<A>,
    found: Option<VorbisComment<A>>,
) -> Result<Option<VorbisComment<A>>>
    requires block_has_bounds { BlockHasBounds block }
    requires found { IfSome found (λ comment. HaveSeparatorIndices comment.comments.items) }
    ensures places { IfOk result (λ known.
        IfSome known (λ comment. HaveSeparatorIndices comment.comments.items)) }
    ensures are_found { CommentsAreFound found block result }
{
    match block {
        MetadataBlock::StreamInfo(_) => {
            Err(Error::FormatError("encountered second streaminfo block"))
        }
        MetadataBlock::VorbisComment(comment) => {
            if found.is_some() {
                return Err(Error::FormatError("encountered second Vorbis comment block"));
            }
            Ok(Some(comment))
        }
        _ => Ok(found),
    }
}
