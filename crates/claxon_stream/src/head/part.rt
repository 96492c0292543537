//! The parts of a head: its marker, and of each metadata block the header and the content (RFC 9639, sections 6 and 8).
ghost use Rattle.std.specs.Prelude.{◌≡◌, length};
ghost use Rattle.claxon.specs.Heads.{stream_marker};
ghost use Rattle.claxon.specs.read.Heads.{marker_at};
ghost use Rattle.claxon.specs.read.Metadata.{block_header_at};
ghost use Rattle.claxon.specs.Gives.{Gives};
ghost use Rattle.claxon.specs.MetadataBlock.{BlockHasBounds, content_view};
ghost use Rattle.claxon.specs.MetadataBlocks.{skipped};
ghost use Rattle.claxon.specs.ReadMetadataBlock.{ResultHasBounds};
ghost use Rattle.claxon.specs.State.{bytes_in};
ghost use Rattle.claxon_stream.specs.HeadPart.{
  ContentIsReadAs,
  PartHasBounds,
  PartIsReadAs,
  ReadsAs,
  content_needs,
  content_rest_at,
  header_view,
  is_passed,
  next_header_at,
  part_needs,
  passed_bytes,
};

use super::rules::Rules;
use claxon::fault_texts::ID3_HEADER;
use claxon::input::ReadBytes;
use claxon::metadata::{MetadataBlock, read_metadata_block};
use claxon::{Error, Result};
use std::alloc::Allocator;
use std::io::Cursor;

// A longer content of an application or a Vorbis comment block is a fault: 10 MiB.
const MAX_CONTENT: u32 = 10 * 1024 * 1024;

// The header of a metadata block.
#[repr(C)]
#[derive(Clone, Copy, Debug)]
pub(crate) struct BlockHeader {
    pub(crate) is_last: bool,
    pub(crate) block_type: u8,
    pub(crate) length: u32,
}

// What comes next in a head.
#[derive(Clone, Copy, Debug)]
pub(crate) enum NextPart {
    Marker,
    Header,
    // The content of the block with this header: of one that is passed just its last byte, which shows that the stream has all of it.
    Content(BlockHeader),
    // The head is whole.
    End,
}

// What was read of it.
#[derive(Drop)]
pub(crate) enum FoundPart<A: Allocator> {
    Marker,
    Header(BlockHeader),
    Block(MetadataBlock<A>),
    End,
}

// The part that the bytes begin with.
pub(crate) fn part_at_start<A: Allocator + Copy>(
    alloc: A,
    bytes: &[u8],
    next: NextPart,
    rules: Rules,
) -> Result<FoundPart<A>>
    ensures is_read { PartIsReadAs next rules bytes.now result }
    ensures has_bounds { PartHasBounds result }
{
    match next {
        NextPart::Marker => {
            marker_at_start(bytes)?;
            Ok(FoundPart::Marker)
        }
        NextPart::Header => Ok(FoundPart::Header(header_at_start(bytes, rules)?)),
        NextPart::Content(header) => {
            let block = content_at_start(alloc, bytes, header.block_type, header.length)?;
            Ok(FoundPart::Block(rules.check(block)?))
        }
        NextPart::End => Ok(FoundPart::End),
    }
}

// How many bytes of it are needed: 0 where its length is a fault.
pub(crate) fn needed_bytes(next: NextPart, rules: Rules) -> usize
    ensures { result ≡ part_needs next rules }
{
    match next {
        NextPart::Marker => 4,
        NextPart::Header => { if rules.allow_more() { 4 } else { 0 } }
        NextPart::Content(header) => needed_content(header.block_type, header.length) as usize,
        NextPart::End => 0,
    }
}

fn needed_content(block_type: u8, length: u32) -> u32
    ensures { result ≡ content_needs block_type length }
{
    if is_passed(block_type) {
        return length.min(1);
    }
    if block_type == 127 || length > MAX_CONTENT || (block_type == 0 && length != 34) {
        return 0;
    }
    length
}

// Whether the content of blocks of this type is passed: whatever it is, it is skipped.
fn is_passed(block_type: u8) -> bool
    ensures { result ≡ is_passed block_type }
{
    block_type != 0 && block_type != 2 && block_type != 4 && block_type != 127
}

// How many bytes of a content aren't read.
pub(crate) fn passed_bytes(header: BlockHeader) -> u32
    ensures { result ≡ passed_bytes header.block_type header.length }
{
    if is_passed(header.block_type) {
        header.length - header.length.min(1)
    } else {
        0
    }
}

fn marker_at_start(bytes: &[u8]) -> Result<()>
    ensures { ReadsAs ⊥ (λ x. stream_marker) result (marker_at bytes.now) }
{
    read_marker(&mut Cursor::new(bytes))
}

#[tactic(auto, using(crate::proofs::HeadReading::byte_numbers), unfolding(claxon_format::specs::read::Heads::marker_at, claxon_format::specs::Fault::fault_text))]
fn read_marker<R: ReadBytes>(input: &mut R) -> Result<()>
    ensures gives { Gives (λ x. stream_marker) result marker_at
        (bytes_in R.source input.old) (bytes_in R.source input.new) }
{
    let marker = input.read_be_u32()?;
    if marker == 0x664c_6143 {
        return Ok(());
    }
    if marker >> 8 == 0x49_4433 {
        return Err(Error::FormatError(ID3_HEADER));
    }
    Err(Error::FormatError("invalid stream header"))
}

fn header_at_start(bytes: &[u8], rules: Rules) -> Result<BlockHeader>
    ensures { ReadsAs ⊥ header_view result (next_header_at rules bytes.now) }
{
    if !rules.allow_more() {
        return Err(Error::Unsupported("more than 65536 metadata blocks are not supported"));
    }
    read_header(&mut Cursor::new(bytes))
}

#[tactic(auto, using(crate::proofs::HeadReading::byte_numbers), unfolding(claxon_format::specs::read::Metadata::block_header_at))]
fn read_header<R: ReadBytes>(input: &mut R) -> Result<BlockHeader>
    ensures gives { Gives header_view result block_header_at
        (bytes_in R.source input.old) (bytes_in R.source input.new) }
{
    let first = input.read_u8()?;
    let length = input.read_be_u24()?;
    Ok(BlockHeader {
        is_last: first >= 128,
        block_type: first % 128,
        length,
    })
}

// The content of a block, of which the bytes hold what isn't passed.
fn content_at_start<A: Allocator + Copy>(
    alloc: A,
    bytes: &[u8],
    block_type: u8,
    length: u32,
) -> Result<MetadataBlock<A>>
    ensures is_read { ContentIsReadAs block_type length bytes.now result }
    ensures has_bounds { ResultHasBounds result }
{
    let mut input = Cursor::new(bytes);
    if is_passed(block_type) {
        input.skip(length.min(1))?;
        return Ok(passed_block(block_type, length));
    }
    read_metadata_block(alloc, &mut input, block_type, length)
}

// What is answered for a block whose content is passed, as `read_metadata_block` returns it.
fn passed_block<A: Allocator>(block_type: u8, length: u32) -> MetadataBlock<A>
    ensures value { content_view result ≡ skipped block_type length }
    ensures has_bounds { BlockHasBounds result }
{
    match block_type {
        1 | 3 | 5 | 6 => MetadataBlock::Padding { length },
        _ => MetadataBlock::Reserved,
    }
}
