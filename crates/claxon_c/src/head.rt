//! The head of a stream whose bytes the caller holds and hands in.
ghost use Rattle.std.specs.Prelude.{◌≡◌};
ghost use Rattle.claxon_c.specs.Head.{
  CHeadIsAnswered,
  CHeadTooFarIsUnsupported,
  HeadBegins,
  Keeps,
  ShowsContent,
  shown_metadata,
};

use crate::heads::ClaxonInfo;
use crate::held::{position_fits, report_position};
use crate::metadata::ClaxonMetadata;
use crate::status::{INPUT_ENDS, NEED_MORE, NO_MORE, OK, put_text, report};
use claxon::FlacReaderOptions;
use claxon::metadata::MetadataBlock;
use claxon_stream::{HeadDecoder, HeadEvent, KeptHead, MetadataBlockHeader};
use std::alloc::Global;

// The parts of a head.
const MARKER: u32 = 0;

const HEADER: u32 = 1;

const CONTENT: u32 = 2;

/// The head of a stream.
#[repr(C)]
#[derive(Clone, Copy)]
pub struct ClaxonHead {
    kept: KeptHead,
    /// After `NEED_MORE` how many bytes are needed at least, from the decoder's position on; else 0.
    pub needed: usize,
    /// Which part was read last: 0 for the marker, 1 for the header of a metadata block, 2 for its content.
    pub part: u32,
}

/// Begins with a head at this position of the stream.
#[unsafe(no_mangle)]
pub extern "C" fn claxon_head_start(head: &mut ClaxonHead, position: u64)
    ensures begins { HeadBegins position head.new }
{
    let decoder = HeadDecoder::new(position, FlacReaderOptions::default());
    *head = head_after(decoder, 0, MARKER);
}

/// Reads the next part of the head, by the bytes that are held: from the position `at` of the stream on, and up to its end if
/// `is_end` isn't 0.
#[unsafe(no_mangle)]
pub extern "C" fn claxon_head_next(
    alloc: Global,
    head: &mut ClaxonHead,
    bytes: &[u8],
    at: u64,
    is_end: u32,
    info: &mut ClaxonInfo,
    metadata: &mut ClaxonMetadata,
    error: &mut [u8],
) -> u32
    ensures is_answered { CHeadIsAnswered at bytes.now is_end head.old result head.new
        info.old info.new metadata.old metadata.new error.old error.new }
    ensures too_far_is_unsupported { CHeadTooFarIsUnsupported at bytes.now head.old result head.new
        info.old info.new metadata.old metadata.new error.old error.new }
{
    if !position_fits(at, bytes) {
        return report_position(error);
    }
    let part = head.part;
    let mut decoder = head.kept.decoder();
    match decoder.decode_next(alloc, bytes, at, is_end != 0) {
        Ok(HeadEvent::Marker) => {
            *head = head_after(decoder, 0, MARKER);
            OK
        }
        Ok(HeadEvent::Header(header)) => {
            *head = head_after(decoder, 0, HEADER);
            *metadata = shown_metadata(header);
            OK
        }
        Ok(HeadEvent::Block(block)) => {
            *head = head_after(decoder, 0, CONTENT);
            show_content(&block, info);
            OK
        }
        Ok(HeadEvent::Whole(position)) => {
            *head = head_after(decoder, 0, part);
            info.first_frame = position as usize;
            NO_MORE
        }
        Ok(HeadEvent::Faulty(fault)) => {
            *head = head_after(decoder, 0, part);
            report(&fault.error, error)
        }
        Ok(HeadEvent::Cut(_)) => {
            *head = head_after(decoder, 0, part);
            put_text("the bytes end", error);
            INPUT_ENDS
        }
        Ok(HeadEvent::ReadOn(needed)) => {
            *head = head_after(decoder, needed.count, part);
            NEED_MORE
        }
        Err(fault) => {
            *head = head_after(decoder, 0, part);
            report(&fault, error)
        }
    }
}

fn head_after(decoder: HeadDecoder, needed: usize, part: u32) -> ClaxonHead
    ensures keeps { Keeps decoder needed part result }
{
    ClaxonHead {
        kept: KeptHead::new(decoder),
        needed,
        part,
    }
}

fn shown_metadata(header: MetadataBlockHeader) -> ClaxonMetadata
    ensures { result ≡ shown_metadata header }
{
    ClaxonMetadata {
        content: header.position as usize,
        length: header.length,
        block_type: header.block_type,
        is_last: u8::from(header.is_last),
    }
}

// Shows a streaminfo, or how many tags there are.
fn show_content(block: &MetadataBlock, info: &mut ClaxonInfo)
    ensures { ShowsContent block.now info.old info.new }
{
    match block {
        MetadataBlock::StreamInfo(found) => *info = ClaxonInfo::new(found, 0, 0),
        MetadataBlock::VorbisComment(comment) => info.tags = comment.comments.len(),
        _ => {}
    }
}
