//! The contents of two kinds of metadata blocks: a streaminfo, and Vorbis comments.
ghost use Rattle.std.specs.Prelude.{◌≡◌, ◌⊎◌, ◌<◌, IfOk, length};
ghost use Rattle.claxon.specs.MetadataBlocks.{Comments, Info};
ghost use Rattle.claxon.specs.MetadataBlock.{HasBounds, content_view, info_view};
ghost use Rattle.claxon.specs.ReadMetadataBlock.{ResultHasBounds};
ghost use Rattle.claxon.specs.VorbisComment.{comment_view};
ghost use Rattle.claxon_c.specs.Contents.{
  BodyIsRead,
  CContentElseIoError,
  CContentFaultIsComplete,
  CContentFaultIsSound,
  CStreaminfoIsComplete,
  CStreaminfoIsSound,
  CStreaminfoNeverOutOfMemory,
  CVendorIsComplete,
  CVendorIsSound,
  CVendorOutOfMemoryAfterLengths,
  VendorIsKept,
  comment_type,
  streaminfo_type,
};
ghost use Rattle.claxon_c.specs.HeadCalls.{InfoIsKept};
ghost use Rattle.claxon_c.specs.Status.{TextIsReported};

use crate::heads::ClaxonInfo;
use crate::status::{OK, report};
use claxon::metadata::{MetadataBlock, StreamInfo, VorbisComment, read_metadata_block};
use claxon::{Error, Result};
use std::alloc::Global;
use std::io::Cursor;

const STREAMINFO: u8 = 0;

const VORBIS_COMMENT: u8 = 4;

// The position of the vendor string, after its length.
const VENDOR_POSITION: usize = 4;

/// Reads the content of a streaminfo block.
#[unsafe(no_mangle)]
pub extern "C" fn claxon_streaminfo(
    alloc: Global,
    content: &[u8],
    info: &mut ClaxonInfo,
    error: &mut [u8],
) -> u32
    ensures is_sound { CStreaminfoIsSound content.now result info.new }
    ensures is_complete { CStreaminfoIsComplete content.now result info.new }
    ensures fault_is_sound { CContentFaultIsSound streaminfo_type content.now result error.old
        error.new }
    ensures fault_is_complete { CContentFaultIsComplete streaminfo_type content.now result error.old
        error.new }
    ensures else_io_error { CContentElseIoError streaminfo_type content.now result }
    ensures never_out_of_memory { CStreaminfoNeverOutOfMemory content.now result }
    ensures text_is_reported { TextIsReported result error.old error.new }
    ensures info_is_kept { InfoIsKept result info.old info.new }
{
    match read_streaminfo(alloc, content) {
        Ok(found) => {
            *info = ClaxonInfo::new(&found, 0, 0);
            OK
        }
        Err(fault) => report(&fault, error),
    }
}

/// Reads the content of a Vorbis comment block, and finds its vendor string.
#[unsafe(no_mangle)]
pub extern "C" fn claxon_vendor(
    alloc: Global,
    content: &[u8],
    vendor_at: &mut usize,
    vendor_length: &mut usize,
    tags: &mut usize,
    error: &mut [u8],
) -> u32
    ensures is_sound { CVendorIsSound content.now result vendor_at.new vendor_length.new tags.new }
    ensures is_complete { CVendorIsComplete content.now result
        vendor_at.new vendor_length.new tags.new }
    ensures fault_is_sound { CContentFaultIsSound comment_type content.now result error.old
        error.new }
    ensures fault_is_complete { CContentFaultIsComplete comment_type content.now result error.old
        error.new }
    ensures else_io_error { CContentElseIoError comment_type content.now result }
    ensures out_of_memory_after_lengths { CVendorOutOfMemoryAfterLengths content.now result }
    ensures text_is_reported { TextIsReported result error.old error.new }
    ensures vendor_is_kept { VendorIsKept result (vendor_at.old, vendor_length.old, tags.old)
        (vendor_at.new, vendor_length.new, tags.new) }
{
    match read_comment(alloc, content) {
        Ok(found) => {
            *vendor_at = VENDOR_POSITION;
            *vendor_length = found.vendor.len();
            *tags = found.comments.len();
            OK
        }
        Err(fault) => report(&fault, error),
    }
}

fn read_streaminfo(alloc: Global, content: &[u8]) -> Result<StreamInfo>
    ensures bounds { IfOk result (λ found. HasBounds found) }
    ensures is_read { BodyIsRead (λ found. Info (info_view found)) streaminfo_type content.now
        result }
{
    let block = read_body(alloc, STREAMINFO, content)?;
    if let MetadataBlock::StreamInfo(found) = block {
        return Ok(found);
    }
    Err(Error::FormatError("invalid metadata block type"))
}

fn read_comment(alloc: Global, content: &[u8]) -> Result<VorbisComment>
    ensures is_read { BodyIsRead (λ found. Comments (comment_view found)) comment_type content.now
        result }
{
    let block = read_body(alloc, VORBIS_COMMENT, content)?;
    if let MetadataBlock::VorbisComment(found) = block {
        return Ok(found);
    }
    Err(Error::FormatError("invalid metadata block type"))
}

// The content of a block of one of these two types.
fn read_body(alloc: Global, block_type: u8, content: &[u8]) -> Result<MetadataBlock>
    requires { (block_type ≡ streaminfo_type) ⊎ (block_type ≡ comment_type) }
    ensures has_bounds { ResultHasBounds result }
    ensures is_read { BodyIsRead content_view block_type content.now result }
{
    // A greater length is refused like the greatest that is a u32.
    let length = content.len().min(u32::MAX as usize) as u32;
    read_metadata_block(alloc, &mut Cursor::new(content), block_type, length)
}
