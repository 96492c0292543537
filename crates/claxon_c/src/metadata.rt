//! Metadata blocks, one after another.
ghost use Rattle.std.specs.Prelude.{◌≡◌, ◌≤◌, ◌+◌, take, drop, length};
ghost use Rattle.claxon.specs.Bits.{bits, bits_of};
ghost use Rattle.claxon_c.specs.NextMetadata.{
  CMetadataIffHeaderIsLeft,
  CMetadataInputEndsElse,
  CMetadataIsComplete,
  CMetadataIsSound,
  MetadataIsKept,
  header_length,
};

use crate::status::{INPUT_ENDS, OK};

// The number of bytes of a header.
const HEADER_LENGTH: usize = 4;

/// What the header of a metadata block says, and where the block's content stands.
#[repr(C)]
#[derive(Clone, Copy)]
pub struct ClaxonMetadata {
    /// The position of the content.
    pub content: usize,
    /// The number of bytes of the content.
    pub length: u32,
    /// The type of the block.
    pub block_type: u8,
    /// 1 if it is the last block, else 0.
    pub is_last: u8,
}

/// Reads the header of the metadata block at the position, and moves the position after the block.
#[unsafe(no_mangle)]
pub extern "C" fn claxon_next_metadata(
    bytes: &[u8],
    at: &mut usize,
    metadata: &mut ClaxonMetadata,
) -> u32
    ensures is_sound { CMetadataIsSound bytes.now at.old result at.new metadata.new }
    ensures is_complete { CMetadataIsComplete bytes.now at.old result at.new metadata.new }
    ensures iff_header_is_left { CMetadataIffHeaderIsLeft bytes.now at.old result }
    ensures input_ends_else { CMetadataInputEndsElse bytes.now at.old result }
    ensures metadata_is_kept { MetadataIsKept result at.old at.new metadata.old metadata.new }
{
    let from = *at;
    if bytes.len().saturating_sub(from) < HEADER_LENGTH {
        return INPUT_ENDS;
    }
    let header = header_at(bytes, from);
    *metadata = ClaxonMetadata {
        content: from + HEADER_LENGTH,
        length: header % (1 << 24),
        block_type: (header >> 24) as u8 % 128,
        is_last: (header >> 31) as u8,
    };
    *at = metadata.content + metadata.length as usize;
    OK
}

// The bits of the header at this position, as a big-endian number.
fn header_at(bytes: &[u8], at: usize) -> u32
    requires { at + header_length ≤ length bytes.now }
    ensures { bits 32 result ≡ bits_of (take header_length (drop at bytes.now)) }
{
    u32::from_be_bytes([bytes[at], bytes[at + 1], bytes[at + 2], bytes[at + 3]])
}
