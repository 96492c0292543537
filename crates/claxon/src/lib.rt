//! An exact FLAC decoder.
//!
//! `FlacReader` opens a stream and gives its blocks or its samples. `frame`, `subframe` and `metadata` read the same
//! parts from other containers.
//!
//! # Example
//!
//! ```
//! /// The greatest magnitude of a sample of a file.
//! pub fn peak<Q: Files<File = File> + AllocGlobal>(rt: &Q, name: &str) -> Result<u32> {
//!     let mut flac = FlacReader::open(rt, name)?;
//!     let mut blocks = flac.blocks();
//!     let mut buffer = Vec::new(rt.alloc());
//!     let mut peak = 0;
//!     for _ in 0..u64::MAX {
//!         let Some(block) = blocks.read_next_or_eof(buffer)? else {
//!             break;
//!         };
//!         for ch in 0..block.channels() {
//!             let greatest = block.channel(ch).iter().map(|x| x.unsigned_abs()).max();
//!             peak = peak.max(greatest.unwrap_or(0));
//!         }
//!         buffer = block.into_buffer();
//!     }
//!     Ok(peak)
//! }
//! ```
//!
//! # Damaged streams
//!
//! A frame has a CRC-8 of its header and a CRC-16 of the whole frame, so one damaged bit mostly costs one frame: an
//! `Err`, after which `read_next_or_eof` may be called again and continues at the first byte that wasn't consumed.
//! Where no frame begins there, the next calls fail too, two bytes at a time, until the bytes begin with a frame again:
//! a long stretch of damage is thousands of faults. No call searches for the next frame.
#![tactic(auto)]

mod head;
pub mod interleave;
mod laws;
mod reader;
mod samples;

mod error {
    pub use claxon_input::error::{Error, Result};
}

/// Bytes and bits.
pub mod input {
    pub use claxon_input::input::{Bitstream, BufferedBits, BufferedReader, ReadBytes};
}

/// Readers that compute the CRC of the bytes that are read through them.
pub mod crc {
    pub use claxon_input::crc::{Crc8Reader, Crc16Reader};
}

/// Readers that keep a value of the bytes that are read through them.
pub mod running {
    pub use claxon_input::running::{Running, RunningReader};
}

/// Frames: blocks of samples, one after another.
pub mod frame {
    pub use claxon_frame::frame::{
        Block, BlockInfo, DecodedFrame, DecodedFrameResult, FrameReader, FrameResult, StartedFrame,
        StereoSamples,
    };
}

/// Metadata at the beginning of a stream.
pub mod metadata {
    pub use crate::head::Head;
    pub use claxon_metadata::metadata::{
        GetTag, MetadataBlock, MetadataBlockReader, MetadataBlockResult, SeekPoint, SeekTable,
        StreamInfo, Tags, VorbisComment, read_metadata_block, read_metadata_block_with_header,
    };

    /// Checks of Vorbis comments, which `claxon_c` makes of bytes in memory. Upstream has no such calls.
    pub mod comment_checks {
        pub use claxon_metadata::metadata::comment_checks::{
            BLOCK_TOO_SHORT, ENTRY_TOO_LONG, EXCESS_DATA, NOT_UTF8, VENDOR_TOO_LONG, separator_of,
        };
    }
}

/// Texts of errors, by which callers tell these faults from others.
pub mod fault_texts {
    pub use super::head::ID3_HEADER;
    pub use claxon_frame::frame::{
        FRAME_CRC_MISMATCH, RESERVED_HEADER_VALUE, SIDE_TOO_WIDE, SYNC_CODE_MISSING,
    };
    pub use claxon_metadata::metadata::INVALID_SAMPLE_RATE;
}

/// Subframes: the samples of a channel.
pub mod subframe {
    pub use claxon_subframe::subframe::{decode, extend_sign_u32};
}

pub use error::{Error, Result};
pub use frame::Block;
pub use head::{FlacReaderOptions, read_head};
pub use reader::FlacReader;
pub use samples::FlacSamples;
