//! The head of a stream.
ghost use Rattle.std.specs.Prelude.{◌≡◌, IfSome};
ghost use Rattle.claxon.specs.ReadHead.{found_view};
ghost use Rattle.claxon.specs.ShownHead.{HasBitDepth};
ghost use Rattle.claxon_c.specs.Info.{InfoShows, known_info};
ghost use Rattle.claxon_c.specs.HeadCalls.{
  CHeadFaultIsComplete,
  COpenIsComplete,
  CHeadFaultIsSound,
  COpenIsSound,
  InfoIsKept,
  CHeadElseIoError,
  CHeadOutOfMemoryAfterHeader,
  tag_count,
};
ghost use Rattle.claxon_c.specs.Status.{TextIsReported};

use crate::status::{OK, report};
use claxon::metadata::{StreamInfo, VorbisComment};
use claxon_seek::head_at_start;
use std::alloc::Global;

/// What the head of a stream says, and where its first frame begins.
#[repr(C)]
#[derive(Clone, Copy)]
pub struct ClaxonInfo {
    /// The number of bytes of the head.
    pub first_frame: usize,
    /// The number of tags.
    pub tags: usize,
    /// The number of samples of each channel, or 0 where it isn't known.
    pub samples: u64,
    /// The sample rate in Hz.
    pub sample_rate: u32,
    /// The number of channels, 1 to 8.
    pub channels: u32,
    /// The number of bits per sample, 1 to 32.
    pub bits_per_sample: u32,
    /// The least number of bytes of a frame, or 0 where it isn't known.
    pub min_frame_size: u32,
    /// The greatest number of bytes of a frame, or 0 where it isn't known.
    pub max_frame_size: u32,
    /// The least number of samples of a channel in a block, except the last block.
    pub min_block_size: u16,
    /// The greatest number of samples of a channel in a block.
    pub max_block_size: u16,
    /// The MD5 sum of the samples, or zeros where it isn't known.
    pub md5: [u8; 16],
}

impl ClaxonInfo {
    pub(crate) fn new(found: &StreamInfo, tags: usize, first_frame: usize) -> ClaxonInfo
        ensures shows { InfoShows found.now tags first_frame result }
    {
        ClaxonInfo {
            first_frame,
            tags,
            samples: found.samples.unwrap_or(0),
            sample_rate: found.sample_rate,
            channels: found.channels,
            bits_per_sample: found.bits_per_sample,
            min_frame_size: found.min_frame_size.unwrap_or(0),
            max_frame_size: found.max_frame_size.unwrap_or(0),
            min_block_size: found.min_block_size,
            max_block_size: found.max_block_size,
            md5: found.md5sum,
        }
    }

    // What it says of the stream. A bit depth out of range says that nothing is known of the stream.
    pub(crate) fn known_stream(&self) -> Option<StreamInfo>
        ensures bit_depth { IfSome result (λ info. HasBitDepth info) }
        ensures is_known { result ≡ known_info self.now }
    {
        if self.bits_per_sample < 1 || self.bits_per_sample > 32 {
            return None;
        }
        Some(StreamInfo {
            min_block_size: self.min_block_size,
            max_block_size: self.max_block_size,
            min_frame_size: None,
            max_frame_size: None,
            sample_rate: self.sample_rate,
            channels: self.channels,
            bits_per_sample: self.bits_per_sample,
            samples: if self.samples == 0 {
                None
            } else {
                Some(self.samples)
            },
            md5sum: self.md5,
        })
    }
}

fn count_tags(comment: &Option<VorbisComment>) -> usize
    ensures { result ≡ tag_count (found_view comment.now) }
{
    match comment {
        Some(comment) => comment.comments.len(),
        None => 0,
    }
}

/// Reads the head that the bytes begin with.
#[unsafe(no_mangle)]
pub extern "C" fn claxon_open(
    alloc: Global,
    bytes: &[u8],
    info: &mut ClaxonInfo,
    error: &mut [u8],
) -> u32
    ensures is_sound { COpenIsSound bytes.now result info.new }
    ensures is_complete { COpenIsComplete bytes.now result info.new }
    ensures fault_is_sound { CHeadFaultIsSound bytes.now result error.old error.new }
    ensures fault_is_complete { CHeadFaultIsComplete bytes.now result error.old error.new }
    ensures else_io_error { CHeadElseIoError bytes.now result }
    ensures out_of_memory_after_header { CHeadOutOfMemoryAfterHeader bytes.now result }
    ensures text_is_reported { TextIsReported result error.old error.new }
    ensures info_is_kept { InfoIsKept result info.old info.new }
{
    let mut taken = 0;
    match head_at_start(alloc, bytes, &mut taken) {
        Ok((found, comment)) => {
            *info = ClaxonInfo::new(&found, count_tags(&comment), taken);
            OK
        }
        Err(fault) => report(&fault, error),
    }
}
