//! The next frame of a stream, after any damage, and what it says of the stream.
ghost use Rattle.claxon.specs.ShownHead.{HasBitDepth};
ghost use Rattle.claxon_recovery.specs.NextFrame.{IsInfoOfFrame};
ghost use Rattle.claxon_recovery.specs.Parts.{KeepsStream, parts_memory};

use crate::part::{FrameThere, Part};
use crate::parts::{Parts, too_long};
use claxon::Result;
use claxon::frame::BlockInfo;
use claxon::input::ReadBytes;
use claxon::metadata::StreamInfo;

impl<R: ReadBytes> Parts<R> {
    ghost use Rattle.claxon_recovery.specs.NextFrame.{NextFrameErrIsExcused, NextFrameIsThere};
    ghost use Rattle.claxon_seek.specs.BlockMemory.{MemoryIsCounted};

    /// The next frame, of which no position of the damage before it that was searched begins another; None if there is none up to
    /// the end.
    ///
    /// # Errors
    ///
    /// Those of `next_part`; `Unsupported` if 2^64 - 1 bytes or more are no frame.
    pub fn next_frame(&mut self) -> Result<Option<FrameThere>>
        ensures is_there { NextFrameIsThere R.source self.old self.new result }
        ensures err_is_excused { NextFrameErrIsExcused R.source self.old self.new result }
        ensures memory_is_counted { MemoryIsCounted result
            (parts_memory self.old) (parts_memory self.new) }
        ensures keeps_stream { KeepsStream self.old self.new }
    {
        for _ in 0..u64::MAX {
            match self.next_part()? {
                Some(Part::Frame(there)) => return Ok(Some(there)),
                Some(Part::Damage(_)) => {}
                None => return Ok(None),
            }
        }
        Err(too_long())
    }
}

/// The streaminfo of a stream of which this frame is known: its channels, bit depth and sample rate, which is 0 if the header gives
/// none, and its number of samples as each block size. It says no number of samples, no frame sizes and no MD5 sum.
pub fn info_of_frame(block: &BlockInfo) -> StreamInfo
    ensures is_of_frame { IsInfoOfFrame block.now result }
    ensures has_bit_depth { HasBitDepth result }
{
    let block_size = block.duration.min(65535) as u16;
    StreamInfo {
        min_block_size: block_size,
        max_block_size: block_size,
        min_frame_size: None,
        max_frame_size: None,
        sample_rate: block.sample_rate.unwrap_or(0),
        channels: block.channels,
        bits_per_sample: block.bit_depth.clamp(1, 32),
        samples: None,
        md5sum: [0; 16],
    }
}
