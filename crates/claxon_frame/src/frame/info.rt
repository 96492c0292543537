//! What the header of a frame says of its block.
ghost use Rattle.std.specs.Prelude.{◌≡◌};
ghost use Rattle.claxon_frame.specs.BlockInfo.{HasBlockBounds, HeaderInfoIsRead, info_of_header};
ghost use Rattle.claxon_frame.specs.FrameStart.{stream_format_view};

use crate::frame::header::{BlockTime, FrameHeader, KnownStreamFormat};
use crate::frame::started::read_started_or_eof;
use claxon_input::error::Result;
use claxon_input::input::ReadBytes;

/// What the header of a frame says of its block.
#[derive(Clone, Copy, Debug)]
pub struct BlockInfo {
    /// The number of samples of each channel before the block.
    pub time: u64,

    /// The number of channels, 1 to 8.
    pub channels: u32,

    /// The number of samples of each channel, 1 to 65,535.
    pub duration: u32,

    /// The bit depth: that of the stream where the header gives none.
    pub bit_depth: u32,

    /// The bit depth, if the header gives one; else it is that of the stream.
    pub header_bit_depth: Option<u32>,

    /// The sample rate in Hz, if the header gives one; else it is that of the stream.
    pub sample_rate: Option<u32>,

    /// Whether the block size may vary: the blocking strategy.
    pub is_variable: bool,

    /// The coded number: that of the frame, or with a variable block size that of its first sample.
    pub number: u64,
}

impl BlockInfo {
    pub(super) fn new(header: &FrameHeader) -> BlockInfo
        ensures { result ≡ info_of_header header.now }
    {
        let (is_variable, number) = match header.block_time {
            BlockTime::FrameNumber(number) => (false, u64::from(number)),
            BlockTime::SampleNumber(number) => (true, number),
        };
        BlockInfo {
            time: header.time,
            channels: u32::from(header.channel_assignment.channels()),
            duration: u32::from(header.block_size),
            bit_depth: header.bit_depth,
            header_bit_depth: header.header_bit_depth,
            sample_rate: header.sample_rate,
            is_variable,
            number,
        }
    }
}

// What the header of the next frame says. None if fewer than two bytes were left, which are consumed.
pub(super) fn read_block_info_or_eof<R: ReadBytes>(
    input: &mut R,
    stream: Option<KnownStreamFormat>,
) -> Result<Option<BlockInfo>>
    ensures is_read { HeaderInfoIsRead R.source (stream_format_view stream)
        input.old result input.new }
    ensures has_block_bounds { HasBlockBounds result }
{
    let Some(started) = read_started_or_eof(input, stream)? else {
        return Ok(None);
    };
    Ok(Some(started.info()))
}
