//! Frames whose header was read.
ghost use Rattle.std.specs.Prelude.{◌≡◌, ◌<◌, ◌≤◌, IfErr, false};
ghost use Rattle.claxon_input.specs.Error.{is_out_of_memory};
ghost use Rattle.claxon_frame.specs.FrameStart.{stream_format_view};
ghost use Rattle.claxon_frame.specs.StartedFrame.{StartedIsRead, started_info};

use crate::frame::header::{FrameHeader, KnownStreamFormat, read_frame_header_or_eof};
use crate::frame::info::BlockInfo;
use claxon_input::crc::Crc16Reader;
use claxon_input::error::Result;
use claxon_input::input::ReadBytes;

/// A frame whose header was read. `FrameReader::read_rest` decodes the rest.
#[derive(Clone, Copy)]
pub struct StartedFrame {
    pub(super) header: FrameHeader,

    // The CRC-16 of the header's bytes.
    pub(super) crc: u16,
}

impl StartedFrame {
    /// What the header says of the block.
    pub fn info(self) -> BlockInfo
        ensures says { result ≡ started_info self }
        ensures min_channels { 1 ≤ result.channels }
        ensures max_channels { result.channels ≤ 8 }
        ensures min_duration { 1 ≤ result.duration }
        ensures max_duration { result.duration < 65536 }
    {
        BlockInfo::new(&self.header)
    }
}

/// Reads the header of the next frame. None if fewer than two bytes were left, which are consumed.
pub fn read_started_or_eof<R: ReadBytes>(
    input: &mut R,
    stream: Option<KnownStreamFormat>,
) -> Result<Option<StartedFrame>>
    ensures is_read { StartedIsRead R.source (stream_format_view stream)
        input.old result input.new }
    ensures no_memory { IfErr result (λ error. is_out_of_memory error ≡ false) }
{
    let mut input = Crc16Reader::new(input);
    let Some(header) = read_frame_header_or_eof(&mut input, stream)? else {
        return Ok(None);
    };
    let crc = input.value();
    Ok(Some(StartedFrame { header, crc }))
}
