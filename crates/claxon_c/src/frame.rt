//! A frame that was decoded, as C is shown it.
ghost use Rattle.std.specs.Prelude.{◌≡◌};
ghost use Rattle.claxon_c.specs.ShownFrame.{no_frame, said_of, shown_frame};

use claxon::frame::BlockInfo;

/// A frame that was decoded: where it stands in its stream, and how it is numbered.
#[repr(C)]
#[derive(Clone, Copy)]
pub struct ClaxonFrame {
    /// The position of its first byte.
    pub position: u64,
    /// The position after its last byte.
    pub end: u64,
    /// The coded number: that of the frame, or with a variable block size that of its first sample.
    pub number: u64,
    /// The number of samples of each channel.
    pub duration: u32,
    /// 1 if the header says that the block size may vary, else 0.
    pub is_variable: u32,
}

impl ClaxonFrame {
    // No frame.
    pub(crate) fn none() -> ClaxonFrame
        ensures { result ≡ no_frame }
    {
        ClaxonFrame {
            position: 0,
            end: 0,
            number: 0,
            duration: 0,
            is_variable: 0,
        }
    }

    // The frame between these positions, with this header.
    pub(crate) fn new(position: u64, end: u64, info: &BlockInfo) -> ClaxonFrame
        ensures { result ≡ shown_frame position end info.now }
    {
        ClaxonFrame {
            position,
            end,
            number: info.number,
            duration: info.duration,
            is_variable: u32::from(info.is_variable),
        }
    }

    // What it says of its header.
    pub(crate) fn said(&self) -> BlockInfo
        ensures { result ≡ said_of self.now }
    {
        BlockInfo {
            time: 0,
            channels: 0,
            duration: self.duration,
            bit_depth: 0,
            header_bit_depth: None,
            sample_rate: None,
            is_variable: self.is_variable != 0,
            number: self.number,
        }
    }
}
