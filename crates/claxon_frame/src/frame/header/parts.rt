//! The parts of a frame header.
ghost use Rattle.std.specs.Prelude.{◌≡◌, ◌≤◌};
ghost use Rattle.std.specs.Option.{ForSome};
ghost use Rattle.claxon_frame.specs.FrameHeader.{
  HasBitDepthCode,
  IsSubframeBitDepth,
  channels_of,
  max_bit_depth,
};

/// What is known of the frames from the streaminfo.
#[derive(Clone, Copy)]
pub struct KnownStreamFormat {
    /// The bit depth where a frame header gives none, 1 to 32.
    pub bit_depth: u32,

    /// The minimum and the maximum block size. If they are equal all blocks but the last have this size.
    pub min_block_size: u16,
    pub max_block_size: u16,
    ghost min_bits: { 1 ≤ bit_depth },
    ghost max_bits: { bit_depth ≤ 32 },
}

/// Whether all blocks but the last have the same size.
#[derive(Clone, Copy)]
pub enum BlockingStrategy {
    Fixed,
    Variable,
}

/// The coded number of a header: that of the frame if the block size is fixed, that of its first sample if it is variable.
#[derive(Clone, Copy)]
pub enum BlockTime {
    FrameNumber(u32),
    SampleNumber(u64),
}

/// The channel assignment: independent channels, or left/side, side/right or mid/side stereo.
#[derive(Clone, Copy)]
pub enum ChannelAssignment {
    Independent(u8),
    LeftSideStereo,
    RightSideStereo,
    MidSideStereo,
}

/// The block size, or the number of bits after the coded number that give it, minus one.
#[derive(Clone, Copy)]
pub enum BlockSize {
    Known(u16),
    Read8,
    Read16,
}

/// A frame header.
#[derive(Clone, Copy)]
pub struct FrameHeader {
    /// The number of samples of each channel before this frame.
    pub time: u64,

    /// The number of samples of each channel in this frame.
    pub block_size: u16,
    pub channel_assignment: ChannelAssignment,
    pub bit_depth: u32,

    /// The bit depth, if the header gives one.
    pub header_bit_depth: Option<u32>,

    /// The sample rate in Hz, if the header gives one.
    pub sample_rate: Option<u32>,
    pub block_time: BlockTime,
    ghost min_size: { 1 ≤ block_size },
    ghost min_channels: { 1 ≤ channels_of channel_assignment },
    ghost max_channels: { channels_of channel_assignment ≤ 8 },
    ghost max_bits: { max_bit_depth channel_assignment bit_depth ≤ 32 },
}

/// The fields of a header before its CRC.
#[derive(Clone, Copy)]
pub struct HeaderFields {
    pub block_time: BlockTime,
    pub block_size: u16,
    pub sample_rate: Option<u32>,
    pub channel_assignment: ChannelAssignment,
    pub bit_depth: Option<u32>,
    ghost min_size: { 1 ≤ block_size },
    ghost min_channels: { 1 ≤ channels_of channel_assignment },
    ghost max_channels: { channels_of channel_assignment ≤ 8 },
    ghost has_code: { ForSome bit_depth HasBitDepthCode },
}

impl ChannelAssignment {
    /// The number of channels.
    pub fn channels(self) -> u8
        requires { channels_of self ≤ 8 }
        ensures { result ≡ channels_of self }
    {
        match self {
            ChannelAssignment::Independent(n) => n,
            _ => 2,
        }
    }

    /// The bit depth of a subframe: that of a side channel has one bit more.
    pub fn bit_depth(self, bit_depth: u32, ch: u8) -> u32
        requires { max_bit_depth self bit_depth ≤ 32 }
        ensures max_bits { result ≤ 32 }
        ensures is_subframe_bit_depth { IsSubframeBitDepth self bit_depth ch result }
    {
        let is_side = match self {
            ChannelAssignment::Independent(_) => false,
            ChannelAssignment::RightSideStereo => ch == 0,
            _ => ch == 1,
        };
        bit_depth + u32::from(is_side)
    }
}
