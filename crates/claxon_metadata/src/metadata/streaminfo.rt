//! Reads streaminfo blocks.
ghost use Rattle.std.specs.Prelude.{◌≡◌, ◌<◌, ◌≤◌, ◌%◌, map, IfOk, IfSome};
ghost use Rattle.claxon_format.specs.Streaminfo.{frame_sizes_inconsistent};
ghost use Rattle.claxon_format.specs.read.Streaminfo.{
  sizes_at,
  format_at,
  info_of,
  info_fields_at,
  streaminfo_at,
};
ghost use Rattle.claxon_input.specs.State.{bytes_in};
ghost use Rattle.claxon_input.specs.Gives.{Gives};
ghost use Rattle.claxon_metadata.specs.ReadMetadataBlock.{AtMostIsConsumed, StreaminfoIsRead};
ghost use Rattle.claxon_metadata.specs.MetadataBlock.{
  HasBounds,
  format_view,
  info_view,
  or_zero,
  sizes_view,
};

use claxon_input::error::{Error, Result};
use claxon_input::input::ReadBytes;

/// The text of the error for a sample rate of 0, or above 655,350 Hz.
pub const INVALID_SAMPLE_RATE: &str = "invalid sample rate";

/// The streaminfo metadata block, with important information about the stream.
#[derive(Clone, Copy, Debug)]
pub struct StreamInfo {
    /// The minimum number of samples per channel in a block, the last block aside.
    pub min_block_size: u16,
    /// The maximum number of samples per channel in a block.
    pub max_block_size: u16,
    /// The minimum number of bytes of a frame, if it is known.
    pub min_frame_size: Option<u32>,
    /// The maximum number of bytes of a frame, if it is known.
    pub max_frame_size: Option<u32>,
    /// The sample rate in Hz.
    pub sample_rate: u32,
    /// The number of channels.
    pub channels: u32,
    /// The number of bits per sample.
    pub bits_per_sample: u32,
    /// The number of samples of each channel of the stream, if it is known.
    pub samples: Option<u64>,
    /// The MD5 sum of the samples that were encoded. It isn't compared.
    pub md5sum: [u8; 16],
}

// The block and frame sizes of a streaminfo block, as they are written: an unknown frame size is 0.
#[derive(Clone, Copy)]
struct SizeBounds {
    min_block_size: u16,
    max_block_size: u16,
    min_frame_size: u32,
    max_frame_size: u32,
}

#[tactic(auto, using(claxon_input::proofs::ByteFields::numbers), unfolding(claxon_format::specs::read::Streaminfo::sizes_at))]
fn read_size_bounds<R: ReadBytes>(input: &mut R) -> Result<SizeBounds>
    ensures gives { Gives sizes_view result sizes_at
        (bytes_in R.source input.old) (bytes_in R.source input.new) }
    ensures at_most_is_consumed { AtMostIsConsumed R.source 10 input.old input.new }
{
    let min_block_size = input.read_be_u16()?;
    let max_block_size = input.read_be_u16()?;
    let min_frame_size = input.read_be_u24()?;
    let max_frame_size = input.read_be_u24()?;
    Ok(SizeBounds {
        min_block_size,
        max_block_size,
        min_frame_size,
        max_frame_size,
    })
}

// The sample format of a streaminfo block, and the number of samples, which is 0 if it is unknown.
#[derive(Clone, Copy)]
struct SampleFormat {
    sample_rate: u32,
    channels: u32,
    bits_per_sample: u32,
    samples: u64,
}

// 20 bits of the sample rate, 3 of the channels minus one, 5 of the bits per sample minus one, 36 of the number of samples.
#[tactic(auto, using(claxon_input::proofs::ByteFields::numbers), unfolding(claxon_format::specs::read::Streaminfo::format_at))]
fn read_sample_format<R: ReadBytes>(input: &mut R) -> Result<SampleFormat>
    ensures channels { IfOk result (λ format. (1 ≤ format.channels) × (format.channels ≤ 8)) }
    ensures bit_depth { IfOk result
        (λ format. (1 ≤ format.bits_per_sample) × (format.bits_per_sample ≤ 32)) }
    ensures gives { Gives format_view result format_at
        (bytes_in R.source input.old) (bytes_in R.source input.new) }
    ensures at_most_is_consumed { AtMostIsConsumed R.source 8 input.old input.new }
{
    let high = input.read_be_u32()?;
    let low = input.read_be_u32()?;
    Ok(SampleFormat {
        sample_rate: high >> 12,
        channels: (high >> 9 & 7) + 1,
        bits_per_sample: (high >> 4 & 31) + 1,
        samples: u64::from(high & 15) << 32 | u64::from(low),
    })
}

// The fields of a streaminfo block, not yet validated.
#[tactic(auto, using(claxon_input::proofs::ByteFields::buffers), unfolding(claxon_format::specs::read::Streaminfo::info_fields_at, claxon_format::specs::read::Streaminfo::md5_at))]
fn read_streaminfo_fields<R: ReadBytes>(input: &mut R) -> Result<StreamInfo>
    ensures bounds { IfOk result (λ info. HasBounds info) }
    ensures gives { Gives info_view result info_fields_at
        (bytes_in R.source input.old) (bytes_in R.source input.new) }
    ensures at_most_is_consumed { AtMostIsConsumed R.source 34 input.old input.new }
{
    let sizes = read_size_bounds(input)?;
    let format = read_sample_format(input)?;
    let mut md5sum = [0; 16];
    input.read_into(&mut md5sum)?;
    Ok(stream_info(sizes, format, &md5sum))
}

fn stream_info(sizes: SizeBounds, format: SampleFormat, md5sum: &[u8; 16]) -> StreamInfo
    requires channels { (1 ≤ format.channels) × (format.channels ≤ 8) }
    requires bit_depth { (1 ≤ format.bits_per_sample) × (format.bits_per_sample ≤ 32) }
    ensures has_bounds { HasBounds result }
    ensures value { info_view result ≡ info_of (sizes_view sizes) (format_view format)
        (map (λ byte. byte % 256) md5sum.now) }
{
    StreamInfo {
        min_block_size: sizes.min_block_size,
        max_block_size: sizes.max_block_size,
        min_frame_size: if_known(sizes.min_frame_size),
        max_frame_size: if_known(sizes.max_frame_size),
        sample_rate: format.sample_rate,
        channels: format.channels,
        bits_per_sample: format.bits_per_sample,
        samples: if format.samples == 0 {
            None
        } else {
            Some(format.samples)
        },
        md5sum: *md5sum,
    }
}

/// Reads the content of a streaminfo block of this length.
#[tactic(auto, unfolding(claxon_format::specs::read::MetadataBlocks::info_body_at, claxon_format::specs::Fault::fault_text))]
pub fn read_streaminfo_block<R: ReadBytes>(input: &mut R, length: u32) -> Result<StreamInfo>
    ensures bounds { IfOk result (λ info. HasBounds info) }
    ensures is_read { StreaminfoIsRead R.source length input.old result input.new }
    ensures at_most_is_consumed { AtMostIsConsumed R.source length input.old input.new }
{
    if length != 34 {
        return Err(Error::FormatError("invalid streaminfo metadata block length"));
    }
    read_streaminfo(input)
}

#[tactic(auto, unfolding(claxon_format::specs::read::Streaminfo::streaminfo_at, claxon_format::specs::Fault::fault_text))]
fn read_streaminfo<R: ReadBytes>(input: &mut R) -> Result<StreamInfo>
    ensures bounds { IfOk result (λ info. HasBounds info) }
    ensures gives { Gives info_view result streaminfo_at
        (bytes_in R.source input.old) (bytes_in R.source input.new) }
    ensures at_most_is_consumed { AtMostIsConsumed R.source 34 input.old input.new }
{
    let info = read_streaminfo_fields(input)?;
    if info.min_block_size > info.max_block_size {
        return Err(Error::FormatError("inconsistent bounds, min block size > max block size"));
    }
    if info.min_block_size < 16 {
        return Err(Error::FormatError("invalid block size, must be at least 16"));
    }
    if are_frame_sizes_inconsistent(&info) {
        return Err(Error::FormatError("inconsistent bounds, min frame size > max frame size"));
    }
    if info.sample_rate == 0 || info.sample_rate > 655_350 {
        return Err(Error::FormatError(INVALID_SAMPLE_RATE));
    }
    Ok(info)
}

// A frame size of 0 is an unknown one.
fn if_known(size: u32) -> Option<u32>
    ensures value { or_zero result ≡ size }
    ensures some { IfSome result (λ n. 0 < n) }
{
    if size == 0 { None } else { Some(size) }
}

// Whether both frame sizes are known, and the minimum is above the maximum.
fn are_frame_sizes_inconsistent(info: &StreamInfo) -> bool
    requires has_bounds { HasBounds info.now }
    ensures { result ≡ frame_sizes_inconsistent (info_view info.now) }
{
    match (info.min_frame_size, info.max_frame_size) {
        (Some(least), Some(greatest)) => least > greatest,
        _ => false,
    }
}
