//! The header of a WAV file: all that precedes the samples.
ghost use Rattle.std.specs.Prelude.{
  ◌≡◌,
  ◌≤◌,
  ◌<◌,
  ◌+◌,
  ◌*◌,
  ◌++◌,
  ◌%◌,
  ◌==◌,
  ◌||◌,
  OnErr,
  OnOk,
  length,
  vec_capacity,
  vec_len,
};
ghost use Rattle.claxon_wav.specs.ChannelMask.{default_channel_mask};

use std::alloc::AllocError;

/// The most bytes of samples that a file can hold: the size of all that follows its first eight bytes, which is up to sixty
/// bytes and a pad byte more, has 32 bits.
pub const MAX_DATA_SIZE: u32 = 4_294_967_234;

/// The most bytes of a header.
pub const MAX_HEADER_SIZE: usize = 68;

// The GUID of the PCM subformat.
const PCM_SUBFORMAT: [u8; 16] = [1, 0, 0, 0, 0, 0, 16, 0, 128, 0, 0, 170, 0, 56, 155, 113];

/// The format of the samples of a WAV file.
#[derive(Clone, Copy)]
pub struct Layout {
    channels: u32,
    valid_bits: u32,
    sample_rate: u32,
    channel_mask: u32,
    ghost some_channels: { 1 ≤ channels },
    ghost few_channels: { channels ≤ 8 },
    ghost some_bits: { 1 ≤ valid_bits },
    ghost few_bits: { valid_bits ≤ 32 },
}

impl Layout {
    ghost use Rattle.claxon_wav.specs.DataSize.{max_data_size, max_header_size};
    ghost use Rattle.claxon_wav.specs.WaveFile.{
      FailsAtCapacity,
      IsLayoutOf,
      IsSizeOf,
      PutHeaderIsSound,
      base_format,
      block_align,
      extension,
      format,
      header_bytes,
      is_extensible,
      layout_channels,
      layout_valid_bits,
      sample_size,
      unknown_header,
    };

    /// A layout with this number of channels, of bits per sample, and of samples per second and channel. The channel mask has
    /// a bit for each channel's position; without one the channels are assigned as in a FLAC stream.
    pub fn new(
        channels: u32,
        valid_bits: u32,
        sample_rate: u32,
        channel_mask: Option<u32>,
    ) -> Layout
        requires some_channels { 1 ≤ channels }
        requires few_channels { channels ≤ 8 }
        requires some_bits { 1 ≤ valid_bits }
        requires few_bits { valid_bits ≤ 32 }
        ensures is_layout_of { IsLayoutOf channels valid_bits sample_rate channel_mask result }
    {
        Layout {
            channels,
            valid_bits,
            sample_rate,
            channel_mask: channel_mask.unwrap_or(default_channel_mask(channels)),
        }
    }

    /// The number of channels.
    pub fn channels(&self) -> u32
        ensures { result ≡ layout_channels self.now }
    {
        self.channels
    }

    /// The valid bits per sample, which are the most significant bits of its bytes.
    pub fn valid_bits(&self) -> u32
        ensures value { result ≡ layout_valid_bits self.now }
        ensures some_bits { 1 ≤ result }
        ensures few_bits { result ≤ 32 }
    {
        self.valid_bits
    }

    // The number of bytes of a sample.
    pub(crate) fn sample_size(&self) -> u32
        ensures value { result ≡ sample_size self.now.valid_bits }
        ensures some { 1 ≤ result }
        ensures few { result ≤ 4 }
    {
        self.valid_bits.div_ceil(8)
    }

    /// The number of bytes of one sample of each channel.
    pub fn block_align(&self) -> u32
        ensures value { result ≡ block_align self.now }
        ensures some { 1 ≤ result }
        ensures few { result ≤ 32 }
    {
        self.channels * self.sample_size()
    }

    /// The number of bytes of `count` samples per channel, or None if no WAV file holds them.
    pub fn data_size(&self, count: u64) -> Option<u32>
        ensures is_size_of { IsSizeOf self.now count result }
    {
        let size = count.checked_mul(u64::from(self.block_align()))?;
        if size > u64::from(MAX_DATA_SIZE) {
            return None;
        }
        Some(size as u32)
    }

    fn is_8_or_16_bits(&self) -> bool
        ensures { result ≡ ((self.now.valid_bits == 8) || (self.now.valid_bits == 16)) }
    {
        self.valid_bits == 8 || self.valid_bits == 16
    }

    fn has_mono_or_stereo_mask(&self) -> bool
        ensures { result ≡ ((self.now.channel_mask == 3) || (self.now.channel_mask == 4)) }
    {
        self.channel_mask == 3 || self.channel_mask == 4
    }

    // Whether the format needs a channel mask and valid bits, as in WAVEFORMATEXTENSIBLE.
    fn is_extensible(&self) -> bool
        ensures { result ≡ is_extensible self.now }
    {
        self.channels > 2 || !self.is_8_or_16_bits() || !self.has_mono_or_stereo_mask()
    }

    /// Replaces the bytes by the header for `size` bytes of samples.
    ///
    /// # Errors
    ///
    /// `AllocError` if memory is refused. With capacity for `MAX_HEADER_SIZE` bytes none is asked for.
    pub fn put_header(&self, size: u32, bytes: &mut Vec<u8>) -> Result<(), AllocError>
        requires { size ≤ max_data_size }
        ensures is_sound { PutHeaderIsSound self.now size result bytes.new.items }
        ensures keeps_capacity { vec_capacity bytes.old ≤ vec_capacity bytes.new }
        ensures fails_at_capacity { FailsAtCapacity (vec_capacity bytes.old) result }
    {
        let format_size = self.format_size();
        self.put_sizes(20 + format_size + size + size % 2, size, bytes)
    }

    /// Replaces the bytes by the header for samples of unknown number, up to the end of the file: both sizes are 0xFFFFFFFF.
    pub fn put_unknown_header(&self, bytes: &mut Vec<u8>) -> Result<(), AllocError>
        ensures is_sound { OnOk result (bytes.new.items ≡ unknown_header self.now) }
        ensures keeps_capacity { vec_capacity bytes.old ≤ vec_capacity bytes.new }
        ensures fails_at_capacity { FailsAtCapacity (vec_capacity bytes.old) result }
    {
        self.put_sizes(u32::MAX, u32::MAX, bytes)
    }

    // Replaces the bytes by a header with these sizes, of all that follows the first one and of the samples.
    fn put_sizes(&self, all: u32, size: u32, bytes: &mut Vec<u8>) -> Result<(), AllocError>
        ensures is_sound { OnOk result
            (bytes.new.items ≡ header_bytes (format self.now) all size) }
        ensures keeps_capacity { vec_capacity bytes.old ≤ vec_capacity bytes.new }
        ensures full { OnErr result (vec_capacity bytes.old < max_header_size) }
    {
        bytes.clear();
        bytes.extend_from_slice(b"RIFF")?;
        bytes.extend_from_slice(&all.to_le_bytes())?;
        bytes.extend_from_slice(b"WAVEfmt ")?;
        bytes.extend_from_slice(&self.format_size().to_le_bytes())?;
        self.put_format(bytes)?;
        bytes.extend_from_slice(b"data")?;
        bytes.extend_from_slice(&size.to_le_bytes())?;
        Ok(())
    }

    fn format_size(&self) -> u32
        ensures size { result ≡ length (format self.now) }
        ensures few { result ≤ 40 }
        ensures even { result % 2 ≡ 0 }
    {
        if self.is_extensible() { 40 } else { 16 }
    }

    fn put_format(&self, bytes: &mut Vec<u8>) -> Result<(), AllocError>
        ensures is_sound { OnOk result (bytes.new.items ≡ bytes.old.items ++ format self.now) }
        ensures len { OnOk result (vec_len bytes.new ≤ vec_len bytes.old + 40) }
        ensures keeps_capacity { vec_capacity bytes.old ≤ vec_capacity bytes.new }
        ensures full { OnErr result (vec_capacity bytes.old < vec_len bytes.old + 40) }
    {
        if !self.is_extensible() {
            self.put_base_format(1, bytes)?;
            return Ok(());
        }
        self.put_base_format(0xfffe, bytes)?;
        self.put_extension(bytes)?;
        Ok(())
    }

    fn put_base_format(&self, code: u16, bytes: &mut Vec<u8>) -> Result<(), AllocError>
        ensures is_sound { OnOk result
            (bytes.new.items ≡ bytes.old.items ++ base_format code self.now) }
        ensures len { OnOk result (vec_len bytes.new ≡ vec_len bytes.old + 16) }
        ensures keeps_capacity { vec_capacity bytes.old ≤ vec_capacity bytes.new }
        ensures full { OnErr result (vec_capacity bytes.old < vec_len bytes.old + 16) }
    {
        let block_align = self.block_align();
        let bytes_per_second = self.sample_rate.wrapping_mul(block_align);
        bytes.extend_from_slice(&code.to_le_bytes())?;
        bytes.extend_from_slice(&(self.channels as u16).to_le_bytes())?;
        bytes.extend_from_slice(&self.sample_rate.to_le_bytes())?;
        bytes.extend_from_slice(&bytes_per_second.to_le_bytes())?;
        bytes.extend_from_slice(&(block_align as u16).to_le_bytes())?;
        bytes.extend_from_slice(&(8 * self.sample_size() as u16).to_le_bytes())?;
        Ok(())
    }

    // The extension: its size, valid bits per sample, channel mask, subformat.
    fn put_extension(&self, bytes: &mut Vec<u8>) -> Result<(), AllocError>
        ensures is_sound { OnOk result (bytes.new.items ≡ bytes.old.items ++ extension self.now) }
        ensures len { OnOk result (vec_len bytes.new ≡ vec_len bytes.old + 24) }
        ensures keeps_capacity { vec_capacity bytes.old ≤ vec_capacity bytes.new }
        ensures full { OnErr result (vec_capacity bytes.old < vec_len bytes.old + 24) }
    {
        bytes.extend_from_slice(&22u16.to_le_bytes())?;
        bytes.extend_from_slice(&(self.valid_bits as u16).to_le_bytes())?;
        bytes.extend_from_slice(&self.channel_mask.to_le_bytes())?;
        bytes.extend_from_slice(&PCM_SUBFORMAT)?;
        Ok(())
    }
}

// The channel mask of this number of channels, as FLAC assigns them.
fn default_channel_mask(channels: u32) -> u32
    requires some_channels { 1 ≤ channels }
    requires few_channels { channels ≤ 8 }
    ensures { result ≡ default_channel_mask channels }
{
    match channels {
        1 => 0x004,
        2 => 0x003,
        3 => 0x007,
        4 => 0x033,
        5 => 0x607,
        6 => 0x60f,
        7 => 0x70f,
        _ => 0x63f,
    }
}
