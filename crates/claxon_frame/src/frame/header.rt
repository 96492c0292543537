//! The header of a frame (RFC 9639, section 9.1).
ghost use Rattle.std.specs.Prelude.{◌≡◌, ℕ, ◌<◌, ◌≤◌, IfOk, IfErr, false};
ghost use Rattle.std.specs.Option.{ForSome};
ghost use Rattle.claxon_format.specs.Fault.{HeaderCrc, BitDepthReserved};
ghost use Rattle.claxon_format.specs.Frame.{block_step, known_bit_depth, time_of};
ghost use Rattle.claxon_format.specs.read.Bytes.{crc_at, big_at};
ghost use Rattle.claxon_format.specs.Header.{common_rate, bit_depth_reserved};
ghost use Rattle.claxon_format.specs.read.Reading.{done, test};
ghost use Rattle.claxon_input.specs.State.{State, bytes_in};
ghost use Rattle.claxon_input.specs.Gives.{Gives, GivesOrEof};
ghost use Rattle.claxon_frame.specs.FrameHeader.{
  HasBitDepthCode,
  channel_code,
  channels_of,
  is_variable,
  least_size,
  block_time_view,
  max_bit_depth,
  bit_depth_code,
};
ghost use Rattle.claxon_input.specs.Error.{is_out_of_memory};
ghost use Rattle.claxon_format.specs.read.Header.{
  fields_at,
  blocking_at,
  channels_at,
  codes_at,
  fields_after,
  fields_with_crc_at,
  number_in,
  rate_at,
  size_coding,
  size_at,
  sync_at,
  bit_depth_at,
};
ghost use Rattle.claxon_format.specs.read.CodedNumber.{
  coded_number_at,
  continuation_bytes_at,
  continuation_byte_at,
};
ghost use Rattle.claxon_frame.specs.FrameStart.{
  FrameHeaderIsRead,
  fields_view,
  stream_format_view,
  size_view,
};
ghost use Rattle.claxon_input.specs.Source.{KeepsLoans};

mod parts;

use claxon_input::crc::Crc8Reader;
use claxon_input::error::{Error, Result};
use claxon_input::input::ReadBytes;
use parts::{BlockSize, BlockingStrategy, HeaderFields};
pub use parts::{BlockTime, ChannelAssignment, FrameHeader, KnownStreamFormat};

/// The text of the error where no frame begins, as its first two bytes tell.
pub const SYNC_CODE_MISSING: &str = "frame sync code missing";

/// The text of the error for a frame header with a reserved value.
pub const RESERVED_HEADER_VALUE: &str = "invalid frame header, encountered reserved value";

/// The text of the error for a frame whose side channel has 33 bits.
pub const SIDE_TOO_WIDE: &str = "side channels of 33 bits are not supported";

/// Reads the header of the next frame with its CRC-8. None if fewer than two bytes were left, which are consumed.
pub fn read_frame_header_or_eof<R: ReadBytes>(
    input: &mut R,
    stream: Option<KnownStreamFormat>,
) -> Result<Option<FrameHeader>>
    ensures is_read { FrameHeaderIsRead R.source (stream_format_view stream)
        input.old result input.new }
    ensures no_memory { IfErr result (λ error. is_out_of_memory error ≡ false) }
    ensures keeps_loans { KeepsLoans (R.source input.old) (R.source input.new) }
{
    let Some(fields) = read_fields_with_crc(input)? else {
        return Ok(None);
    };
    let bit_depth = resolve_bit_depth(&fields, stream)?;
    Ok(Some(FrameHeader {
        time: time_of_block(&fields, stream),
        block_size: fields.block_size,
        channel_assignment: fields.channel_assignment,
        bit_depth,
        header_bit_depth: fields.bit_depth,
        sample_rate: fields.sample_rate,
        block_time: fields.block_time,
    }))
}

// The number of samples of each channel before a frame.
fn time_of_block(fields: &HeaderFields, stream: Option<KnownStreamFormat>) -> u64
    ensures { result ≡ time_of (stream_format_view stream) (fields_view fields.now) }
{
    match fields.block_time {
        BlockTime::SampleNumber(number) => number,
        BlockTime::FrameNumber(number) => u64::from(number)
            * u64::from(previous_block_size(fields.block_size, stream)),
    }
}

// The block size by which a frame number is multiplied: the fixed one of the stream, or else the frame's own.
fn previous_block_size(block_size: u16, stream: Option<KnownStreamFormat>) -> u16
    ensures { result ≡ block_step (stream_format_view stream) block_size }
{
    let Some(format) = stream else {
        return block_size;
    };
    if format.min_block_size == format.max_block_size {
        format.min_block_size
    } else {
        block_size
    }
}

// The bit depth of the header, or that of the stream if the header gives none.
#[tactic(auto, unfolding(claxon_format::specs::read::Header::bit_depth_at, claxon_format::specs::Fault::fault_text))]
fn resolve_bit_depth(fields: &HeaderFields, stream: Option<KnownStreamFormat>) -> Result<u32>
    ensures max_bits { IfOk result (λ bits. max_bit_depth fields.now.channel_assignment bits ≤ 32) }
    ensures gives { (here : State ℕ) → Gives (λ x. x) result
        (bit_depth_at (known_bit_depth (stream_format_view stream)) (fields_view fields.now))
        here here }
{
    if let Some(bits) = fields.bit_depth {
        return Ok(bits);
    }
    let Some(format) = stream else {
        return Err(Error::Unsupported("header without bits per sample info"));
    };
    let bits = format.bit_depth;
    match fields.channel_assignment {
        ChannelAssignment::Independent(_) => Ok(bits),
        _ if bits < 32 => Ok(bits),
        _ => Err(Error::Unsupported(SIDE_TOO_WIDE)),
    }
}

// The fields, and then the CRC-8 of their bytes.
//
// The CRC-8 reader is made here: the prover loses the shape of a wrapper around another one that is made in the same function,
// and the other one is the frame's CRC-16 reader.
fn read_fields_with_crc<R: ReadBytes>(input: &mut R) -> Result<Option<HeaderFields>>
    ensures gives { GivesOrEof 2 fields_view result fields_with_crc_at
        (bytes_in R.source input.old) (bytes_in R.source input.new) }
{
    let mut input = Crc8Reader::new(input);
    let Some(fields) = read_fields_or_eof(&mut input)? else {
        return Ok(None);
    };
    let computed = input.value();
    check_header_crc(&mut input, computed)?;
    Ok(Some(fields))
}

#[tactic(auto, using(claxon_input::proofs::ByteFields::first_number), unfolding(claxon_format::specs::read::Bytes::crc_at, claxon_format::specs::Fault::fault_text))]
fn check_header_crc<R: ReadBytes>(input: &mut R, computed: u8) -> Result<()>
    ensures gives { Gives (λ x. tt) result (crc_at 1 computed HeaderCrc)
        (bytes_in R.source input.old) (bytes_in R.source input.new) }
{
    let stored = input.read_u8()?;
    if stored != computed {
        return Err(Error::FormatError("frame header CRC mismatch"));
    }
    Ok(())
}

fn read_fields_or_eof<R: ReadBytes>(input: &mut R) -> Result<Option<HeaderFields>>
    ensures gives { GivesOrEof 2 fields_view result (fields_at big_at)
        (bytes_in R.source input.old) (bytes_in R.source input.new) }
{
    let Some(blocking) = read_sync_or_eof(input)? else {
        return Ok(None);
    };
    Ok(Some(read_fields(input, blocking)?))
}

fn read_fields<R: ReadBytes>(input: &mut R, blocking: BlockingStrategy) -> Result<HeaderFields>
    ensures gives { Gives fields_view result (fields_after big_at (is_variable blocking))
        (bytes_in R.source input.old) (bytes_in R.source input.new) }
{
    let (size, rate_code) = read_size_and_rate(input)?;
    let (channel_assignment, bit_depth) = read_channels_and_bit_depth(input)?;
    let block_time = read_block_time(input, blocking)?;
    let block_size = read_block_size(input, size)?;
    let sample_rate = read_rate(input, rate_code)?;
    Ok(HeaderFields {
        block_time,
        block_size,
        sample_rate,
        channel_assignment,
        bit_depth,
    })
}

#[tactic(auto, using(claxon_input::proofs::FieldOrEof::reached_eof))]
fn read_sync_or_eof<R: ReadBytes>(input: &mut R) -> Result<Option<BlockingStrategy>>
    ensures gives { GivesOrEof 2 is_variable result (sync_at big_at)
        (bytes_in R.source input.old) (bytes_in R.source input.new) }
{
    let Some(sync) = input.read_be_u16_or_eof()? else {
        return Ok(None);
    };
    Ok(Some(blocking_strategy(sync)?))
}

// The sync code, a reserved bit and the blocking strategy.
#[tactic(auto, unfolding(claxon_format::specs::read::Header::blocking_at, claxon_format::specs::Fault::fault_text))]
fn blocking_strategy(sync: u16) -> Result<BlockingStrategy>
    ensures gives { (here : State ℕ) → Gives is_variable result (blocking_at sync) here here }
{
    if sync >> 2 != 0x3ffe {
        return Err(Error::FormatError(SYNC_CODE_MISSING));
    }
    if sync >> 1 & 1 == 1 {
        return Err(Error::FormatError(RESERVED_HEADER_VALUE));
    }
    if sync & 1 == 0 {
        Ok(BlockingStrategy::Fixed)
    } else {
        Ok(BlockingStrategy::Variable)
    }
}

// How the block size is coded, and the code of the sample rate.
#[tactic(auto, using(claxon_input::proofs::ByteFields::first_number), unfolding(claxon_format::specs::read::Header::codes_at, claxon_format::specs::Fault::fault_text))]
fn read_size_and_rate<R: ReadBytes>(input: &mut R) -> Result<(BlockSize, u8)>
    ensures min_size { IfOk result (λ codes. 1 ≤ least_size codes.0) }
    ensures max_rate { IfOk result (λ codes. codes.1 ≤ 14) }
    ensures gives { Gives (λ codes. (size_view codes.0, codes.1)) result (codes_at big_at)
        (bytes_in R.source input.old) (bytes_in R.source input.new) }
{
    let codes = input.read_u8()?;
    if codes >> 4 == 0 {
        return Err(Error::FormatError(RESERVED_HEADER_VALUE));
    }
    if codes & 0b1111 == 15 {
        return Err(Error::FormatError("invalid frame header"));
    }
    Ok((block_size_of(codes >> 4), codes & 0b1111))
}

// The block size of a code from 1 to 15 (RFC 9639, section 9.1.1).
fn block_size_of(code: u8) -> BlockSize
    requires min_code { 1 ≤ code }
    requires max_code { code ≤ 15 }
    ensures min_size { 1 ≤ least_size result }
    ensures coding { size_view result ≡ size_coding code }
{
    match code {
        1 => BlockSize::Known(192),
        n if n <= 5 => BlockSize::Known(576 << (n - 2)),
        6 => BlockSize::Read8,
        7 => BlockSize::Read16,
        n => BlockSize::Known(256 << (n - 8)),
    }
}

// The bit depth is None if it is that of the stream.
#[tactic(auto, using(claxon_input::proofs::ByteFields::first_number), unfolding(claxon_format::specs::read::Header::channels_at, claxon_format::specs::Fault::fault_text))]
fn read_channels_and_bit_depth<R: ReadBytes>(
    input: &mut R,
) -> Result<(ChannelAssignment, Option<u32>)>
    ensures min_channels { IfOk result (λ codes. 1 ≤ channels_of codes.0) }
    ensures max_channels { IfOk result (λ codes. channels_of codes.0 ≤ 8) }
    ensures has_code { IfOk result (λ codes. ForSome codes.1 HasBitDepthCode) }
    ensures gives { Gives (λ codes. (channel_code codes.0, bit_depth_code codes.1)) result
        (channels_at big_at) (bytes_in R.source input.old) (bytes_in R.source input.new) }
{
    let codes = input.read_u8()?;
    let channel_assignment = match codes >> 4 {
        n if n < 8 => ChannelAssignment::Independent(n + 1),
        8 => ChannelAssignment::LeftSideStereo,
        9 => ChannelAssignment::RightSideStereo,
        10 => ChannelAssignment::MidSideStereo,
        _ => return Err(Error::FormatError(RESERVED_HEADER_VALUE)),
    };
    let bit_depth = bit_depth_of((codes >> 1) & 0b111)?;
    if codes & 1 == 1 {
        return Err(Error::FormatError(RESERVED_HEADER_VALUE));
    }
    Ok((channel_assignment, bit_depth))
}

// The bit depth of a code, None for that of the stream. Whether the stream's is known is checked only after the header's CRC.
#[tactic(auto, unfolding(claxon_format::specs::Fault::fault_text))]
fn bit_depth_of(code: u8) -> Result<Option<u32>>
    requires { code < 8 }
    ensures has_code { IfOk result (λ bits. ForSome bits HasBitDepthCode) }
    ensures gives { (here : State ℕ) → Gives bit_depth_code result
        (test (bit_depth_reserved code) BitDepthReserved (done code)) here here }
{
    match code {
        0 => Ok(None),
        1 => Ok(Some(8)),
        2 => Ok(Some(12)),
        4 => Ok(Some(16)),
        5 => Ok(Some(20)),
        6 => Ok(Some(24)),
        _ => Err(Error::FormatError(RESERVED_HEADER_VALUE)),
    }
}

#[tactic(auto, unfolding(claxon_format::specs::read::Header::number_in, claxon_format::specs::Fault::fault_text))]
fn read_block_time<R: ReadBytes>(input: &mut R, blocking: BlockingStrategy) -> Result<BlockTime>
    ensures gives { Gives block_time_view result (number_in big_at (is_variable blocking))
        (bytes_in R.source input.old) (bytes_in R.source input.new) }
{
    let number = read_var_length_int(input)?;
    match blocking {
        BlockingStrategy::Variable => Ok(BlockTime::SampleNumber(number)),
        BlockingStrategy::Fixed => {
            let largest = 0x7fff_ffff;
            if number > largest {
                return Err(Error::FormatError("invalid frame header, frame number too large"));
            }
            Ok(BlockTime::FrameNumber(number as u32))
        }
    }
}

// A coded number: at most 36 bits in one to seven bytes, as UTF-8 writes characters (RFC 9639, section 9.1.5).
//
// The leading ones of the first byte give the number of bytes: none in a single byte 0xxxxxxx, two in 110xxxxx 10xxxxxx, and
// seven in 11111110 with six continuation bytes. The bits after the first zero and the low six bits of each continuation byte
// are the number, most significant first. Overlong numbers are accepted.
#[tactic(auto, using(claxon_input::proofs::ByteFields::first_number), unfolding(claxon_format::specs::read::CodedNumber::coded_number_at, claxon_format::specs::Fault::fault_text))]
fn read_var_length_int<R: ReadBytes>(input: &mut R) -> Result<u64>
    ensures gives { Gives (λ x. x) result (coded_number_at big_at)
        (bytes_in R.source input.old) (bytes_in R.source input.new) }
{
    let first = input.read_u8()?;
    let ones = first.leading_ones();
    if ones == 0 {
        return Ok(u64::from(first));
    }
    // A byte 10xxxxxx is a continuation byte, and 11111111 is in no number.
    if matches!(first, 0x80..=0xbf | 0xff) {
        return Err(Error::FormatError("invalid variable-length integer"));
    }
    read_continuation_bytes(input, ones - 1, u64::from(first & (0x7f >> ones)))
}

// `count` continuation bytes of a number, six bits each.
fn read_continuation_bytes<R: ReadBytes>(input: &mut R, count: u32, number: u64) -> Result<u64>
    requires count { count ≤ 6 }
    requires number { number < 64 }
    ensures gives { Gives (λ x. x) result (continuation_bytes_at big_at count number)
        (bytes_in R.source input.old) (bytes_in R.source input.new) }
{
    let mut number = number;
    for _ in 0..count {
        number = number << 6 | u64::from(read_continuation_byte(input)?);
    }
    Ok(number)
}

// The six bits of a continuation byte.
#[inline(always)]
#[tactic(auto, using(claxon_input::proofs::ByteFields::first_number), unfolding(claxon_format::specs::read::CodedNumber::continuation_byte_at, claxon_format::specs::Fault::fault_text))]
fn read_continuation_byte<R: ReadBytes>(input: &mut R) -> Result<u8>
    ensures fits { IfOk result (λ bits. bits < 64) }
    ensures gives { Gives (λ x. x) result (continuation_byte_at big_at)
        (bytes_in R.source input.old) (bytes_in R.source input.new) }
{
    let byte = input.read_u8()?;
    if byte >> 6 != 0b10 {
        return Err(Error::FormatError("invalid variable-length integer"));
    }
    Ok(byte & 0b0011_1111)
}

#[tactic(auto, using(claxon_input::proofs::ByteFields::first_number), unfolding(claxon_format::specs::read::Header::size_at, claxon_format::specs::Fault::fault_text))]
fn read_block_size<R: ReadBytes>(input: &mut R, size: BlockSize) -> Result<u16>
    requires { 1 ≤ least_size size }
    ensures min_size { IfOk result (λ size. 1 ≤ size) }
    ensures gives { Gives (λ x. x) result (size_at big_at (size_view size))
        (bytes_in R.source input.old) (bytes_in R.source input.new) }
{
    match size {
        BlockSize::Known(n) => Ok(n),
        BlockSize::Read8 => Ok(u16::from(input.read_u8()?) + 1),
        BlockSize::Read16 => {
            let less_one = input.read_be_u16()?;
            if less_one == 0xffff {
                return Err(Error::FormatError("invalid block size, exceeds 65535"));
            }
            Ok(less_one + 1)
        }
    }
}

// The sample rate in Hz. Under the codes from 12 on it is read, in kHz, Hz and tens of Hz (RFC 9639, section 9.1.7).
#[tactic(auto, using(claxon_input::proofs::ByteFields::first_number), unfolding(claxon_format::specs::read::Header::rate_at))]
fn read_rate<R: ReadBytes>(input: &mut R, code: u8) -> Result<Option<u32>>
    requires { code ≤ 14 }
    ensures gives { Gives (λ x. x) result (rate_at big_at code)
        (bytes_in R.source input.old) (bytes_in R.source input.new) }
{
    match code {
        12 => Ok(Some(u32::from(input.read_u8()?) * 1000)),
        13 => Ok(Some(u32::from(input.read_be_u16()?))),
        14 => Ok(Some(u32::from(input.read_be_u16()?) * 10)),
        _ => Ok(common_rate_of(code)),
    }
}

// The sample rate in Hz of a code up to 11, None for that of the streaminfo (RFC 9639, section 9.1.2).
fn common_rate_of(code: u8) -> Option<u32>
    ensures { result ≡ common_rate code }
{
    match code {
        1 => Some(88_200),
        2 => Some(176_400),
        3 => Some(192_000),
        4 => Some(8_000),
        5 => Some(16_000),
        6 => Some(22_050),
        7 => Some(24_000),
        8 => Some(32_000),
        9 => Some(44_100),
        10 => Some(48_000),
        11 => Some(96_000),
        _ => None,
    }
}
