//! Subframes: one channel of a frame.
ghost use Rattle.std.specs.Prelude.{
  ◌≡◌,
  ◌+◌,
  ◌-◌,
  ◌*◌,
  ◌%◌,
  ◌^◌,
  ◌<◌,
  ◌≤◌,
  IfOk,
  length,
  map,
  replicate,
};
ghost use Rattle.claxon_format.specs.Bits.{FitsIn, residue};
ghost use Rattle.claxon_format.specs.read.Bits.{twos_complement, signed_at};
ghost use Rattle.claxon_format.specs.Fault.{Fault};
ghost use Rattle.claxon_format.specs.read.Reading.{and_then, done, times_at};
ghost use Rattle.claxon_format.specs.read.Residual.{
  partition_at,
  residual_at,
  escaped_partition_at,
  method_at,
};
ghost use Rattle.claxon_format.specs.read.Subframe.{
  fixed_at,
  subframe_at,
  type_at,
  wasted_bits_to_31_at,
  subframe_header_at,
  parameters_at,
  linear_at,
};
ghost use Rattle.claxon_format.specs.Subframe.{scaled};
ghost use Rattle.claxon_input.specs.State.{bits_in};
ghost use Rattle.claxon_input.specs.Gives.{Gives};
ghost use Rattle.claxon_subframe.specs.Buffer.{FillsBuffer};
ghost use Rattle.claxon_subframe.specs.Decode.{
  SubframeFaultIsComplete,
  SubframeIsComplete,
  KeepsReaderLoans,
  SubframeElseIoError,
  SubframeFaultIsSound,
  SubframeIsRead,
  SubframeIsUnambiguous,
  SubframeLeavesRest,
  SubframeIsSound,
  NeverOutOfMemory,
};
ghost use Rattle.claxon_subframe.specs.SubframeFields.{
  fixed_order,
  lpc_order,
  type_number,
  subframe_view,
  parameters_of,
  method_of,
};

mod buffered;
mod groups;
mod partitions;
mod predictor;
mod rice;
mod verbatim;

use buffered::read_values;
use claxon_input::error::{Error, Result};
use claxon_input::input::{Bitstream, ReadBytes};
use partitions::read_buffered_partitions;
use predictor::fixed::predict_fixed;
use predictor::predict_lpc;
use rice::{RiceCode, decode_zigzag};
use verbatim::decode_verbatim;

/// How the samples of a subframe are coded.
#[derive(Clone, Copy)]
enum SubframeType {
    Constant,
    Verbatim,
    /// A fixed predictor of this order, 0 to 4.
    Fixed(u32),
    /// A linear predictor of this order, 1 to 32.
    Lpc(u32),
}

#[derive(Clone, Copy)]
struct SubframeHeader {
    sf_type: SubframeType,
    wasted_bits_per_sample: u32,
    ghost fixed: { fixed_order sf_type ≤ 4 },
    ghost lpc: { lpc_order sf_type ≤ 32 },
    ghost wasted: { wasted_bits_per_sample ≤ 31 },
}

#[tactic(auto, unfolding(claxon_format::specs::read::Subframe::type_at, claxon_format::specs::Fault::fault_text))]
fn read_subframe_type<R: ReadBytes>(input: &mut Bitstream<R>) -> Result<SubframeType>
    ensures fixed { IfOk result (λ sf_type. fixed_order sf_type ≤ 4) }
    ensures lpc { IfOk result (λ sf_type. lpc_order sf_type ≤ 32) }
    ensures gives { Gives type_number result type_at
        (bits_in R.source input.old) (bits_in R.source input.new) }
{
    if input.read_bit()? {
        return Err(Error::FormatError("invalid subframe header"));
    }
    match u32::from(input.read_leq_u8(6)?) {
        0 => Ok(SubframeType::Constant),
        1 => Ok(SubframeType::Verbatim),
        n if 8 <= n && n <= 12 => Ok(SubframeType::Fixed(n - 8)),
        n if 32 <= n => Ok(SubframeType::Lpc(n - 31)),
        _ => Err(Error::FormatError("invalid subframe header, encountered reserved value")),
    }
}

// The number of wasted bits per sample: low bits that are zero in all samples and aren't coded.
#[tactic(auto, unfolding(claxon_format::specs::read::Subframe::wasted_bits_to_31_at, claxon_format::specs::read::Subframe::wasted_bits_at, claxon_format::specs::Fault::fault_text))]
fn read_wasted_bits<R: ReadBytes>(input: &mut Bitstream<R>) -> Result<u32>
    ensures most { IfOk result (λ wasted. wasted ≤ 31) }
    ensures gives { Gives (λ x. x) result wasted_bits_to_31_at
        (bits_in R.source input.old) (bits_in R.source input.new) }
{
    if !input.read_bit()? {
        return Ok(0);
    }
    let zeros = input.read_unary()?;
    if zeros >= 31 {
        return Err(Error::FormatError("wasted bits per sample must not exceed 31"));
    }
    Ok(zeros + 1)
}

#[tactic(auto, unfolding(claxon_format::specs::read::Subframe::subframe_header_at))]
fn read_subframe_header<R: ReadBytes>(input: &mut Bitstream<R>) -> Result<SubframeHeader>
    ensures gives { Gives (λ header. subframe_view header.sf_type header.wasted_bits_per_sample)
        result subframe_header_at (bits_in R.source input.old) (bits_in R.source input.new) }
{
    let sf_type = read_subframe_type(input)?;
    let wasted_bits_per_sample = read_wasted_bits(input)?;
    Ok(SubframeHeader {
        sf_type,
        wasted_bits_per_sample,
    })
}

// The two's complement value of a coefficient of `bits` bits.
fn extend_sign_u16(val: u16, bits: u32) -> i16
    requires some { 0 < bits }
    requires most { bits ≤ 16 }
    requires fits { val < 2 ^ bits }
    ensures { result ≡ twos_complement bits val }
{
    (val << (16 - bits)).cast_signed() >> (16 - bits)
}

/// The two's complement value of the low `bits` bits, 1 to 32 of them.
pub fn extend_sign_u32(val: u32, bits: u32) -> i32
    requires some { 0 < bits }
    requires most { bits ≤ 32 }
    ensures fits_in { FitsIn bits result }
    ensures congruent { residue bits result ≡ val % 2 ^ bits }
    ensures value { result ≡ twos_complement bits (val % 2 ^ bits) }
{
    (val << (32 - bits)).cast_signed() >> (32 - bits)
}

/// Decodes a subframe: one channel, with as many samples as the buffer is long, each of `bit_depth` bits.
///
/// Whatever the buffer held is overwritten. No memory is allocated. (RFC 9639, section 9.2.)
///
/// # Errors
///
/// `FormatError` where the bits aren't a subframe of this bit depth and length, or where `bit_depth` is 0. `Unsupported` where the
/// shift of a linear predictor is negative. `IoError` where the input ends or the source fails. The samples in the buffer are
/// then unspecified.
pub fn decode<R: ReadBytes>(
    input: &mut Bitstream<R>,
    bit_depth: u32,
    buffer: &mut [i32],
) -> Result<()>
    requires max_bit_depth { bit_depth ≤ 32 }
    requires block { length buffer.old < 65536 }
    ensures is_sound { SubframeIsSound R.source bit_depth (length buffer.old)
        input.old result input.new buffer.new }
    ensures is_complete { SubframeIsComplete R.source bit_depth (length buffer.old)
        input.old result input.new buffer.new }
    ensures is_unambiguous { SubframeIsUnambiguous bit_depth (length buffer.old) }
    ensures fault_is_sound { SubframeFaultIsSound R.source bit_depth (length buffer.old)
        input.old result input.new }
    ensures fault_is_complete { SubframeFaultIsComplete R.source bit_depth (length buffer.old)
        input.old result input.new }
    ensures else_io_error { SubframeElseIoError R.source bit_depth (length buffer.old) input.old
        result input.new }
    ensures leaves_rest { SubframeLeavesRest R.source bit_depth (length buffer.old) input.old result
        input.new }
    ensures is_read { SubframeIsRead R.source bit_depth (length buffer.old)
        input.old result input.new buffer.new }
    ensures never_out_of_memory { NeverOutOfMemory result }
    ensures keeps_reader_loans { KeepsReaderLoans R.source input.old input.new }
{
    decode_exact(input, bit_depth, buffer)
}

#[tactic(auto, unfolding(claxon_format::specs::read::Subframe::subframe_at, claxon_format::specs::Fault::fault_text))]
fn decode_exact<R: ReadBytes>(
    input: &mut Bitstream<R>,
    bit_depth: u32,
    buffer: &mut [i32],
) -> Result<()>
    requires max_bit_depth { bit_depth ≤ 32 }
    requires block { length buffer.old < 65536 }
    ensures fills_buffer { FillsBuffer R.source (subframe_at bit_depth (length buffer.old))
        input.old result input.new buffer.new }
{
    let header = read_subframe_header(input)?;
    let wasted = header.wasted_bits_per_sample;
    if wasted >= bit_depth {
        return Err(Error::FormatError("subframe has no non-wasted bits"));
    }
    let bit_depth = bit_depth - wasted;
    match header.sf_type {
        SubframeType::Constant => decode_constant(input, bit_depth, buffer),
        SubframeType::Verbatim => decode_verbatim(input, bit_depth, buffer),
        SubframeType::Fixed(order) => decode_fixed(input, bit_depth, order, buffer),
        SubframeType::Lpc(order) => decode_lpc(input, bit_depth, order, buffer),
    }?;
    if wasted > 0 {
        restore_wasted_bits(wasted, buffer);
    }
    Ok(())
}

// Appends the wasted bits to each sample, as zeros, modulo 2^32.
fn restore_wasted_bits(wasted: u32, buffer: &mut [i32])
    requires { wasted ≤ 31 }
    ensures { buffer.new ≡ map (scaled wasted) buffer.old }
{
    for sample in buffer.iter_mut() {
        *sample = *sample << wasted;
    }
}

#[inline(always)]
#[tactic(auto, unfolding(claxon_format::specs::read::Bits::signed_at))]
fn read_sample<R: ReadBytes>(input: &mut Bitstream<R>, bit_depth: u32) -> Result<i32>
    requires min_bit_depth { 0 < bit_depth }
    requires max_bit_depth { bit_depth ≤ 32 }
    ensures gives { Gives (λ x. x) result (signed_at bit_depth)
        (bits_in R.source input.old) (bits_in R.source input.new) }
{
    let sample = input.read_leq_u32(bit_depth)?;
    Ok(extend_sign_u32(sample, bit_depth))
}

fn decode_constant<R: ReadBytes>(
    input: &mut Bitstream<R>,
    bit_depth: u32,
    buffer: &mut [i32],
) -> Result<()>
    requires min_bit_depth { 0 < bit_depth }
    requires max_bit_depth { bit_depth ≤ 32 }
    ensures fills_buffer { FillsBuffer R.source
        (and_then (signed_at bit_depth) (λ x. done (replicate (length buffer.old) x)))
        input.old result input.new buffer.new }
{
    let sample = read_sample(input, bit_depth)?;
    buffer.fill(sample);
    Ok(())
}

fn decode_fixed<R: ReadBytes>(
    input: &mut Bitstream<R>,
    bit_depth: u32,
    order: u32,
    buffer: &mut [i32],
) -> Result<()>
    requires min_bit_depth { 0 < bit_depth }
    requires max_bit_depth { bit_depth ≤ 32 }
    requires order { order ≤ 4 }
    requires block { length buffer.old < 65536 }
    ensures fills_buffer { FillsBuffer R.source (fixed_at bit_depth (length buffer.old) order)
        input.old result input.new buffer.new }
{
    if buffer.len() < order as usize {
        return Err(Error::FormatError("invalid fixed subframe, order is larger than block size"));
    }
    let block_size = buffer.len() as u16;
    // With order 0 the residual samples are the samples.
    if order == 0 {
        return decode_residual(input, block_size, buffer);
    }
    decode_verbatim(input, bit_depth, &mut buffer[..order as usize])?;
    decode_residual(input, block_size, &mut buffer[order as usize..])?;
    predict_fixed(order, buffer);
    Ok(())
}

/// The precision of a linear predictor's coefficients, 1 to 15 bits, and its shift, 0 to 15.
#[derive(Clone, Copy)]
struct LpcParameters {
    precision: u32,
    shift: u32,
}

#[tactic(auto, unfolding(claxon_format::specs::read::Subframe::parameters_at, claxon_format::specs::Fault::fault_text))]
fn read_lpc_parameters<R: ReadBytes>(input: &mut Bitstream<R>) -> Result<LpcParameters>
    ensures some { IfOk result (λ lpc. 0 < lpc.precision) }
    ensures most { IfOk result (λ lpc. lpc.precision ≤ 15) }
    ensures shift { IfOk result (λ lpc. lpc.shift ≤ 15) }
    ensures gives { Gives parameters_of result parameters_at
        (bits_in R.source input.old) (bits_in R.source input.new) }
{
    let precision_less_one = u32::from(input.read_leq_u8(4)?);
    if precision_less_one == 0b1111 {
        return Err(Error::FormatError("invalid subframe, qlp precision value invalid"));
    }
    // The shift is a signed number of 5 bits: from 16 on it is negative.
    let shift = u32::from(input.read_leq_u8(5)?);
    if shift > 15 {
        return Err(Error::Unsupported(
            "a negative quantized linear predictor coefficient shift is not supported, please file a bug.",
        ));
    }
    Ok(LpcParameters {
        precision: precision_less_one + 1,
        shift,
    })
}

fn read_coefficients<R: ReadBytes>(
    input: &mut Bitstream<R>,
    precision: u32,
    coefficients: &mut [i16],
) -> Result<()>
    requires some { 0 < precision }
    requires most { precision ≤ 16 }
    ensures fills_buffer { FillsBuffer R.source
        (times_at (length coefficients.old) (signed_at precision))
        input.old result input.new coefficients.new }
{
    for coefficient in coefficients.iter_mut() {
        let number = input.read_leq_u16(precision)?;
        *coefficient = extend_sign_u16(number, precision);
    }
    Ok(())
}

fn decode_lpc<R: ReadBytes>(
    input: &mut Bitstream<R>,
    bit_depth: u32,
    order: u32,
    buffer: &mut [i32],
) -> Result<()>
    requires min_bit_depth { 0 < bit_depth }
    requires max_bit_depth { bit_depth ≤ 32 }
    requires order { order ≤ 32 }
    requires block { length buffer.old < 65536 }
    ensures fills_buffer { FillsBuffer R.source (linear_at bit_depth (length buffer.old) order)
        input.old result input.new buffer.new }
{
    if buffer.len() < order as usize {
        return Err(Error::FormatError("invalid LPC subframe, lpc order is larger than block size"));
    }
    let block_size = buffer.len() as u16;
    let order = order as usize;
    decode_verbatim(input, bit_depth, &mut buffer[..order])?;
    let lpc = read_lpc_parameters(input)?;
    let mut numbers = [0i16; 32];
    let coefficients = &mut numbers[..order];
    read_coefficients(input, lpc.precision, coefficients)?;
    decode_residual(input, block_size, &mut buffer[order..])?;
    predict_lpc(coefficients, lpc.shift, buffer);
    Ok(())
}

/// The coding method: Rice parameters of 4 or of 5 bits.
#[derive(Clone, Copy)]
enum RicePartitionType {
    Rice,
    Rice2,
}

impl RicePartitionType {
    fn parameter_bits(self) -> u32
        ensures { result ≡ 4 + method_of self }
    {
        match self {
            RicePartitionType::Rice => 4,
            RicePartitionType::Rice2 => 5,
        }
    }
}

#[tactic(auto, unfolding(claxon_format::specs::read::Residual::method_at, claxon_format::specs::Fault::fault_text))]
fn read_partition_type<R: ReadBytes>(input: &mut Bitstream<R>) -> Result<RicePartitionType>
    ensures gives { Gives method_of result method_at
        (bits_in R.source input.old) (bits_in R.source input.new) }
{
    match input.read_leq_u8(2)? {
        0b00 => Ok(RicePartitionType::Rice),
        0b01 => Ok(RicePartitionType::Rice2),
        _ => Err(Error::FormatError("invalid residual, encountered reserved value")),
    }
}

// The coded residual of a predicted subframe: the difference between each sample after the warm-up samples and its prediction.
//
// Two bits give the coding method and four bits the partition order. The block is divided into 2^order partitions of equal
// length, each with its own Rice parameter. The first partition is shorter by the number of warm-up samples. (RFC 9639,
// section 9.2.7.)
fn decode_residual<R: ReadBytes>(
    input: &mut Bitstream<R>,
    block_size: u16,
    buffer: &mut [i32],
) -> Result<()>
    requires { length buffer.old ≤ block_size }
    ensures fills_buffer { FillsBuffer R.source
        (residual_at block_size (block_size - length buffer.old))
        input.old result input.new buffer.new }
{
    let partition_type = read_partition_type(input)?;
    let order = u32::from(input.read_leq_u8(4)?);
    let n_partitions = 1u32 << order;
    let n_samples_per_partition = block_size >> order;
    if u32::from(block_size) & (n_partitions - 1) != 0 {
        return Err(Error::FormatError("invalid partition order"));
    }
    let n_warm_up = block_size - buffer.len() as u16;
    if n_warm_up > n_samples_per_partition {
        return Err(Error::FormatError("invalid residual"));
    }
    let mut start = 0;
    let mut len = n_samples_per_partition - n_warm_up;
    let mut read = 0;
    while read < n_partitions {
        let end = start + len as usize;
        decode_partition(input, partition_type, &mut buffer[start..end])?;
        start = end;
        len = n_samples_per_partition;
        read += 1;
        let most = n_partitions - read;
        let rest = &mut buffer[start..];
        let whole = read_buffered_partitions(input, partition_type, len, most, rest)?;
        start += whole as usize * len as usize;
        read += whole;
    }
    Ok(())
}

// A Rice parameter, and as many Rice codes as the buffer is long. A parameter of all ones is the escape code. (RFC 9639,
// section 9.2.7.1.)
fn decode_partition<R: ReadBytes>(
    input: &mut Bitstream<R>,
    partition_type: RicePartitionType,
    buffer: &mut [i32],
) -> Result<()>
    ensures fills_buffer { FillsBuffer R.source
        (partition_at (method_of partition_type) (length buffer.old))
        input.old result input.new buffer.new }
{
    let bits = partition_type.parameter_bits();
    let escape = (1 << bits) - 1;
    let parameter = u32::from(input.read_leq_u8(bits)?);
    if parameter == escape {
        return decode_escape_partition(input, buffer);
    }
    read_values(input, RiceCode { parameter }, buffer)?;
    decode_zigzag(buffer);
    Ok(())
}

// An escaped partition: 5 bits give the bits per residual sample, then each residual sample follows unencoded. With 0 bits
// all are 0.
#[tactic(auto, unfolding(claxon_format::specs::read::Residual::escaped_partition_at, claxon_format::specs::read::Residual::escaped_sample_at))]
fn decode_escape_partition<R: ReadBytes>(input: &mut Bitstream<R>, buffer: &mut [i32]) -> Result<()>
    ensures fills_buffer { FillsBuffer R.source (escaped_partition_at (length buffer.old))
        input.old result input.new buffer.new }
{
    let width = u32::from(input.read_leq_u8(5)?);
    if width == 0 {
        buffer.fill(0);
        return Ok(());
    }
    decode_verbatim(input, width, buffer)
}
