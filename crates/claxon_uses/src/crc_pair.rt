//! Two numbers with padding and a CRC, read as a frame is: bits through a CRC reader, and then the CRC as bytes.
ghost use Rattle.std.specs.Prelude.{◌≡◌};
ghost use Rattle.claxon.specs.Fault.{FrameCrc};
ghost use Rattle.claxon.specs.read.Bytes.{by_bytes, crc_at};
ghost use Rattle.claxon.specs.RunningReader.{running_source, running_value};
ghost use Rattle.claxon.specs.CrcUpdate.{update_crc16};
ghost use Rattle.claxon.specs.State.{bytes_in, bits_in};
ghost use Rattle.claxon.specs.Gives.{Gives};
ghost use Rattle.claxon_uses.specs.PairWithCrc.{PairIsRead, pair_at, pair_with_crc_at};

use claxon::crc::Crc16Reader;
use claxon::fault_texts::FRAME_CRC_MISMATCH;
use claxon::input::{Bitstream, ReadBytes};
use claxon::{Error, Result};

/// Reads two numbers, of 5 and of 9 bits, the padding up to byte alignment, and the CRC-16 of these bytes.
pub fn read_pair_with_crc<R: ReadBytes>(input: &mut R) -> Result<(u32, u32)>
    ensures is_read { PairIsRead R.source input.old result input.new }
{
    let mut input = Crc16Reader::new(input);
    read_pair_through_crc(&mut input)
}

fn read_pair_through_crc<R: ReadBytes>(input: &mut Crc16Reader<R>) -> Result<(u32, u32)>
    requires { running_value input.old ≡ 0 }
    ensures gives { Gives (λ pair. pair) result pair_with_crc_at
        (bytes_in (running_source R.source update_crc16) input.old)
        (bytes_in (running_source R.source update_crc16) input.new) }
{
    let pair = read_pair(input)?;
    let computed = input.value();
    check_crc(input, computed)?;
    Ok(pair)
}

fn read_pair<R: ReadBytes>(input: &mut R) -> Result<(u32, u32)>
    ensures gives { Gives (λ pair. pair) result (by_bytes pair_at)
        (bytes_in R.source input.old) (bytes_in R.source input.new) }
{
    let mut bits = Bitstream::new(input);
    read_pair_of_bits(&mut bits)
}

#[tactic(auto, unfolding(crate::specs::PairWithCrc::pair_at))]
fn read_pair_of_bits<R: ReadBytes>(bits: &mut Bitstream<R>) -> Result<(u32, u32)>
    ensures gives { Gives (λ pair. pair) result pair_at
        (bits_in R.source bits.old) (bits_in R.source bits.new) }
{
    let first = bits.read_leq_u32(5)?;
    let second = bits.read_leq_u32(9)?;
    Ok((first, second))
}

fn check_crc<R: ReadBytes>(input: &mut R, computed: u16) -> Result<()>
    ensures gives { Gives (λ x. tt) result (crc_at 2 computed FrameCrc)
        (bytes_in R.source input.old) (bytes_in R.source input.new) }
{
    if input.read_be_u16()? != computed {
        return Err(Error::FormatError(FRAME_CRC_MISMATCH));
    }
    Ok(())
}
