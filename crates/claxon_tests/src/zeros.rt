//! Runs of some 2^32 zeros in subframes.
use crate::sources::ZerosBetween;
use claxon::input::{Bitstream, BufferedReader, ReadBytes};
use claxon::subframe;
use claxon_testing::answers::{Fault, fault_of};
use std::process::Abort;
use std::test::Fail;

// The sample of a subframe of one sample of 8 bits.
fn decode<R: ReadBytes>(input: &mut R) -> Result<i32, Fault> {
    let mut buffer = [13];
    match subframe::decode(&mut Bitstream::new(input), 8, &mut buffer) {
        Ok(()) => Ok(buffer[0]),
        Err(error) => Err(fault_of(&error)),
    }
}

// The results for a byte, `zeros` zero bytes, and then another byte without end.
fn check(
    rt: &(impl Abort + AllocGlobal),
    bytes: (u8, u32, u8),
    want: Result<i32, Fault>,
    then: Result<i32, Fault>,
) -> Result<(), Fail> {
    let (first, zeros, last) = bytes;
    let mut input = BufferedReader::new(rt.alloc(), ZerosBetween::new(first, zeros, last))?;
    assert!(rt; decode(&mut input) == want, "{zeros}");
    assert!(rt; decode(&mut input) == then, "{zeros}");
    Ok(())
}

// The number of wasted bits. After 2^32 zeros the next call begins at the byte after the last of them. If zeros follow without
// end, it is a constant subframe of zeros.
#[test]
fn wasted_bits(rt: HostRuntime) -> Result<(), Fail> {
    let wasted = Err(Fault::Format("wasted bits per sample must not exceed 31"));
    let no_bits = Err(Fault::Format("subframe has no non-wasted bits"));
    check(&rt, (0x01, 536_870_911, 0x01), wasted, no_bits)?;
    let invalid = Err(Fault::Format("invalid subframe header"));
    check(&rt, (0x01, 536_870_912, 0x80), Err(Fault::Io), invalid)?;
    check(&rt, (0x01, 0, 0x00), Err(Fault::Io), Ok(0))
}

// The quotient of a Rice code, which begins with the third bit of the third byte. Its maximum is 2^32 - 1.
#[test]
fn quotients(rt: HostRuntime) -> Result<(), Fail> {
    let least = Ok(-2_147_483_648);
    let order = Err(Fault::Format("invalid LPC subframe, lpc order is larger than block size"));
    check(&rt, (0x10, 536_870_913, 0x44), least, order)?;
    let invalid = Err(Fault::Format("invalid subframe header"));
    check(&rt, (0x10, 536_870_914, 0x80), Err(Fault::Io), invalid)?;
    check(&rt, (0x10, 0, 0x00), Err(Fault::Io), Ok(0))
}
