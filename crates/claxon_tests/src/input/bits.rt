//! Bits, bytes and CRCs of known bytes.
use claxon::crc::{Crc8Reader, Crc16Reader};
use claxon::input::{Bitstream, BufferedReader, ReadBytes};
use std::io;
use std::io::Cursor;
use std::test::Fail;

// A call for bits, with their number where it takes one.
#[derive(Clone, Copy)]
enum Call {
    Zeros,
    Bit,
    UpTo8(u32),
    UpTo16(u32),
    From9To16(u32),
    UpTo32(u32),
}

// Its result, or None if it fails.
fn answer<R: ReadBytes>(bits: &mut Bitstream<R>, call: Call) -> Option<u32> {
    let answer = match call {
        Call::Zeros => bits.read_unary(),
        Call::Bit => widened(bits.read_bit()),
        Call::UpTo8(count) => widened(bits.read_leq_u8(count.min(8))),
        Call::UpTo16(count) => widened(bits.read_leq_u16(count.min(16))),
        Call::From9To16(count) => widened(bits.read_gt_u8_leq_u16(count.clamp(9, 16))),
        Call::UpTo32(count) => bits.read_leq_u32(count.min(32)),
    };
    match answer {
        Ok(number) => Some(number),
        Err(_cause) => None,
    }
}

fn widened<N: Into<u32>>(number: io::Result<N>) -> io::Result<u32> {
    match number {
        Ok(number) => Ok(number.into()),
        Err(cause) => Err(cause),
    }
}

// Whether calls for bits of these bytes have these results, and consume `taken` bytes.
fn answers_each(bytes: &[u8], calls: &[(Call, Option<u32>)], taken: u64) -> bool {
    let mut cursor = Cursor::new(bytes);
    let mut all = true;
    {
        let mut bits = Bitstream::new(&mut cursor);
        for (call, want) in calls {
            all = all && answer(&mut bits, *call) == *want;
        }
    }
    all && cursor.position() == taken
}

const FIVE: [u8; 5] = [0xa5, 0xe1, 0xd2, 0x55, 0xf0];

#[rattlefmt::skip]
#[test]
fn calls_in_turn(rt: HostRuntime) {
    let rows: [(&[u8], &[(Call, Option<u32>)], u64); 6] = [
        (
            &[0xa4, 0x80, 0x20, 0x00, 0x0a],
            &[
                (Call::Zeros, Some(0)), (Call::Zeros, Some(1)), (Call::Zeros, Some(2)), (Call::Zeros, Some(2)),
                (Call::Zeros, Some(9)), (Call::Zeros, Some(17)), (Call::UpTo8(3), Some(0b010)), (Call::Bit, None),
            ],
            5,
        ),
        (
            &FIVE,
            &[
                (Call::From9To16(10), Some(0b10_1001_0111)), (Call::From9To16(10), Some(0b10_0001_1101)),
                (Call::UpTo8(3), Some(0b001)), (Call::UpTo16(10), Some(0b00_1010_1011)),
                (Call::UpTo8(7), Some(0b111_0000)), (Call::UpTo16(10), None),
            ],
            5,
        ),
        (
            &FIVE,
            &[
                (Call::UpTo32(1), Some(1)), (Call::UpTo32(17), Some(0b0_1001_0111_1000_0111)),
                (Call::UpTo32(14), Some(0b01_0010_0101_0101)),
            ],
            4,
        ),
        (
            &[0x00, 0x80],
            &[(Call::Zeros, Some(8)), (Call::UpTo8(7), Some(0)), (Call::UpTo8(0), Some(0)), (Call::Bit, None)],
            2,
        ),
        // No byte is consumed early.
        (&[0xff, 0x80, 0x55], &[(Call::Bit, Some(1)), (Call::From9To16(9), Some(510))], 2),
        // If there are too few bits, all are consumed.
        (&[0xa5, 0xe1], &[(Call::UpTo32(20), None), (Call::Bit, None)], 2),
    ];
    for (row, (bytes, calls, taken)) in rows.iter().enumerate() {
        assert!(rt; answers_each(*bytes, *calls, *taken), "{row}");
    }
}

// All bits of the cache are read, a number of no bits consumes no byte, and too few bits are all consumed: the position after
// each call.
#[test]
fn all_of_the_cache(rt: HostRuntime) {
    let calls = [
        (Call::UpTo32(32), Some(0xa5e1_d255)),
        (Call::UpTo8(0), Some(0)),
        (Call::Zeros, Some(0)),
        (Call::UpTo32(20), None),
    ];
    for (count, taken) in [0, 4, 4, 5, 5].iter().enumerate() {
        assert!(rt;
            answers_each(&FIVE, &calls[..count.min(4)], *taken),
            "{count}"
        );
    }
    let too_few = [(Call::UpTo32(20), None), (Call::Bit, None)];
    for (count, taken) in [0, 2, 2].iter().enumerate() {
        assert!(rt;
            answers_each(&[0xa5, 0xe1], &too_few[..count.min(2)], *taken),
            "{count}"
        );
    }
}

// However 32 bits are split in two, they are the same number, and four bytes are consumed.
#[test]
fn splits(rt: HostRuntime) {
    for first in 0..33u32 {
        let mut cursor = Cursor::new([0xa5u8, 0xe1, 0xd2, 0x55]);
        assert!(rt;
            number_in_two(&mut cursor, first) == Some(0xa5e1_d255),
            "{first}"
        );
        assert!(rt; cursor.position() == 4, "{first}");
    }
}

// A 32-bit number that is read by two calls, the first one for `first` bits.
fn number_in_two<R: ReadBytes>(input: &mut R, first: u32) -> Option<u64> {
    let mut bits = Bitstream::new(input);
    let first = first.min(32);
    let high = answer(&mut bits, Call::UpTo32(first))?;
    let low = answer(&mut bits, Call::UpTo32(32 - first))?;
    Some(u64::from(high) << (32 - first) | u64::from(low))
}

#[test]
fn buffered_bytes(rt: HostRuntime) -> Result<(), Fail> {
    let bytes = [2u8, 3, 5, 7, 11, 13, 17, 19, 23];
    let mut reader = BufferedReader::new(rt.alloc(), Cursor::new(bytes))?;
    let mut three = [0; 3];
    reader.read_into(&mut three)?;
    assert!(rt; three == [2, 3, 5]);
    let mut five = [0; 5];
    reader.read_into(&mut five)?;
    assert!(rt; five == [7, 11, 13, 17, 19]);
    assert!(rt; reader.read_into(&mut [0; 2]).is_err());
    // The remaining byte was consumed.
    assert!(rt; reader.read_u8_or_eof()?.is_none());
    Ok(())
}

// The CRC of `count` bytes that are skipped, and of those that are read then.
fn crc8_of<R: ReadBytes>(input: &mut R, count: u32, buffer: &mut [u8]) -> io::Result<u8> {
    let mut reader = Crc8Reader::new(input);
    reader.skip(count)?;
    reader.read_into(buffer)?;
    Ok(reader.value())
}

fn crc16_of<R: ReadBytes>(input: &mut R, count: u32, buffer: &mut [u8]) -> io::Result<u16> {
    let mut reader = Crc16Reader::new(input);
    reader.skip(count)?;
    reader.read_into(buffer)?;
    Ok(reader.value())
}

// Bytes, how many of them are skipped before the others are read, and the CRCs: all or none are skipped, and of three bytes also
// only the first.
const CRCS: [(&[u8], u32, u8, u16); 7] = [
    (&[0x1f], 1, 0x5d, 0x8041),
    (&[0x04, 0x01], 2, 0x53, 0x1806),
    (&[0x61, 0x62, 0x63], 3, 0x5f, 0xcadb),
    (&[0x61, 0x62, 0x63], 1, 0x5f, 0xcadb),
    (&[0x61, 0x62, 0x63], 0, 0x5f, 0xcadb),
    // The check values of both polynomials in CRC catalogues.
    (b"123456789", 9, 0xf4, 0xfee8),
    (b"123456789", 4, 0xf4, 0xfee8),
];

fn crcs_of(bytes: &[u8], skipped: u32) -> io::Result<(u8, u16)> {
    let mut buffer = [0; 9];
    let rest = &mut buffer[..bytes.len().saturating_sub(skipped as usize).min(9)];
    let crc8 = crc8_of(&mut Cursor::new(bytes), skipped, rest)?;
    let crc16 = crc16_of(&mut Cursor::new(bytes), skipped, rest)?;
    Ok((crc8, crc16))
}

#[test]
fn crcs(rt: HostRuntime) -> Result<(), Fail> {
    for (bytes, skipped, crc8, crc16) in &CRCS {
        assert!(rt; crcs_of(*bytes, *skipped)? == (*crc8, *crc16), "{skipped}");
    }
    Ok(())
}

// Around the shortest slice whose CRC is folded, and after whole and broken pieces of 128 bytes. Division bit by bit, in another
// language, gave the same CRCs.
#[test]
fn crcs_of_long_slices(rt: HostRuntime) -> Result<(), Fail> {
    let mut bytes = [0u8; 512];
    for i in 0..512usize {
        bytes[i] = (i * 7 % 251) as u8;
    }
    let rows: [(u32, u16); 6] = [
        (255, 0x851a),
        (256, 0x1956),
        (383, 0xac7f),
        (384, 0xff11),
        (500, 0xb852),
        (512, 0xfdb0),
    ];
    for (count, crc16) in rows {
        let mut reader = Cursor::new(bytes);
        assert!(rt; crc16_of(&mut reader, count, &mut [])? == crc16, "{count}");
    }
    Ok(())
}
