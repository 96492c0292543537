//! Bytes, bits and CRCs from readers that end or whose contents are unknown, and errors.
use claxon::Error;
use claxon::crc::Crc16Reader;
use claxon::input::{Bitstream, BufferedReader, ReadBytes};
use std::io;
use std::io::{Cursor, Read};
use std::test::Fail;

// Each call leaves the position where it is.
#[test]
fn cursor_far_out(rt: HostRuntime) -> Result<(), Fail> {
    let mut cursor = Cursor::new([1u8, 2, 3]);
    cursor.set_position(u64::MAX);
    assert!(rt; cursor.read_u8().is_err() && cursor.position() == u64::MAX);
    assert!(rt; cursor.read_u8_or_eof()?.is_none() && cursor.position() == u64::MAX);
    assert!(rt; cursor.skip(0).is_ok() && cursor.position() == u64::MAX);
    assert!(rt; cursor.skip(1).is_err() && cursor.position() == u64::MAX);
    assert!(rt; cursor.read_into(&mut []).is_ok() && cursor.position() == u64::MAX);
    Ok(())
}

// Whether a call failed with this kind of error.
fn has_failed<T: Drop>(outcome: io::Result<T>, kind: io::ErrorKind) -> bool {
    match outcome {
        Ok(_) => false,
        Err(cause) => cause.kind() == kind,
    }
}

// Calls that reach the end of the input.
#[derive(Clone, Copy)]
enum Call {
    Byte,
    Two,
    Three,
    Four,
    Into,
    Skip,
}

const CALLS: [Call; 6] = [
    Call::Byte,
    Call::Two,
    Call::Three,
    Call::Four,
    Call::Into,
    Call::Skip,
];

// Whether the error for too few bytes is `UnexpectedEof`.
fn has_kind_of_eof<R: ReadBytes>(input: &mut R, call: Call) -> bool {
    let kind = io::ErrorKind::UnexpectedEof;
    match call {
        Call::Byte => has_failed(input.read_u8(), kind),
        Call::Two => has_failed(input.read_be_u16(), kind),
        Call::Three => has_failed(input.read_be_u24(), kind),
        Call::Four => has_failed(input.read_be_u32(), kind)
            && has_failed(input.read_le_u32(), kind),
        Call::Into => has_failed(input.read_into(&mut [0; 2]), kind),
        Call::Skip => has_failed(input.skip(2), kind),
    }
}

// For a buffered reader and a cursor, after the last byte, and before it if a call needs more.
#[test]
fn eof_has_its_kind(rt: HostRuntime) -> Result<(), Fail> {
    for call in CALLS {
        let bytes: &[u8] = if matches!(call, Call::Byte) {
            &[]
        } else {
            &[1]
        };
        let mut buffered = BufferedReader::new(rt.alloc(), Cursor::new(bytes))?;
        assert!(rt; has_kind_of_eof(&mut buffered, call));
        assert!(rt; has_kind_of_eof(&mut Cursor::new(bytes), call));
    }
    Ok(())
}

// A cursor with too few bytes consumes none of them.
#[test]
fn eof_takes_nothing(rt: HostRuntime) -> Result<(), Fail> {
    let mut cursor = Cursor::new([1u8, 2]);
    assert!(rt; cursor.skip(3).is_err() && cursor.read_into(&mut [0; 3]).is_err());
    assert!(rt; cursor.read_be_u16()? == 0x0102);
    Ok(())
}

#[test]
fn errors_and_their_texts(rt: HostRuntime) -> Result<(), Fail> {
    let fault = Error::FormatError("frame CRC mismatch");
    assert!(rt; fault == Error::FormatError("frame CRC mismatch"));
    assert!(rt; fault != Error::Unsupported("frame CRC mismatch"));
    let text = format!(in rt.alloc(); "{fault}")?;
    assert!(rt; text.as_str() == "Ill-formed FLAC stream: frame CRC mismatch");
    let cause = Error::from(io::Error::new(io::ErrorKind::Other, "failed"));
    assert!(rt; cause != Error::from(io::Error::new(io::ErrorKind::Other, "failed")));
    Ok(())
}

// `left` zero bytes, and then bytes of the value `then`. None of them is stored, and those consumed are counted. It is a
// `ReadBytes` with only the four required methods, whose contents are unknown, and a `Read` for a buffered reader.
#[derive(Drop)]
struct Zeros {
    left: u64,
    then: u8,
    taken: u64,
}

const fn zeros_before(left: u64, then: u8) -> Zeros {
    Zeros {
        left,
        then,
        taken: 0,
    }
}

impl Zeros {
    fn take(&mut self) -> u8 {
        self.taken = self.taken.wrapping_add(1);
        if self.left == 0 {
            return self.then;
        }
        self.left -= 1;
        0
    }
}

impl ReadBytes for Zeros {
    fn read_u8(&mut self) -> io::Result<u8> {
        Ok(self.take())
    }

    fn read_u8_or_eof(&mut self) -> io::Result<Option<u8>> {
        Ok(Some(self.take()))
    }

    fn read_into(&mut self, buffer: &mut [u8]) -> io::Result<()> {
        for slot in buffer.iter_mut() {
            *slot = self.take();
        }
        Ok(())
    }

    fn skip(&mut self, amount: u32) -> io::Result<()> {
        for _ in 0..amount {
            self.take();
        }
        Ok(())
    }
}

impl Read for Zeros {
    fn read(&mut self, buf: &mut [u8]) -> io::Result<usize> {
        let count = buf.len().min(self.left.min(2048) as usize);
        buf[..count].fill(0);
        buf[count..].fill(self.then);
        self.left = self.left.saturating_sub(count as u64);
        Ok(buf.len())
    }
}

// Whether a run of zeros has this length, or is too long for None, and the next run has this length.
fn counts<R: ReadBytes>(input: &mut R, first: Option<u32>, second: u32) -> bool {
    let mut bits = Bitstream::new(input);
    let is_first = match bits.read_unary() {
        Ok(count) => first == Some(count),
        Err(cause) => first.is_none() && cause.kind() == io::ErrorKind::InvalidData,
    };
    is_first && bits.read_unary().is_ok_and(|count| count == second)
}

// 2^32 - 1 zeros and a one.
#[test]
fn the_longest_run_of_zeros(rt: HostRuntime) {
    let mut input = zeros_before(536_870_911, 0x01);
    assert!(rt; counts(&mut input, Some(4_294_967_295), 7));
    assert!(rt; input.taken == 536_870_913);
}

// 2^32 zeros: all of them are consumed, and what follows is read from its first bit on.
#[test]
fn a_run_of_zeros_too_long(rt: HostRuntime) {
    let mut input = zeros_before(536_870_912, 0x80);
    assert!(rt; counts(&mut input, None, 0));
    assert!(rt; input.taken == 536_870_913);
}

#[test]
fn buffered_runs_of_zeros(rt: HostRuntime) -> Result<(), Fail> {
    let mut reader = BufferedReader::new(rt.alloc(), zeros_before(536_870_911, 0x01))?;
    assert!(rt; counts(&mut reader, Some(4_294_967_295), 7));
    let mut reader = BufferedReader::new(rt.alloc(), zeros_before(536_870_912, 0x80))?;
    assert!(rt; counts(&mut reader, None, 0));
    Ok(())
}

// A 13-bit number after three bytes.
fn number_after_three<R: ReadBytes>(reader: &mut R) -> io::Result<u16> {
    reader.skip(3)?;
    Bitstream::new(reader).read_leq_u16(13)
}

// The same, with the CRC.
fn number_and_crc<R: ReadBytes>(input: &mut R) -> io::Result<(u16, u16)> {
    let mut crc = Crc16Reader::new(input);
    let number = number_after_three(&mut crc)?;
    Ok((number, crc.value()))
}

#[test]
fn zeros_give_zero(rt: HostRuntime) -> Result<(), Fail> {
    let mut input = zeros_before(6, 0xff);
    assert!(rt; input.buffered().is_empty());
    let (number, crc16) = number_and_crc(&mut input)?;
    assert!(rt; number == 0 && crc16 == 0 && input.taken == 5);
    Ok(())
}
