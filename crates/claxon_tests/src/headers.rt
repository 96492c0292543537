//! Headers of frames, alone.
use claxon::frame::{BlockInfo, FrameReader};
use claxon_testing::answers::{Fault, fault_of};
use std::io::Cursor;

// What a call for a header gives, and how many bytes it consumes.
fn header_of(bytes: &[u8]) -> (Result<Option<BlockInfo>, Fault>, u64) {
    let mut frames = FrameReader::new(Cursor::new(bytes));
    let found = match frames.read_header_or_eof() {
        Ok(info) => Ok(info),
        Err(error) => Err(fault_of(&error)),
    };
    (found, frames.into_inner().position())
}

// A header: its bytes; the time and the duration of its block; the sample rate, if it gives one; whether its number is that of a
// sample, and the number.
type Row = (&'static [u8], u64, u32, Option<u32>, bool, u64);

// Whether these bytes are the header of a block of two channels of 16 bits, and say this.
fn is_header((bytes, time, duration, sample_rate, is_variable, number): Row) -> bool {
    let (Ok(Some(info)), taken) = header_of(bytes) else {
        return false;
    };
    taken == bytes.len() as u64
        && (info.time, info.duration, info.number) == (time, duration, number)
        && (info.channels, info.bit_depth, info.header_bit_depth) == (2, 16, Some(16))
        && info.sample_rate == sample_rate
        && info.is_variable == is_variable
}

// The frame of the example in RFC 9639, appendix D.1, is a block of one sample of each of two channels, of 16 bits, at time 0.
// Its header has seven bytes.
#[test]
fn header_alone(rt: HostRuntime) {
    let (found, taken) = header_of(&[0xff, 0xf8, 0x69, 0x18, 0x00, 0x00, 0xbf, 0x03]);
    let is_that_block = matches!(
        found,
        Ok(Some(BlockInfo {
            time: 0,
            channels: 2,
            duration: 1,
            bit_depth: 16,
            header_bit_depth: Some(16),
            sample_rate: Some(44_100),
            is_variable: false,
            number: 0,
        }))
    );
    assert!(rt; is_that_block && taken == 7);
}

fn is_fault(bytes: &[u8], want: Fault) -> bool {
    match header_of(bytes) {
        (Err(fault), _) => fault == want,
        _ => false,
    }
}

// The same header with a wrong CRC, and without it.
#[test]
fn faulty_header_alone(rt: HostRuntime) {
    let bytes = [0xffu8, 0xf8, 0x69, 0x18, 0x00, 0x00, 0xbe];
    assert!(rt; is_fault(&bytes, Fault::Format("frame header CRC mismatch")));
    assert!(rt; is_fault(&bytes[..6], Fault::Io));
    assert!(rt; matches!(header_of(&bytes[..1]), (Ok(None), _)));
}

// The rate is that of the streaminfo, 44.1 kHz by its code, 88 kHz in a byte, 11,025 Hz in two bytes and the most tens of Hz. The
// number is that of a frame, up to 31 bits, which counts by the block size, or with a variable block size that of a sample, up to
// 36 bits.
#[rattlefmt::skip]
const ROWS: [Row; 6] = [
    (&[0xff, 0xf8, 0x60, 0x18, 0x05, 0x01, 0x5f], 10, 2, None, false, 5),
    (&[0xff, 0xf8, 0x69, 0x18, 0xfd, 0xbf, 0xbf, 0xbf, 0xbf, 0xbf, 0x00, 0x4f],
        0x7fff_ffff, 1, Some(44_100), false, 0x7fff_ffff),
    (&[0xff, 0xf9, 0x6c, 0x18, 0xe1, 0x88, 0xb4, 0x00, 0x58, 0x02], 0x1234, 1, Some(88_000), true, 0x1234),
    (&[0xff, 0xf8, 0x6d, 0x18, 0x00, 0x00, 0x2b, 0x11, 0x66], 0, 1, Some(11_025), false, 0),
    (&[0xff, 0xf9, 0x6e, 0x18, 0xfe, 0xbf, 0xbf, 0xbf, 0xbf, 0xbf, 0xbf, 0x00, 0xff, 0xff, 0x17],
        0xf_ffff_ffff, 1, Some(655_350), true, 0xf_ffff_ffff),
    (&[0xff, 0xf9, 0x6e, 0x18, 0x07, 0x01, 0x00, 0x01, 0x82], 7, 2, Some(10), true, 7),
];

#[test]
fn rates_and_numbers(rt: HostRuntime) {
    for (row, it) in ROWS.iter().enumerate() {
        assert!(rt; is_header(*it), "{row}");
    }
}
