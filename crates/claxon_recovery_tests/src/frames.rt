//! Frames of verbatim subframes, written by the definitions of RFC 9639, section 9.
ghost use Rattle.std.specs.Prelude.{◌≤◌};
ghost use Rattle.claxon.specs.ShownHead.{HasBitDepth};

use claxon::metadata::StreamInfo;
use std::alloc::Global;

/// Of eight channels of 24 bits, with blocks of at most so many samples.
pub fn wide_info(max_block_size: u16) -> StreamInfo
    ensures { HasBitDepth result }
{
    StreamInfo {
        min_block_size: 16,
        max_block_size,
        min_frame_size: None,
        max_frame_size: None,
        sample_rate: 96_000,
        channels: 8,
        bits_per_sample: 24,
        samples: None,
        md5sum: [0; 16],
    }
}

// The remainder of these bytes and as many zero bits as the polynomial's degree, 8 or 16.
fn crc(bytes: &[u8], polynomial: u32, degree: u32) -> u32
    requires whole_byte { 8 ≤ degree }
    requires fits { degree ≤ 16 }
{
    let top = 1u32 << degree;
    let mut remainder = 0u32;
    for byte in bytes {
        remainder ^= u32::from(*byte) << (degree - 8);
        for _ in 0..8 {
            remainder <<= 1;
            if remainder & top != 0 {
                remainder ^= polynomial;
            }
        }
    }
    remainder
}

/// The header of a frame of eight channels of 24 bits, of so many samples, from 1 to 65,535.
pub fn wide_header(samples: u16) -> [u8; 8] {
    let [high, low] = samples.wrapping_sub(1).to_be_bytes();
    let mut header = [0xff, 0xf8, 0x70, 0x7c, 0x00, high, low, 0];
    let [_, _, _, crc] = crc(&header[..7], 0x107, 8).to_be_bytes();
    header[7] = crc;
    header
}

/// Such a frame. Each sample has this value, from 0 to 127.
pub fn wide_frame(alloc: Global, samples: u16, value: u8) -> claxon::Result<Vec<u8>> {
    let mut bytes = Vec::new(alloc);
    bytes.extend_from_slice(&wide_header(samples))?;
    for _ in 0..8 {
        bytes.push(0x02)?;
        for _ in 0..samples {
            bytes.extend_from_slice(&[0, 0, value])?;
        }
    }
    let [_, _, high, low] = crc(bytes.as_slice(), 0x1_8005, 16).to_be_bytes();
    bytes.extend_from_slice(&[high, low])?;
    Ok(bytes)
}
