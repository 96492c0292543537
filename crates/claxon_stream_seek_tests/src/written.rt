//! Streams that are written here, by the definitions of RFC 9639, section 9: frames of one channel of 8 bits and one value.
use claxon::metadata::StreamInfo;
use std::alloc::{AllocError, Global};

// What coded numbers count, and whether the header says that sizes vary.
#[derive(Clone, Copy)]
pub(crate) enum Numbers {
    Frames,
    Samples,
    // As encoders wrote them before the header had a bit for it.
    OldSamples,
}

// The bytes of a frame.
#[derive(Drop)]
struct FrameBytes {
    bytes: [u8; 16],
    len: usize,
}

impl FrameBytes {
    fn push(&mut self, byte: u8) {
        if self.len < 16 {
            self.bytes[self.len] = byte;
            self.len += 1;
        }
    }

    // The coded number, of one to three bytes.
    fn push_number(&mut self, number: u32) {
        if number < 0x80 {
            self.push((number & 0x7f) as u8);
        } else if number < 0x800 {
            self.push((0xc0 | ((number >> 6) & 0x1f)) as u8);
            self.push((0x80 | (number & 0x3f)) as u8);
        } else {
            self.push((0xe0 | ((number >> 12) & 0x0f)) as u8);
            self.push((0x80 | ((number >> 6) & 0x3f)) as u8);
            self.push((0x80 | (number & 0x3f)) as u8);
        }
    }

    // The remainder by a polynomial of so many bits, bit by bit.
    fn crc(&self, polynomial: u32, bits: u32) -> u32 {
        let width = bits.min(16);
        let mut crc = 0u32;
        for byte in &self.bytes[..self.len.min(16)] {
            for bit in 0..8u32 {
                let input = u32::from(*byte) >> (7 - bit) & 1;
                let top = crc >> (width.max(1) - 1) & 1;
                crc = crc.wrapping_mul(2) & 0xffff;
                if top != input {
                    crc ^= polynomial;
                }
            }
            crc &= if width == 8 { 0xff } else { 0xffff };
        }
        crc
    }
}

// A frame of this coded number, with so many samples, one at least.
pub(crate) fn put_frame(
    bytes: &mut Vec<u8>,
    is_variable: bool,
    number: u32,
    size: u8,
) -> Result<(), AllocError> {
    let mut frame = FrameBytes {
        bytes: [0; 16],
        len: 0,
    };
    frame.push(0xff);
    frame.push(if is_variable { 0xf9 } else { 0xf8 });
    frame.push(0x69);
    frame.push(0x02);
    frame.push_number(number);
    frame.push(size.saturating_sub(1));
    let crc8 = frame.crc(0x07, 8);
    frame.push((crc8 & 0xff) as u8);
    frame.push(0);
    frame.push(size);
    let crc16 = frame.crc(0x8005, 16);
    frame.push((crc16 >> 8 & 0xff) as u8);
    frame.push((crc16 & 0xff) as u8);
    bytes.extend_from_slice(&frame.bytes[..frame.len.min(16)])
}

// Frames of these sizes, one after another.
pub(crate) fn stream_of(
    alloc: Global,
    numbers: Numbers,
    sizes: &[u8],
) -> Result<Vec<u8>, AllocError> {
    let mut bytes = Vec::new(alloc);
    let mut sample = 0u32;
    for (i, size) in sizes.iter().enumerate() {
        let frame = (i & 0xffff) as u32;
        let (is_variable, number) = match numbers {
            Numbers::Frames => (false, frame),
            Numbers::Samples => (true, sample),
            Numbers::OldSamples => (false, sample),
        };
        put_frame(&mut bytes, is_variable, number, *size)?;
        sample = sample.saturating_add(u32::from(*size));
    }
    Ok(bytes)
}

// The streaminfo of such a stream with these sizes.
pub(crate) fn info(min_block_size: u16, max_block_size: u16) -> StreamInfo {
    StreamInfo {
        min_block_size,
        max_block_size,
        min_frame_size: None,
        max_frame_size: None,
        sample_rate: 44_100,
        channels: 1,
        bits_per_sample: 8,
        samples: None,
        md5sum: [0; 16],
    }
}

// The same, or none.
pub(crate) fn known_of(block_sizes: Option<(u16, u16)>) -> Option<StreamInfo> {
    match block_sizes {
        Some((min, max)) => Some(info(min, max)),
        None => None,
    }
}
