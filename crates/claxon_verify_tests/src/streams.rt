//! Streams of small frames.
use claxon::running::Running;
use claxon_testing::answers::head;
use std::alloc::{AllocError, Global};

/// The second byte of a frame whose block size is fixed.
pub const FIXED: u8 = 0xf8;

/// The second byte of a frame whose block size is variable.
pub const VARIABLE: u8 = 0xf9;

/// The third byte of a frame of 44,100 Hz.
pub const RATE: u8 = 0x69;

/// The third byte of a frame of 48,000 Hz.
pub const OTHER_RATE: u8 = 0x6a;

/// A frame of samples 5, of one channel of 8 bits. The number is less than 128.
pub fn frame(strategy: u8, rate: u8, number: u8, size: u8) -> [u8; 11] {
    let last = size.wrapping_sub(1);
    let mut bytes = [0xff, strategy, rate, 0x02, number, last, 0, 0, 5, 0, 0];
    bytes[6] = u8::zero().after(&bytes[..6]);
    let crc = u16::zero().after(&bytes[..9]);
    bytes[9..].copy_from_slice(&crc.to_be_bytes());
    bytes
}

/// A head that says that blocks have 16 samples, and frames of these sizes in order.
pub fn in_order(alloc: Global, strategy: u8, sizes: &[u8]) -> Result<Vec<u8>, AllocError> {
    let mut bytes = Vec::from_slice(alloc, &head(0x80))?;
    let mut number = 0u8;
    for size in sizes {
        bytes.extend_from_slice(&frame(strategy, RATE, number, *size))?;
        let step = if strategy == FIXED { 1 } else { *size };
        number = number.wrapping_add(step);
    }
    Ok(bytes)
}
