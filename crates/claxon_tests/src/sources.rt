//! A reader that gives one byte per read, and one that gives up to 2^32 zero bytes without storing them.
use std::io;
use std::io::Read;

/// Gives one byte per read.
#[derive(Drop)]
pub struct OneByte<'a> {
    bytes: &'a [u8],
}

impl<'a> OneByte<'a> {
    pub fn new(bytes: &'a [u8]) -> OneByte<'a> {
        OneByte { bytes }
    }
}

impl Read for OneByte<'_> {
    fn read(&mut self, buf: &mut [u8]) -> io::Result<usize> {
        let (Some((first, rest)), Some(slot)) = (self.bytes.split_first(), buf.first_mut()) else {
            return Ok(0);
        };
        *slot = *first;
        self.bytes = rest;
        Ok(1)
    }
}

/// Gives a byte, `zeros` zero bytes, and then another byte without end.
#[derive(Drop)]
pub struct ZerosBetween {
    first: Option<u8>,
    zeros: u32,
    last: u8,
}

impl ZerosBetween {
    pub fn new(first: u8, zeros: u32, last: u8) -> ZerosBetween {
        ZerosBetween {
            first: Some(first),
            zeros,
            last,
        }
    }
}

impl Read for ZerosBetween {
    fn read(&mut self, buf: &mut [u8]) -> io::Result<usize> {
        if let (Some(first), Some(slot)) = (self.first, buf.first_mut()) {
            *slot = first;
            self.first = None;
            return Ok(1);
        }
        let zeros = buf.len().min(self.zeros as usize);
        buf[..zeros].fill(0);
        buf[zeros..].fill(self.last);
        self.zeros -= zeros as u32;
        Ok(buf.len())
    }
}
