//! Results of the decoder, as text.
use claxon_input::error::{Error, Result};
use claxon_metadata::metadata::StreamInfo;
use std::alloc::Global;
use std::fmt;
use std::io::Write;

/// The text of a result, gathered in memory and written at once. If memory is refused the text is lost; the methods that add
/// to it have no errors.
#[derive(Drop)]
pub struct ResultText {
    text: Vec<u8>,
    is_lost: bool,
}

impl ResultText {
    /// An empty text.
    pub fn new(alloc: Global) -> ResultText {
        ResultText {
            text: Vec::new(alloc),
            is_lost: false,
        }
    }

    /// The text, or one that no answer has if it is lost.
    pub fn as_bytes(&self) -> &[u8] {
        if self.is_lost {
            b"no memory for the answer"
        } else {
            self.text.as_slice()
        }
    }

    /// Writes the text.
    ///
    /// # Errors
    ///
    /// `OutOfMemory` if it is lost, or the writer's `IoError`.
    pub fn write_to<W: Write>(&self, output: &mut W) -> Result<()> {
        if self.is_lost {
            return Err(Error::OutOfMemory);
        }
        output.write_all(self.text.as_slice())?;
        Ok(())
    }

    /// Adds these bytes.
    pub fn bytes(&mut self, bytes: &[u8]) {
        if self.text.extend_from_slice(bytes).is_err() {
            self.is_lost = true;
        }
    }

    /// Adds this text.
    pub fn text(&mut self, text: &str) {
        self.bytes(text.as_bytes());
    }

    /// Adds a value as its text.
    pub fn value<T: fmt::Display>(&mut self, value: &T) {
        if write!(&mut self.text, "{value}").is_err() {
            self.is_lost = true;
        }
    }

    /// Adds a value as its text, or `none`.
    pub fn value_or_none<T: fmt::Display>(&mut self, value: &Option<T>) {
        match value {
            Some(value) => self.value(value),
            None => self.text("none"),
        }
    }

    /// Adds a value as `Debug` formats it.
    pub fn quoted<T: fmt::Debug>(&mut self, value: &T) {
        if write!(&mut self.text, "{value:?}").is_err() {
            self.is_lost = true;
        }
    }

    /// Adds texts with a number after each.
    pub fn counts(&mut self, counts: &[(&str, u64)]) {
        for (text, count) in counts {
            self.text(text);
            self.value(count);
        }
    }

    /// Adds bytes as hexadecimal digits.
    pub fn hexadecimal(&mut self, bytes: &[u8]) {
        const DIGITS: &[u8; 16] = b"0123456789abcdef";
        for byte in bytes {
            self.bytes(&[
                DIGITS[usize::from(byte >> 4)],
                DIGITS[usize::from(byte & 0b1111)],
            ]);
        }
    }

    /// Adds the values of a streaminfo.
    pub fn streaminfo(&mut self, info: &StreamInfo) {
        self.counts(&[
            ("blocks ", u64::from(info.min_block_size)),
            ("-", u64::from(info.max_block_size)),
        ]);
        self.text(" frames ");
        self.value_or_none(&info.min_frame_size);
        self.text("-");
        self.value_or_none(&info.max_frame_size);
        self.counts(&[
            (" rate ", u64::from(info.sample_rate)),
            (" channels ", u64::from(info.channels)),
            (" width ", u64::from(info.bits_per_sample)),
        ]);
        self.text(" samples ");
        self.value_or_none(&info.samples);
        self.text(" md5 ");
        self.hexadecimal(&info.md5sum);
    }

    /// Adds the text of a fault, or `IO`.
    pub fn fault(&mut self, error: &Error) {
        match error {
            Error::IoError(_) => self.text("IO"),
            _ => self.value(error),
        }
    }
}
