//! What answers have beside other results of the decoder.
use claxon::{Error, Result};
use claxon_command_line::result_text::ResultText;

/// More that is added to the text of an answer.
pub trait AnswerText {
    /// Adds these texts.
    fn parts(&mut self, parts: &[&str]);

    /// Adds each of the samples, after a space.
    fn samples(&mut self, samples: &[i32]);

    /// Adds the number of bits or bytes consumed and the text of a fault, or `IO` for an `IoError` after all of them.
    fn fault_after(&mut self, taken: u64, all: u64, error: &Error);

    /// Adds the other answer after the heading, if it differs from the first.
    fn difference(&mut self, one: &ResultText, other: &ResultText, heading: &str);

    /// Adds `end` or the fault.
    fn end(&mut self, outcome: &Result<()>);
}

impl AnswerText for ResultText {
    fn parts(&mut self, parts: &[&str]) {
        for part in parts {
            self.text(part);
        }
    }

    fn samples(&mut self, samples: &[i32]) {
        for sample in samples {
            self.text(" ");
            self.value(sample);
        }
    }

    fn fault_after(&mut self, taken: u64, all: u64, error: &Error) {
        match error {
            Error::IoError(_) if taken == all => self.text("IO"),
            _ => {
                self.value(&taken);
                self.text(" ");
                self.value(error);
            }
        }
    }

    fn difference(&mut self, one: &ResultText, other: &ResultText, heading: &str) {
        if one.as_bytes() != other.as_bytes() {
            self.text(heading);
            self.bytes(other.as_bytes());
        }
    }

    fn end(&mut self, outcome: &Result<()>) {
        match outcome {
            Ok(()) => self.text("end"),
            Err(error) => self.fault(error),
        }
    }
}
