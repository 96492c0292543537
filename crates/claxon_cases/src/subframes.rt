//! Subframes: the bits consumed, and the samples.
use crate::answers::AnswerText;
use crate::replay::Case;
use claxon::input::{Bitstream, ReadBytes};
use claxon::{Error, Result, subframe};
use claxon_command_line::result_text::ResultText;
use std::alloc::Global;
use std::io::Cursor;

/// Adds `ok BITS samples..`, `BITS text`, or `IO`, after which all bits are consumed.
pub fn answer_of_subframe(alloc: Global, case: &Case, answer: &mut ResultText) {
    let (bit_depth, length) = (case.number, case.length as usize);
    let mut buffer = Vec::new(alloc);
    if bit_depth > 32 || length > 65535 || buffer.resize(length, 13).is_err() {
        answer.text("no case");
        return;
    }
    let mut bits = Bitstream::new(Cursor::new(case.bytes.as_slice()));
    let outcome = subframe::decode(&mut bits, bit_depth, buffer.as_mut_slice());
    let all = (case.bytes.len() as u64).saturating_mul(8);
    let taken = all.saturating_sub(bits_left(&mut bits));
    add_outcome(&outcome, &buffer, taken, all, answer);
}

fn add_outcome(
    outcome: &Result<()>,
    samples: &[i32],
    taken: u64,
    all: u64,
    answer: &mut ResultText,
) {
    match outcome {
        Ok(()) => {
            answer.counts(&[("ok ", taken)]);
            answer.samples(samples);
        }
        Err(error) => answer.fault_after(taken, all, error),
    }
}

// Counts the remaining bits by reading them.
fn bits_left<R: ReadBytes>(bits: &mut Bitstream<R>) -> u64 {
    for count in 0..u64::MAX {
        if bits.read_bit().is_err() {
            return count;
        }
    }
    u64::MAX
}
