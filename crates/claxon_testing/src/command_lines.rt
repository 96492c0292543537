//! What command lines come to.
use std::alloc::{AllocError, Global};

/// What a command line came to.
#[derive(Drop)]
pub struct Outcome {
    pub status: u8,
    pub output: Vec<u8>,
    pub errors: Vec<u8>,
}

/// Whether that is what a command line came to.
pub fn is_outcome(outcome: &Outcome, status: u8, output: &[u8], errors: &[u8]) -> bool {
    outcome.status == status
        && outcome.output.as_slice() == output
        && outcome.errors.as_slice() == errors
}

/// The arguments of a command line.
pub fn owned(alloc: Global, words: &[&str]) -> Result<Vec<String>, AllocError> {
    let mut owned = Vec::new(alloc);
    for word in words {
        owned.push(String::from_str(alloc, *word)?)?;
    }
    Ok(owned)
}
