//! The head of a stream, whose metadata is passed over where it isn't supported: other decoders accept it.
#![tactic(auto)]

mod bytes_read;
mod head;

pub use bytes_read::BytesRead;
pub use head::{UnsupportedBlock, read_head};
