//! The samples of a stream as bytes, written to a writer, and the command of `claxon_raw`.
#![tactic(auto)]

mod counting_writer;
mod output;
mod raw;
mod stream;

pub use counting_writer::CountingWriter;
pub use output::Output;
pub use raw::{command, open_head};
pub use stream::{run, write_samples};
