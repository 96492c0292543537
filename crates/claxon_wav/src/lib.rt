//! WAV files, and FLAC streams that are converted to them.
#![tactic(auto)]

mod blocks;
mod conversion;
mod error;
mod header;
mod plan;
mod samples;
mod writer;

pub use blocks::{convert, convert_to_stream};
pub use conversion::{Conversion, Mismatch, write_file, write_stream};
pub use error::{Error, Result};
pub use header::{Layout, MAX_DATA_SIZE, MAX_HEADER_SIZE};
pub use plan::Plan;
pub use writer::WavWriter;
