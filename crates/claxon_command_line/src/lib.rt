//! What commands share: their arguments, the names of files and folders, values as text and JSON, lines about faults, progress,
//! results of the decoder as text, and the exit status.
#![tactic(auto)]

pub mod arguments;
pub mod fnv;
pub mod folders;
pub mod input;
pub mod json;
pub mod messages;
pub mod names;
mod program;
pub mod progress;
pub mod result_text;
pub mod text;

pub use program::{run_command, status};
