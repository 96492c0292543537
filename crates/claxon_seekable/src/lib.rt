//! A stream in a source that can seek, read from any sample on.
#![tactic(auto)]

mod frames;
mod memory;
mod reader;
mod searches;
mod source;
mod window;

pub use reader::SeekableReader;
