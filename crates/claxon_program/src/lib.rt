//! What commands print: help, version and usage line of a program, and the facts in the head of a stream.
#![tactic(auto)]

mod facts;
mod program;

pub use facts::write_facts;
pub use program::{Program, VERSION};
