//! The commands that show what is in a file: `info` and `trace`.
#![tactic(auto)]

pub mod info;
pub mod trace;
