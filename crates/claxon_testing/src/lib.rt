//! What crates of tests share: doubles, streams, results in a form that can be compared, command lines, temporary files.
#![tactic(auto)]

pub mod answers;
pub mod command_lines;
pub mod doubles;
pub mod temporary_files;
