//! What is said of a stream that was verified: the verdict, lines of text and JSON objects, their printing, and the arguments
//! that ask for it.
#![tactic(auto)]

pub mod container;
pub mod json_report;
pub mod options;
pub mod print;
pub mod tally;
pub mod text;
pub mod verdict;
