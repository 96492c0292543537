//! Frames: blocks of samples.
#![tactic(auto)]

pub mod frame;
