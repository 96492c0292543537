//! Subframes: the samples of a channel.
#![tactic(auto)]

pub mod subframe;
