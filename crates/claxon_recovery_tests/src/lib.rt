//! Tests of the parts of damaged streams.
#![tactic(auto)]

#[cfg(test)]
mod budget;
#[cfg(test)]
mod failing;
#[cfg(test)]
mod frames;
#[cfg(test)]
mod long_frames;
#[cfg(test)]
mod next_frames;
#[cfg(test)]
mod parts;
