//! Tests of streams whose bytes are handed in.
#![tactic(auto)]

#[cfg(test)]
mod finder;
#[cfg(test)]
mod frames;
#[cfg(test)]
mod heads;
