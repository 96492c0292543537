//! Tests of damaged streams that are written as WAV files.
#![tactic(auto)]

#[cfg(test)]
mod failing;
#[cfg(test)]
mod files;
#[cfg(test)]
mod order;
#[cfg(test)]
mod rows;
#[cfg(test)]
mod silence;
