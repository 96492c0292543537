//! Tests of whole streams that are verified: reports, places, sums, readers that fail, and command lines of `claxon verify`.
#![tactic(auto)]

#[cfg(test)]
mod failing;
#[cfg(test)]
mod frames;
#[cfg(test)]
mod hashing;
#[cfg(test)]
mod lost_heads;
#[cfg(test)]
mod memory;
#[cfg(test)]
mod notes;
#[cfg(test)]
mod places;
#[cfg(test)]
mod reports;
#[cfg(test)]
mod streams;
#[cfg(test)]
mod trailing;
#[cfg(test)]
mod unsupported;
#[cfg(test)]
mod verdicts;
#[cfg(test)]
mod verify;
