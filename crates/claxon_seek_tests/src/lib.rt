//! Tests of seeking in bytes: heads, frames that are found, and blocks with a sample.
#![tactic(auto)]

#[cfg(test)]
mod find;
#[cfg(test)]
mod heads;
