//! Tests of seeking in streams, of where their blocks stand in time, and of streams that are read from any sample on.
#![tactic(auto)]

#[cfg(test)]
mod clocks;
#[cfg(test)]
mod reader;
#[cfg(test)]
mod seeks;
#[cfg(test)]
mod written;
