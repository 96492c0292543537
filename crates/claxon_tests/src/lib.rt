//! Tests of the decoder that cross crates: bytes and bits; sequences of metadata blocks; headers of frames; frames and whole
//! streams, from files and over readers that give few bytes, pause and fail; runs of some 2^32 zeros; runs into writers of all
//! kinds; command lines of `claxon_raw`; refused memory; proved callers; and vectors of upstream's tests. Rows of bytes with
//! their results are lines of `claxon_cases`.
#![tactic(auto)]

#[cfg(test)]
mod block_headers;
#[cfg(test)]
mod buffers;
#[cfg(test)]
mod cuts;
#[cfg(test)]
mod failing;
#[cfg(test)]
mod files;
#[cfg(test)]
mod frames;
#[cfg(test)]
mod headers;
#[cfg(test)]
mod in_turn;
#[cfg(test)]
mod input;
#[cfg(test)]
mod lost_output;
#[cfg(test)]
mod max_blocks;
#[cfg(test)]
mod memory;
#[cfg(test)]
mod raw_command;
#[cfg(test)]
mod seeks;
#[cfg(test)]
mod sources;
#[cfg(test)]
mod uses;
#[cfg(test)]
mod vectors;
#[cfg(test)]
mod writers;
#[cfg(test)]
mod zeros;
