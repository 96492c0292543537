//! Callers of the decoder, proved from its contracts: each says what it does in terms of the bytes that it is given.
#![tactic(auto)]

mod blocks;
mod crc_pair;
mod frames;
mod samples;
mod streams;
mod tags;

pub use blocks::{block_peak, peak};
pub use crc_pair::read_pair_with_crc;
pub use frames::{decode_one, decode_packet};
pub use samples::first_samples;
pub use streams::decode_all;
pub use tags::{list_tags, stream_tags, tag_lines};
