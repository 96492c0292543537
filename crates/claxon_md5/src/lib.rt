//! The MD5 message-digest algorithm (RFC 1321).
//!
//! A message is given in pieces of any length. Its whole blocks of 64 bytes are hashed where they
//! are, and only the bytes before and after them are copied. A digest shows that data was damaged.
//! It doesn't show who made the data: other messages with the same digest can be made.
//!
//! Samples are hashed as the MD5 sum of a FLAC stream has them (RFC 9639, section 8.2).
#![tactic(auto)]

ghost use Rattle.std.specs.Prelude.{◌≡◌, ◌≤◌, ◌%◌, [], fold, length};
ghost use Rattle.claxon_md5.specs.Md5.{bytes_of_words, length_bytes, process, zero_count};

use block::BLOCK_LEN;
use packing::{BUFFER_LEN, MAX_SAMPLES};

mod block;
mod packing;
#[cfg(test)]
mod tests;

// The words before the first block (RFC 1321, section 3.3).
const INITIAL_WORDS: [u32; 4] = [0x6745_2301, 0xefcd_ab89, 0x98ba_dcfe, 0x1032_5476];

// A prefix of this is appended to a message, and then its length.
const ONE_AND_ZEROS: [u8; BLOCK_LEN] = [
    0x80, 0, 0, 0, 0, 0, 0, 0, 0, 0, 0, 0, 0, 0, 0, 0, 0, 0, 0, 0, 0, 0, 0, 0, 0, 0, 0, 0, 0, 0, 0,
    0, 0, 0, 0, 0, 0, 0, 0, 0, 0, 0, 0, 0, 0, 0, 0, 0, 0, 0, 0, 0, 0, 0, 0, 0, 0, 0, 0, 0, 0, 0, 0,
    0,
];

/// A hasher. It has hashed the pieces that it was given, one after another.
///
/// A copy hashes on by itself. In memory a hasher is laid out as the same struct in C.
#[repr(C)]
#[derive(Clone, Copy)]
pub struct Md5 {
    // The words after the whole blocks.
    state: [u32; 4],
    // The number of bytes, modulo 2^64.
    length: u64,
    // It begins with the bytes after the whole blocks.
    buffer: [u8; BLOCK_LEN],
}

impl Md5 {
    ghost use Rattle.claxon_md5.specs.HasHashed.{HasHashed};
    ghost use Rattle.claxon_md5.specs.HasherCalls.{HashesBytes, HashesSamples, IsDigest};
    ghost use Rattle.claxon_md5.specs.Planar.{HashesPlanar};

    /// A hasher that was given no bytes.
    pub fn new() -> Md5
        ensures has_hashed { HasHashed result [] }
    {
        Md5 {
            state: INITIAL_WORDS,
            length: 0,
            buffer: [0; BLOCK_LEN],
        }
    }

    /// Hashes these bytes too.
    pub fn update(&mut self, bytes: &[u8])
        ensures hashes_bytes { HashesBytes bytes.now self.old self.new }
    {
        let left = (self.length % BLOCK_LEN as u64) as usize;
        self.length = self.length.wrapping_add(bytes.len() as u64);
        let mut rest = bytes;
        // Bytes that are left of earlier pieces become a block first.
        if 0 < left {
            let missing = BLOCK_LEN - left;
            if bytes.len() < missing {
                self.buffer[left..left + bytes.len()].copy_from_slice(bytes);
                return;
            }
            let (front, back) = bytes.split_at(missing);
            self.buffer[left..].copy_from_slice(front);
            let state = block::process(self.state, &self.buffer);
            self.state = state;
            rest = back;
        }
        let (blocks, rest) = rest.as_chunks::<BLOCK_LEN>();
        let state = process_all(self.state, blocks);
        self.state = state;
        self.buffer[..rest.len()].copy_from_slice(rest);
    }

    /// Hashes interleaved samples too, each in the fewest whole bytes that hold the bit depth, the
    /// low-order byte first. Of a sample that doesn't fit the bit depth only the low bytes are
    /// hashed.
    pub fn update_samples(&mut self, samples: &[i32], bit_depth: u32)
        requires min_bit_depth { 1 ≤ bit_depth }
        requires max_bit_depth { bit_depth ≤ 32 }
        ensures hashes_samples { HashesSamples bit_depth samples.now self.old self.new }
    {
        let mut buffer = [0; BUFFER_LEN];
        let mut at = 0;
        while at < samples.len() {
            let end = at + MAX_SAMPLES.min(samples.len() - at);
            let count = packing::pack(&samples[at..end], bit_depth, &mut buffer);
            self.update(&buffer[..count]);
            at = end;
        }
    }

    /// Hashes planar samples too, those of one channel after those of another, in the order in which
    /// they are interleaved. Each is hashed as by `update_samples`.
    pub fn update_planar(&mut self, samples: &[i32], channels: u32, bit_depth: u32)
        requires some_channels { 1 ≤ channels }
        requires few_channels { channels ≤ 8 }
        requires same_lengths { length samples.now % channels ≡ 0 }
        requires min_bit_depth { 1 ≤ bit_depth }
        requires max_bit_depth { bit_depth ≤ 32 }
        ensures hashes_planar { HashesPlanar channels bit_depth samples.now self.old self.new }
    {
        match channels {
            1 => self.update_channels::<1>(samples, bit_depth),
            2 => self.update_channels::<2>(samples, bit_depth),
            3 => self.update_channels::<3>(samples, bit_depth),
            4 => self.update_channels::<4>(samples, bit_depth),
            5 => self.update_channels::<5>(samples, bit_depth),
            6 => self.update_channels::<6>(samples, bit_depth),
            7 => self.update_channels::<7>(samples, bit_depth),
            _ => self.update_channels::<8>(samples, bit_depth),
        }
    }

    // The same of `CHANNELS` channels: a constant, so that no sample costs a division.
    fn update_channels<const CHANNELS: usize>(&mut self, samples: &[i32], bit_depth: u32)
        requires some_channels { 1 ≤ CHANNELS }
        requires same_lengths { length samples.now % CHANNELS ≡ 0 }
        requires min_bit_depth { 1 ≤ bit_depth }
        requires max_bit_depth { bit_depth ≤ 32 }
        ensures hashes_planar { HashesPlanar CHANNELS bit_depth samples.now self.old self.new }
    {
        let mut interleaved = [0; MAX_SAMPLES];
        let mut from = 0;
        while from < samples.len() {
            let count = MAX_SAMPLES.min(samples.len() - from);
            packing::interleave::<CHANNELS>(samples, from, &mut interleaved[..count]);
            self.update_samples(&interleaved[..count], bit_depth);
            from += count;
        }
    }

    /// The digest of the bytes that were hashed.
    pub fn finish(self) -> [u8; 16]
        ensures is_digest { IsDigest self result }
    {
        let mut hasher = self;
        let length = hasher.length;
        let zeros = zero_count(length);
        hasher.update(&ONE_AND_ZEROS[..zeros + 1]);
        hasher.update(&length_bytes(length));
        bytes_of_words(hasher.state)
    }
}

// How many bytes of zeros are between the byte 0x80 and the length. These take 9 bytes, so 55 of a
// block or 119 of two blocks remain for the bytes after the whole blocks and for zeros.
fn zero_count(length: u64) -> usize
    ensures { result ≡ zero_count length }
{
    let left = (length % BLOCK_LEN as u64) as usize;
    if left <= 55 { 55 - left } else { 119 - left }
}

// The number of bits, modulo 2^64, in 8 bytes.
fn length_bytes(length: u64) -> [u8; 8]
    ensures { result ≡ length_bytes length }
{
    length.wrapping_mul(8).to_le_bytes()
}

// The words after these blocks.
fn process_all(state: [u32; 4], blocks: &[[u8; BLOCK_LEN]]) -> [u32; 4]
    ensures { result ≡ fold process state blocks.now }
{
    let mut state = state;
    for block in blocks {
        let next = block::process(state, block);
        state = next;
    }
    state
}

// The bytes of these words, the low-order byte first.
fn bytes_of_words(words: [u32; 4]) -> [u8; 16]
    ensures { result ≡ bytes_of_words words }
{
    let mut bytes = [0; 16];
    for i in 0..4 {
        bytes[4 * i..4 * i + 4].copy_from_slice(&words[i].to_le_bytes());
    }
    bytes
}
