//! Folding: many bytes are turned into 128 bytes with the same CRC of 16 bits, by XOR alone.
//!
//! The 64th power of x^16 + x^15 + x^2 + 1 is x^1024 + x^960 + x^128 + 1, since the square of a sum over two elements is the sum
//! of the squares. It leaves no remainder, so a word of 64 bits adds to the CRC what the same word adds 1, 14 and 16 words
//! later, together.
ghost use Rattle.std.specs.Prelude.{◌≡◌, ◌++◌, take};
ghost use Rattle.std.specs.Int.{w64, to_le_bytes};
ghost use Rattle.std.specs.List.{flat_map};
ghost use Rattle.claxon_input.specs.CrcUpdate.{update_crc16};

use super::update16_by_16;

/// The CRC after more bytes, in pieces of 128.
pub fn update16_by_folding(state: u16, bytes: &[u8]) -> u16
    ensures { result ≡ update_crc16 state bytes.now }
{
    let (pieces, rest) = bytes.as_chunks::<128>();
    let Some((first, more)) = pieces.split_first() else {
        return update16_by_16(state, bytes);
    };
    let mut words = [0; 32];
    take_in(&mut words, &with_state(state, first));
    for piece in more {
        take_in(&mut words, piece);
    }
    let state = update16_by_16(0, &bytes_of(&words));
    update16_by_16(state, rest)
}

// XORs the state into the first two bytes: from 0 all have the CRC then that they had from the state.
fn with_state(state: u16, bytes: &[u8; 128]) -> [u8; 128]
    ensures { update_crc16 0 result ≡ update_crc16 state bytes.now }
{
    let mut bytes = *bytes;
    bytes[0] ^= (state >> 8) as u8;
    bytes[1] ^= (state & 0xff) as u8;
    bytes
}

// Turns the first 16 words and 128 bytes after them into 16 words with the same CRC.
#[inline(always)]
fn take_in(words: &mut [u64; 32], bytes: &[u8; 128])
    ensures { update_crc16 0 (flat_map (to_le_bytes w64) (take 16 words.new))
        ≡ update_crc16 0 (flat_map (to_le_bytes w64) (take 16 words.old) ++ bytes.now) }
{
    put(words, bytes);
    fold(words);
}

#[inline(always)]
fn word(bytes: &[u8; 8]) -> u64
    ensures { to_le_bytes w64 result ≡ bytes.now }
{
    u64::from_le_bytes(*bytes)
}

// Puts the bytes into the last 16 words.
#[inline(always)]
fn put(words: &mut [u64; 32], bytes: &[u8; 128])
    ensures { flat_map (to_le_bytes w64) words.new
        ≡ flat_map (to_le_bytes w64) (take 16 words.old) ++ bytes.now }
{
    let (eights, _) = bytes.as_chunks::<8>();
    for i in 0..16 {
        words[i + 16] = word(&eights[i]);
    }
}

// Turns all words into 16 words with the same CRC.
#[inline(always)]
fn fold(words: &mut [u64; 32])
    ensures { update_crc16 0 (flat_map (to_le_bytes w64) (take 16 words.new))
        ≡ update_crc16 0 (flat_map (to_le_bytes w64) words.old) }
{
    for i in 0..16 {
        let word = words[i];
        words[i + 1] ^= word;
        words[i + 14] ^= word;
        words[i + 16] ^= word;
    }
    let (front, back) = words.split_at_mut(16);
    front.copy_from_slice(back);
}

// The bytes of the first 16 words.
fn bytes_of(words: &[u64; 32]) -> [u8; 128]
    ensures { result ≡ flat_map (to_le_bytes w64) (take 16 words.now) }
{
    let mut bytes = [0; 128];
    for i in 0..16 {
        bytes[8 * i..8 * i + 8].copy_from_slice(&words[i].to_le_bytes());
    }
    bytes
}
