//! The MD5 sums of blocks. They are those of Python's `hashlib`, over bytes that its `int.to_bytes` made.
ghost use Rattle.std.specs.Prelude.{◌≡◌, ◌≤◌};

use claxon::Block;
use claxon::frame::FrameReader;
use claxon::metadata::StreamInfo;
use claxon::running::Running;
use claxon_blocks::hashing::hash_block;
use claxon_md5::Md5;
use std::alloc::{AllocError, Global};
use std::io::Cursor;
use std::test::Fail;

// The bits of sample `i` of a channel: first the least and the greatest number, in turn, then numbers of both signs.
fn bits_of_sample(channel: u8, i: u16, bit_depth: u32) -> u32
    requires min_bit_depth { 1 ≤ bit_depth }
    requires max_bit_depth { bit_depth ≤ 32 }
{
    let (channel, i) = (u32::from(channel), u32::from(i));
    let least = 1u32 << (bit_depth - 1);
    if i < 2 {
        let is_least = (i + channel) % 2 == 0;
        return if is_least {
            least
        } else {
            least.wrapping_sub(1)
        };
    }
    let number = i
        .wrapping_mul(0x9e37_79b1)
        .wrapping_add(channel.wrapping_mul(0x85eb_ca6b));
    number >> (32 - bit_depth)
}

// Appends this many bits of a number, the most significant one first.
fn push_bits(bits: &mut Vec<u8>, number: u32, count: u32) -> Result<(), AllocError>
    requires { count ≤ 32 }
{
    for k in 0..count {
        let bit = (number >> (count - 1 - k)) % 2;
        bits.push(bit as u8)?;
    }
    Ok(())
}

// Appends a subframe that has its samples as they are.
fn push_subframe(
    bits: &mut Vec<u8>,
    channel: u8,
    duration: u16,
    bit_depth: u32,
) -> Result<(), AllocError>
    requires min_bit_depth { 1 ≤ bit_depth }
    requires max_bit_depth { bit_depth ≤ 32 }
{
    push_bits(bits, 2, 8)?;
    for i in 0..duration {
        push_bits(bits, bits_of_sample(channel, i, bit_depth), bit_depth)?;
    }
    Ok(())
}

fn byte_of_bits(bits: &[u8; 8]) -> u8 {
    let mut byte = 0u8;
    for bit in bits {
        byte = byte.wrapping_mul(2).wrapping_add(*bit);
    }
    byte
}

// The bytes of the subframes, with zeros up to a whole byte.
fn push_subframes(
    alloc: Global,
    bytes: &mut Vec<u8>,
    channels: u8,
    duration: u16,
    bit_depth: u32,
) -> Result<(), AllocError>
    requires min_bit_depth { 1 ≤ bit_depth }
    requires max_bit_depth { bit_depth ≤ 32 }
{
    let mut bits = Vec::new(alloc);
    for channel in 0..channels {
        push_subframe(&mut bits, channel, duration, bit_depth)?;
    }
    push_bits(&mut bits, 0, 7)?;
    let (eights, _) = bits.as_slice().as_chunks::<8>();
    for eight in eights {
        bytes.push(byte_of_bits(eight))?;
    }
    Ok(())
}

// A frame, whose header leaves the bit depth to the streaminfo.
fn frame(alloc: Global, channels: u8, duration: u16, bit_depth: u32) -> Result<Vec<u8>, AllocError>
    requires min_bit_depth { 1 ≤ bit_depth }
    requires max_bit_depth { bit_depth ≤ 32 }
{
    let assignment = channels.wrapping_sub(1).wrapping_mul(16);
    let size = duration.wrapping_sub(1).to_be_bytes();
    let header = [0xff, 0xf8, 0x79, assignment, 0x00, size[0], size[1]];
    let mut bytes = Vec::from_slice(alloc, &header)?;
    bytes.push(u8::zero().after(&header))?;
    push_subframes(alloc, &mut bytes, channels, duration, bit_depth)?;
    let crc = u16::zero().after(bytes.as_slice());
    bytes.extend_from_slice(&crc.to_be_bytes())?;
    Ok(bytes)
}

fn streaminfo(bit_depth: u32) -> StreamInfo
    ensures { result.bits_per_sample ≡ bit_depth }
{
    StreamInfo {
        min_block_size: 16,
        max_block_size: 65535,
        min_frame_size: None,
        max_frame_size: None,
        sample_rate: 44100,
        channels: 1,
        bits_per_sample: bit_depth,
        samples: None,
        md5sum: [0; 16],
    }
}

// The digest of a block that is hashed twice.
fn digest(alloc: Global, channels: u8, duration: u16, bit_depth: u32) -> Result<u128, Fail>
    requires min_bit_depth { 1 ≤ bit_depth }
    requires max_bit_depth { bit_depth ≤ 32 }
{
    let bytes = frame(alloc, channels, duration, bit_depth)?;
    let input = Cursor::new(bytes.as_slice());
    let mut reader = FrameReader::with_streaminfo(input, streaminfo(bit_depth));
    let mut md5 = Md5::new();
    if let Some(block) = reader.read_next_or_eof(Vec::new(alloc))? {
        hash_block(&mut md5, &block, bit_depth);
        hash_block(&mut md5, &block, bit_depth);
    }
    Ok(u128::from_be_bytes(md5.finish()))
}

// Blocks that are hashed in one piece and in several, at each number of bytes of a sample.
#[rattlefmt::skip]
const BLOCKS: [(u8, u16, u32, u128); 32] = [
    (1, 1500, 8, 0x89cd5c35536c49b3c14383258778bce3),
    (1, 1500, 12, 0x14f790b4cf1c450c20f39f0d5534e7eb),
    (1, 1500, 16, 0xab18fa546960b1176859df2aad0bbfd8),
    (1, 1500, 20, 0xa1f3e640c752f9d05289221b0dcd3ce0),
    (1, 1500, 24, 0xde15e5990e1e30ab4ff954c62b693f06),
    (1, 1500, 32, 0x9afbd574008b67925f08dd8bf71e17c7),
    (2, 1500, 8, 0x7eea3374a091037cd0f983a1d2c9b3ba),
    (2, 1500, 12, 0x59ef731ed886110142a055274e955b08),
    (2, 1500, 16, 0x7bba31dc4553255471dc39b481ff21c4),
    (2, 1500, 20, 0xa09c1272f83e4de592b83bb21364db34),
    (2, 1500, 24, 0x4d17d309dfd020dadf7118fefdc2345c),
    (2, 1500, 32, 0x93753974e3b066f5f0c1dfb2b562c90e),
    (3, 700, 8, 0xe302636f3cc7712ed4e8861e6de7c5cd),
    (3, 700, 12, 0x06d2b69ca5ff4305577a97773409d798),
    (3, 700, 16, 0x0ea38a890786eba90d0863122d4db205),
    (3, 700, 20, 0x8beffda3f024380ac6c0a19d8f7f379e),
    (3, 700, 24, 0x8d0c5c5dd31a022413461481a8654847),
    (3, 700, 32, 0x07d849c02a28fc4a81533a1070bafc3c),
    (8, 300, 8, 0x3408bf3959b3f66ff685d0f14c8e4824),
    (8, 300, 12, 0x72613f678528b09a7fda49de8dacc01a),
    (8, 300, 16, 0x93588b3997e1eabf3f5a70372a71ef67),
    (8, 300, 20, 0xb757ed87bd346902e5d5633b511073fe),
    (8, 300, 24, 0x77d0f8267e4f8c6e9bf4bb6f8e5b2a34),
    (8, 300, 32, 0x81678e8a876f7a85eaaef1312fff5139),
    (2, 1, 16, 0x375829c45cc6b617d71cac5ed3cb4e1a),
    (2, 1024, 16, 0xd93a4654ac89805a7231d5e0f5be50e7),
    (2, 1025, 16, 0x39cfe3289f49fce97f932cec547b34dd),
    (2, 2048, 9, 0x8a19f937e0ac2d7a7e554aa4d1ac3b27),
    (3, 341, 16, 0x868c90386f95e6deb4bd0566a1136a7a),
    (3, 342, 16, 0xbba35010dc418dddf34b522c8c41c075),
    (8, 128, 24, 0x5a8223cacecfb821164610b7958b89d7),
    (8, 129, 24, 0xa801d8780898997845556f2b63803ede),
];

#[test]
fn blocks(rt: HostRuntime) -> Result<(), Fail> {
    for (channels, duration, bit_depth, want) in &BLOCKS {
        let bit_depth = (*bit_depth).clamp(1, 32);
        let sum = digest(rt.alloc(), *channels, *duration, bit_depth)?;
        assert!(rt;
            sum == *want,
            "{channels} channels of {duration} samples of {bit_depth} bits"
        );
    }
    Ok(())
}

#[test]
fn an_empty_block(rt: HostRuntime) {
    let mut md5 = Md5::new();
    hash_block(&mut md5, &Block::empty(rt.alloc()), 16);
    let sum = u128::from_be_bytes(md5.finish());
    assert!(rt; sum == 0xd41d8cd98f00b204e9800998ecf8427e);
}
