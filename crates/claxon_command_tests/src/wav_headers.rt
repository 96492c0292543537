//! Headers of WAV files, compared with those of another decoder.
use claxon_wav::Layout;
use std::test::Fail;

struct Header {
    channels: u32,
    valid_bits: u32,
    channel_mask: Option<u32>,
    size: u32,
    bytes: &'static [u8],
}

// The headers of files of 44,100 Hz that `flac -d` wrote.
#[rattlefmt::skip]
const HEADERS: [Header; 4] = [
    Header {
        channels: 2, valid_bits: 16, channel_mask: None, size: 20004,
        bytes: b"RIFF\x48\x4e\x00\x00WAVEfmt \x10\x00\x00\x00\x01\x00\x02\x00\x44\xac\x00\x00\x10\xb1\x02\x00\x04\x00\x10\x00data\x24\x4e\x00\x00",
    },
    Header {
        channels: 1, valid_bits: 8, channel_mask: Some(4), size: 5001,
        bytes: b"RIFF\xae\x13\x00\x00WAVEfmt \x10\x00\x00\x00\x01\x00\x01\x00\x44\xac\x00\x00\x44\xac\x00\x00\x01\x00\x08\x00data\x89\x13\x00\x00",
    },
    Header {
        channels: 1, valid_bits: 12, channel_mask: None, size: 10002,
        bytes: b"RIFF\x4e\x27\x00\x00WAVEfmt \x28\x00\x00\x00\xfe\xff\x01\x00\x44\xac\x00\x00\x88\x58\x01\x00\x02\x00\x10\x00\x16\x00\x0c\x00\x04\x00\x00\x00\
\x01\x00\x00\x00\x00\x00\x10\x00\x80\x00\x00\xaa\x00\x38\x9b\x71data\x12\x27\x00\x00",
    },
    Header {
        channels: 6, valid_bits: 24, channel_mask: Some(0x3f), size: 90018,
        bytes: b"RIFF\xde\x5f\x01\x00WAVEfmt \x28\x00\x00\x00\xfe\xff\x06\x00\x44\xac\x00\x00\xc8\x1c\x0c\x00\x12\x00\x18\x00\x16\x00\x18\x00\x3f\x00\x00\x00\
\x01\x00\x00\x00\x00\x00\x10\x00\x80\x00\x00\xaa\x00\x38\x9b\x71data\xa2\x5f\x01\x00",
    },
];

#[test]
fn headers(rt: HostRuntime) -> Result<(), Fail> {
    let mut bytes = Vec::new(rt.alloc());
    for row in &HEADERS {
        let (channels, valid_bits) = (row.channels.clamp(1, 8), row.valid_bits.clamp(1, 32));
        let layout = Layout::new(channels, valid_bits, 44_100, row.channel_mask);
        layout.put_header(row.size.min(100_000), &mut bytes)?;
        assert_eq!(rt; bytes.as_slice(), row.bytes, "{}", row.valid_bits);
    }
    Ok(())
}
