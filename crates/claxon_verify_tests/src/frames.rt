//! Frames with the longest header and the shortest, and bytes that are no frame.
use claxon::frame::DecodedFrame;
use claxon::metadata::StreamInfo;
use claxon_blocks::frames::read_frame;
use std::alloc::Global;
use std::io::Cursor;

// A header of 16 bytes: seven for the number of its first sample, two for the block size and two for the sample rate. Its block has
// two samples 0x1234, of 16 bits.
#[rattlefmt::skip]
const LONGEST: [u8; 21] = [
    0xff, 0xf9, 0x7d, 0x08, 0xfe, 0xa0, 0x92, 0x8d, 0x85, 0x99, 0xb8, 0x00, 0x01, 0x12, 0x34, 0x24,
    0x00, 0x12, 0x34, 0xe4, 0x2f,
];

// A header of six bytes, for frame 5 of 192 samples 0x1234. It leaves the bit depth to the streaminfo.
const SHORTEST: [u8; 11] = [
    0xff, 0xf8, 0x10, 0x00, 0x05, 0x33, 0x00, 0x12, 0x34, 0xa0, 0x37,
];

// Blocks of 192 samples, of 16 bits.
const INFO: StreamInfo = StreamInfo {
    min_block_size: 192,
    max_block_size: 192,
    min_frame_size: None,
    max_frame_size: None,
    sample_rate: 44_100,
    channels: 1,
    bits_per_sample: 16,
    samples: None,
    md5sum: [0; 16],
};

// Whether the bytes begin with a frame of this many bytes, whose header says this time and duration, with samples 0x1234.
fn is_frame(alloc: Global, bytes: &[u8], length: u64, time: u64, duration: u32) -> bool {
    let mut input = Cursor::new(bytes);
    match read_frame(&mut input, INFO, Vec::new(alloc)) {
        Ok(Some(frame)) => {
            let DecodedFrame { info, block } = frame;
            input.position() == length
                && info.time == time
                && info.duration == duration
                && info.channels == 1
                && info.bit_depth == 16
                && block.time() == time
                && block.duration() == duration
                && block.channel(0).first() == Some(&0x1234)
        }
        _ => false,
    }
}

#[test]
fn longest_header(rt: HostRuntime) {
    assert!(rt; is_frame(rt.alloc(), &LONGEST, 21, 0x8_1234_5678, 2));
}

#[test]
fn shortest_header(rt: HostRuntime) {
    assert!(rt; is_frame(rt.alloc(), &SHORTEST, 11, 960, 192));
}

// Whether the bytes begin with no frame, and the decoder read these first.
fn is_fault(alloc: Global, bytes: &[u8], first: &[u8], are_zeros: bool) -> bool {
    let mut input = Cursor::new(bytes);
    match read_frame(&mut input, INFO, Vec::new(alloc)) {
        Ok(_) => false,
        Err(fault) => fault.first.as_slice() == first && fault.first.are_zeros() == are_zeros,
    }
}

// The sync code is tested after two bytes, the CRC of a header after the header, and that of a frame after the frame.
#[test]
fn first_bytes_of_faults(rt: HostRuntime) {
    let alloc = rt.alloc();
    assert!(rt; is_fault(alloc, b"TAG", b"TA", false));
    assert!(rt; is_fault(alloc, &[0; 20], &[0; 2], true));
    let mut frame = SHORTEST;
    frame[5] ^= 1;
    assert!(rt; is_fault(alloc, &frame, &frame[..6], false));
    frame[5] ^= 1;
    frame[10] ^= 1;
    assert!(rt; is_fault(alloc, &frame, &frame, false));
    let mut frame = LONGEST;
    frame[20] ^= 1;
    assert!(rt; is_fault(alloc, &frame, &frame[..16], false));
}

#[test]
fn fewer_than_two_bytes(rt: HostRuntime) {
    let mut input = Cursor::new(&SHORTEST[..1]);
    assert!(rt; matches!(read_frame(&mut input, INFO, Vec::new(rt.alloc())), Ok(None)));
}
