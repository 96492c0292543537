//! Frames from a reader that gives one byte per read into used buffers, and frames into buffers of exactly enough capacity.
use crate::sources::OneByte;
use claxon::frame::{FrameReader, FrameResult};
use claxon::input::{BufferedReader, ReadBytes};
use claxon_testing::answers::{FRAME, Fault, fault_of};
use claxon_testing::doubles::RefusesOne;
use std::alloc::{AllocError, Allocator, Global};
use std::io::Cursor;
use std::process::Abort;
use std::test::Fail;

// Left 3 and right -2, coded as mid and side. In the second one the last padding bit is a one.
const MID_SIDE: [u8; 14] = [
    0xff, 0xf8, 0x69, 0xa2, 0x00, 0x00, 0xd2, 0x00, 0x00, 0x00, 0x02, 0x80, 0x24, 0xd1,
];

const MID_SIDE_PADDED: [u8; 14] = [
    0xff, 0xf8, 0x69, 0xa2, 0x00, 0x00, 0xd2, 0x00, 0x00, 0x00, 0x02, 0x81, 0xa4, 0xd4,
];

// Two independent channels of two samples.
const PAIRS: [u8; 13] = [
    0xff, 0xf8, 0x69, 0x12, 0x00, 0x01, 0x3f, 0x00, 0x03, 0x00, 0xfe, 0x71, 0x51,
];

// Whether a result is a block at time 0 with this number of channels and these samples, one channel after another.
fn is_block<A: Allocator>(answer: FrameResult<A>, channels: u32, samples: &[i32]) -> bool {
    match answer {
        Ok(Some(block)) => {
            block.time() == 0
                && block.channels() == channels
                && block.len() as usize == samples.len()
                && block.into_buffer().as_slice() == samples
        }
        _ => false,
    }
}

fn is_eof<A: Allocator>(answer: FrameResult<A>) -> bool {
    matches!(answer, Ok(None))
}

// A buffer with `len` old samples.
fn used_buffer(alloc: Global, len: usize) -> Result<Vec<i32>, AllocError> {
    let mut buffer = Vec::new(alloc);
    buffer.resize(len, 13)?;
    Ok(buffer)
}

// Whether two calls give 3 and -2, each into a buffer with `len` old samples, and a third one the end.
fn answers_twice<R: ReadBytes>(
    alloc: Global,
    reader: &mut FrameReader<R>,
    len: usize,
) -> Result<bool, AllocError> {
    let first = reader.read_next_or_eof(used_buffer(alloc, len)?);
    let second = reader.read_next_or_eof(used_buffer(alloc, len)?);
    let third = reader.read_next_or_eof(used_buffer(alloc, len)?);
    Ok(is_block(first, 2, &[3, -2]) && is_block(second, 2, &[3, -2]) && is_eof(third))
}

#[test]
fn a_byte_a_read(rt: HostRuntime) -> Result<(), Fail> {
    for frame in [MID_SIDE, MID_SIDE_PADDED] {
        let mut twice = [0; 28];
        twice[..14].copy_from_slice(&frame);
        twice[14..].copy_from_slice(&frame);
        for len in [0, 1, 16384] {
            let source = OneByte::new(&twice);
            let mut reader = FrameReader::new(BufferedReader::new(rt.alloc(), source)?);
            assert!(rt; answers_twice(rt.alloc(), &mut reader, len)?, "{len}");
        }
    }
    Ok(())
}

// A frame into a buffer of this capacity, which can't grow: the block, without a memory request, if the capacity is enough, and
// else `OutOfMemory`.
fn check_capacity(
    rt: &(impl Abort + AllocGlobal),
    frame: &[u8],
    capacity: usize,
    channels: u32,
    samples: &[i32],
) -> Result<(), Fail> {
    let heap = RefusesOne::new(rt.alloc(), 1);
    let buffer = Vec::with_capacity(&heap, capacity)?;
    let answer = FrameReader::new(Cursor::new(frame)).read_next_or_eof(buffer);
    if capacity < samples.len() {
        let fault = answer.err();
        assert!(rt;
            fault.is_some_and(|error| fault_of(&error) == Fault::Memory),
            "{capacity}"
        );
        assert!(rt; heap.left() == u64::MAX, "{capacity}");
    } else {
        assert!(rt; is_block(answer, channels, samples), "{capacity}");
        assert!(rt; heap.left() == 0, "{capacity}");
    }
    Ok(())
}

#[test]
fn capacities(rt: HostRuntime) -> Result<(), Fail> {
    check_capacity(&rt, &FRAME, 1, 1, &[5])?;
    for (frame, capacity, samples) in [
        (MID_SIDE.as_slice(), 2, [3, -2].as_slice()),
        (MID_SIDE.as_slice(), 1, [3, -2].as_slice()),
        (PAIRS.as_slice(), 4, [3, 3, -2, -2].as_slice()),
        (PAIRS.as_slice(), 5, [3, 3, -2, -2].as_slice()),
        (PAIRS.as_slice(), 3, [3, 3, -2, -2].as_slice()),
    ] {
        check_capacity(&rt, frame, capacity, 2, samples)?;
    }
    Ok(())
}
