//! The proved callers, on streams in memory and in a file.
use claxon::interleave::interleave;
use claxon_testing::answers::{COMMENT, FRAME, PAIRS, head, joined};
use claxon_testing::temporary_files::file_of;
use claxon_uses::{decode_one, first_samples, list_tags, peak, read_pair_with_crc};
use std::alloc::Global;
use std::fs;
use std::io::Cursor;
use std::test::Fail;

// A frame of three channels with three samples each.
const TRIPLES: [u8; 30] = [
    0xff, 0xf8, 0x69, 0x28, 0x00, 0x02, 0x50, 0x02, 0x00, 0x01, 0xff, 0xfe, 0x01, 0x2c, 0x02, 0x80,
    0x00, 0x7f, 0xff, 0x00, 0x00, 0x02, 0x01, 0x00, 0xfe, 0xff, 0x00, 0x04, 0xee, 0x53,
];

// Whether a request for the first samples of two frames gives `count` samples, each 5.
fn begins_with(alloc: Global, bytes: &[u8], requested: usize, count: usize) -> bool {
    match first_samples(alloc, Cursor::new(bytes), requested) {
        Ok(first) => first.as_slice() == &[5, 5][..count.min(2)],
        Err(_) => false,
    }
}

#[test]
fn as_many_samples_as_requested(rt: HostRuntime) -> Result<(), Fail> {
    let bytes = joined(rt.alloc(), &[&head(0x80), &FRAME, &FRAME])?;
    for (requested, count) in [(0, 0), (1, 1), (2, 2), (3, 2)] {
        assert!(rt;
            begins_with(rt.alloc(), &bytes, requested, count),
            "{requested}"
        );
    }
    Ok(())
}

// The only tag of the example comments.
fn are_example_tags(lines: &[String]) -> bool {
    match lines {
        [line] => line.as_str() == "X=Y",
        _ => false,
    }
}

// The tags and the peak sample of a file of these bytes, which is removed again.
fn found_in_file(
    rt: &HostRuntime,
    bytes: &[u8],
) -> Result<(claxon::Result<Vec<String>>, claxon::Result<u32>), Fail> {
    let path = file_of(rt, "uses", bytes)?;
    let found = (list_tags(rt, path.as_str()), peak(rt, path.as_str()));
    fs::remove_file(rt, path.as_str())?;
    Ok(found)
}

#[test]
fn of_a_file(rt: HostRuntime) -> Result<(), Fail> {
    let parts: [&[u8]; 4] = [&head(0x00), &[0x84, 0x00, 0x00, 0x13], &COMMENT, &FRAME];
    let bytes = joined(rt.alloc(), &parts)?;
    let (lines, greatest) = found_in_file(&rt, &bytes)?;
    assert!(rt; are_example_tags(&lines?));
    assert!(rt; greatest? == 5);
    Ok(())
}

// The second CRC is another one.
#[test]
fn a_pair_with_crc(rt: HostRuntime) {
    let mut reader = Cursor::new([0xacu8, 0x04, 0x68, 0x11, 0xac, 0x04, 0x68, 0x10]);
    assert!(rt; read_pair_with_crc(&mut reader).ok() == Some((21, 257)));
    assert!(rt; read_pair_with_crc(&mut reader).is_err());
}

// The interleaved samples of a frame.
fn samples_of(alloc: Global, frame: &[u8]) -> Result<Vec<i32>, Fail> {
    let mut samples = Vec::new(alloc);
    if let Some(block) = decode_one(alloc, frame)? {
        samples.resize(block.len() as usize, 0)?;
        interleave(&block, 0, block.duration() as usize, samples.as_mut_slice());
    }
    Ok(samples)
}

// Whether those are these.
fn has_samples(alloc: Global, frame: &[u8], want: &[i32]) -> Result<bool, Fail> {
    let samples = samples_of(alloc, frame)?;
    Ok(samples.as_slice() == want)
}

#[test]
fn samples_of_one_to_three_channels(rt: HostRuntime) -> Result<(), Fail> {
    assert!(rt; has_samples(rt.alloc(), &FRAME, &[5])?);
    assert!(rt; has_samples(rt.alloc(), &PAIRS, &[3, -2, 3, -2])?);
    let triples = [1, -32_768, 256, -2, 32_767, -257, 300, 0, 4];
    assert!(rt; has_samples(rt.alloc(), &TRIPLES, &triples)?);
    Ok(())
}
