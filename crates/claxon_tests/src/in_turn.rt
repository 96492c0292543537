//! Several calls on one reader.
use claxon::frame::FrameReader;
use claxon::input::ReadBytes;
use claxon::{FlacReader, FlacReaderOptions, read_head};
use claxon_testing::answers::{
    COMMENT, FRAME, Fault, PAIRS, Step, answers_each, fault_of, gives_each, head, joined,
};
use std::alloc::Global;
use std::io::{Cursor, Read};
use std::test::Fail;

const END: Step = Ok(None);

const BAD_FOOTER: Step = Err(Fault::Format("frame CRC mismatch"));

const BAD_HEADER: Step = Err(Fault::Format("frame header CRC mismatch"));

const NO_SYNC: Step = Err(Fault::Format("frame sync code missing"));

// The frame of one sample, with its last byte changed.
const DAMAGED: [u8; 11] = [
    0xff, 0xf8, 0x69, 0x02, 0x00, 0x00, 0x9a, 0x00, 0x05, 0x34, 0x59,
];

// The frames after the smallest head, and the results of calls for samples, by one iterator and then by another one. A block of
// which a sample was given is consumed completely. After an Err an iterator gives None for good; another one goes on.
#[rattlefmt::skip]
const SAMPLES: [([&[u8]; 2], &[Step], &[Step]); 7] = [
    ([&FRAME, &[]], &[Ok(Some(5)), END, END], &[END]),
    ([&FRAME, &FRAME], &[Ok(Some(5)), Ok(Some(5)), END, END], &[END]),
    ([&FRAME, &FRAME], &[Ok(Some(5))], &[Ok(Some(5)), END, END]),
    ([&PAIRS, &[]], &[Ok(Some(3)), Ok(Some(-2)), Ok(Some(3)), Ok(Some(-2)), END], &[END]),
    ([&PAIRS, &[]], &[Ok(Some(3))], &[END]),
    ([&PAIRS, &FRAME], &[Ok(Some(3))], &[Ok(Some(5)), END]),
    ([&DAMAGED, &FRAME], &[BAD_FOOTER, END, END, END], &[Ok(Some(5)), END]),
];

fn gives_in_turn(
    alloc: Global,
    frames: &[&[u8]; 2],
    first: &[Step],
    again: &[Step],
) -> Result<bool, Fail> {
    let bytes = joined(alloc, &[&head(0x80), frames[0], frames[1]])?;
    let mut flac = FlacReader::new(alloc, Cursor::new(bytes.as_slice()))?;
    Ok(gives_each(&mut flac, first) && gives_each(&mut flac, again))
}

#[test]
fn samples_in_turn(rt: HostRuntime) -> Result<(), Fail> {
    for (row, (frames, first, again)) in SAMPLES.iter().enumerate() {
        assert!(rt; gives_in_turn(rt.alloc(), frames, *first, *again)?, "{row}");
    }
    Ok(())
}

// The calls for blocks of a frame with a wrong header CRC: each goes on at the first byte that wasn't consumed.
const CALLS: [Step; 4] = [BAD_HEADER, NO_SYNC, NO_SYNC, END];

// The position after each of them.
const POSITIONS: [u64; 4] = [7, 9, 11, 11];

// The position of a reader after calls that have these results.
fn position_after(alloc: Global, bytes: &[u8], wants: &[Step]) -> Option<u64> {
    let mut reader = FrameReader::new(Cursor::new(bytes));
    if answers_each(alloc, &mut reader, wants) {
        Some(reader.into_inner().position())
    } else {
        None
    }
}

#[test]
fn frames_in_turn(rt: HostRuntime) {
    let mut bytes = FRAME;
    bytes[6] = 0x9b;
    for (row, position) in POSITIONS.iter().enumerate() {
        let wants = &CALLS[..row.saturating_add(1).min(4)];
        assert!(rt;
            position_after(rt.alloc(), &bytes, wants) == Some(*position),
            "{row}"
        );
    }
}

// The first bytes of a head, further ones, and the fault that reading them ends with, after all of them are consumed: the marker,
// the order of blocks, and faults of a block.
#[rattlefmt::skip]
const HEADS: [(usize, &[u8], Fault); 9] = [
    (0, &[0x49, 0x44, 0x33, 0x04], Fault::Format("stream starts with ID3 header rather than FLAC header")),
    (3, &[0x44], Fault::Format("invalid stream header")),
    (4, &[0x81, 0x00, 0x00, 0x00], Fault::Format("streaminfo block missing")),
    (4, &[0x80, 0x00, 0x00, 0x21], Fault::Format("invalid streaminfo metadata block length")),
    (42, &[0x7f, 0x00, 0x00, 0x00], Fault::Format("invalid metadata block type")),
    (42, &[0x02, 0x00, 0x00, 0x03], Fault::Format("application block length must be at least 4 bytes")),
    (42, &[0x04, 0xa0, 0x00, 0x01], Fault::Unsupported("Vorbis comment blocks larger than 10 MiB are not supported")),
    (42, &[
        0x00, 0x00, 0x00, 0x22, 0x00, 0x10, 0x00, 0x10, 0x00, 0x00, 0x00, 0x00, 0x00, 0x00, 0x0a, 0xc4, 0x40, 0x70, 0x00,
        0x00, 0x00, 0x01, 0x00, 0x00, 0x00, 0x00, 0x00, 0x00, 0x00, 0x00, 0x00, 0x00, 0x00, 0x00, 0x00, 0x00, 0x00, 0x00,
    ], Fault::Format("encountered second streaminfo block")),
    (42, &[
        0x04, 0x00, 0x00, 0x08, 0x00, 0x00, 0x00, 0x00, 0x00, 0x00, 0x00, 0x00,
        0x84, 0x00, 0x00, 0x08, 0x00, 0x00, 0x00, 0x00, 0x00, 0x00, 0x00, 0x00,
    ], Fault::Format("encountered second Vorbis comment block")),
];

// The fault of reading a head, if there is one.
fn fault_of_head<R: ReadBytes>(alloc: Global, input: &mut R) -> Option<Fault> {
    match read_head(alloc, input, FlacReaderOptions::default()) {
        Ok(_) => None,
        Err(error) => Some(fault_of(&error)),
    }
}

// Whether reading a head has this fault after these bytes, and the next call then reads the head after them.
fn ends_before_a_head(
    alloc: Global,
    prefix: usize,
    rest: &[u8],
    want: Fault,
) -> Result<bool, Fail> {
    let first = head(0x00);
    let bytes = joined(alloc, &[&first[..prefix.min(42)], rest, &head(0x80)])?;
    let mut input = Cursor::new(bytes.as_slice());
    let fault = fault_of_head(alloc, &mut input);
    let end = input.position() == prefix.saturating_add(rest.len()) as u64;
    Ok(fault == Some(want) && end && fault_of_head(alloc, &mut input).is_none())
}

#[test]
fn heads_in_turn(rt: HostRuntime) -> Result<(), Fail> {
    for (row, (prefix, rest, want)) in HEADS.iter().enumerate() {
        assert!(rt;
            ends_before_a_head(rt.alloc(), *prefix, *rest, *want)?,
            "{row}"
        );
    }
    Ok(())
}

// How many values the tags of this name have, where each is `Y`.
fn values_of<R: Read>(flac: &FlacReader<R>, name: &str) -> Option<usize> {
    let (mut count, mut all) = (0usize, true);
    for value in flac.get_tag(name) {
        count = count.saturating_add(1);
        all = all && value == "Y";
    }
    if all { Some(count) } else { None }
}

#[test]
fn tags_by_name(rt: HostRuntime) -> Result<(), Fail> {
    let parts: [&[u8]; 3] = [&head(0x00), &[0x84, 0x00, 0x00, 0x13], &COMMENT];
    let bytes = joined(rt.alloc(), &parts)?;
    for (name, requested, count) in [
        ("x", true, 1),
        ("X", true, 1),
        ("Z", true, 0),
        ("", true, 0),
        ("x", false, 0),
    ] {
        let options = FlacReaderOptions {
            metadata_only: false,
            read_vorbis_comment: requested,
        };
        let flac = FlacReader::new_ext(rt.alloc(), Cursor::new(bytes.as_slice()), options)?;
        assert!(rt; values_of(&flac, name) == Some(count), "{name}");
    }
    Ok(())
}
