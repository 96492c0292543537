//! What is noted of the sizes of blocks and of frames.
use crate::reports::report_of;
use crate::streams::{FIXED, VARIABLE, in_order};
use crate::verify::{GREATEST, LEAST};
use claxon_report::Notes;
use claxon_testing::answers::{FRAME, SECOND, head, joined};
use std::alloc::{AllocError, Global};
use std::io::Cursor;
use std::test::Fail;

fn notes_of(alloc: Global, bytes: &[u8]) -> Result<Notes, Fail> {
    let report = report_of(alloc, &mut Cursor::new(bytes), false)?;
    Ok(report.found.notes)
}

fn changed_sizes(notes: Notes) -> Option<(u32, u32)> {
    match notes.changed_block_size {
        Some(sizes) => Some((sizes.first, sizes.other)),
        None => None,
    }
}

// The blocking strategy and the sizes of blocks; whether one is out of the bounds of 16 to 16 samples; and the sizes between which
// a fixed one changes. The last block may be shorter, and may differ.
const BLOCKS: [(u8, &[u8], bool, Option<(u32, u32)>); 10] = [
    (FIXED, &[16, 32, 16], true, Some((16, 32))),
    (FIXED, &[16, 8, 32, 16], true, Some((16, 8))),
    (FIXED, &[8, 16, 16], true, Some((8, 16))),
    (FIXED, &[16, 16, 32], true, None),
    (FIXED, &[32, 32, 32], true, None),
    (FIXED, &[32, 16, 16], true, Some((32, 16))),
    (FIXED, &[8, 16], true, None),
    (FIXED, &[16, 16, 8], false, None),
    (FIXED, &[16], false, None),
    (VARIABLE, &[16, 32, 16], true, None),
];

#[test]
fn blocks(rt: HostRuntime) -> Result<(), Fail> {
    for (row, (strategy, sizes, is_out, changed)) in BLOCKS.iter().enumerate() {
        let bytes = in_order(rt.alloc(), *strategy, *sizes)?;
        let notes = notes_of(rt.alloc(), bytes.as_slice())?;
        let is_right = notes.has_other_block_size == *is_out && changed_sizes(notes) == *changed;
        let has_others = notes.has_other_frame_size || notes.has_byte_left;
        assert!(rt; is_right && !has_others, "{row}");
    }
    Ok(())
}

// Two frames, the least and the greatest number of bytes of a frame that the streaminfo says, where 0 is unknown, and whether one
// of the frames is out of these bounds.
const FRAMES: [([&[u8]; 2], u8, u8, bool); 9] = [
    ([&FRAME, &SECOND], 0, 0, false),
    ([&FRAME, &SECOND], 11, 11, false),
    ([&FRAME, &SECOND], 12, 0, true),
    ([&FRAME, &SECOND], 0, 10, true),
    ([&FRAME, &LEAST], 11, 13, false),
    ([&FRAME, &LEAST], 12, 13, true),
    ([&FRAME, &LEAST], 11, 12, true),
    ([&GREATEST, &SECOND], 11, 12, true),
    ([&GREATEST, &SECOND], 12, 13, true),
];

fn with_frame_sizes(
    alloc: Global,
    least: u8,
    greatest: u8,
    first: &[u8],
    second: &[u8],
) -> Result<Vec<u8>, AllocError> {
    let mut head = head(0x80);
    head[14] = least;
    head[17] = greatest;
    joined(alloc, &[&head, first, second])
}

#[test]
fn frames(rt: HostRuntime) -> Result<(), Fail> {
    for (row, ([first, second], least, greatest, is_out)) in FRAMES.iter().enumerate() {
        let bytes = with_frame_sizes(rt.alloc(), *least, *greatest, *first, *second)?;
        let notes = notes_of(rt.alloc(), bytes.as_slice())?;
        assert!(rt; notes.has_other_frame_size == *is_out, "{row}");
    }
    Ok(())
}
