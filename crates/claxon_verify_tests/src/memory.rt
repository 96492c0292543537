//! Refused memory, for each request of a stream that is verified.
use crate::places::numbers_of;
use crate::reports::report_of;
use crate::streams::{FIXED, RATE, frame};
use claxon_testing::answers::{Fault, fault_of, head, joined, two_frames};
use claxon_testing::doubles::RefusesOne;
use linked_list_allocator::LocalHeap;
use std::alloc::{Allocator, Global};
use std::io::Cursor;
use std::test::Fail;

const OTHER: Result<(), Fault> = Err(Fault::Format("another answer"));

// A stream of two samples in two frames.
fn verified<A: Allocator + Copy>(heap: A, bytes: &[u8]) -> Result<(), Fault> {
    match report_of(heap, &mut Cursor::new(bytes), false) {
        Ok(report) if report.found.frames == 2 && report.found.samples == 2 => Ok(()),
        Ok(_) => OTHER,
        Err(error) => Err(fault_of(&error)),
    }
}

// The result if the request after `granted` ones is refused, and how many more would have been granted.
fn attempt(alloc: Global, granted: u64) -> Result<(Result<(), Fault>, u64), Fail> {
    let heap = RefusesOne::new(LocalHeap::new(alloc, 8192)?, granted);
    let answer = verified(&heap, &two_frames(0x58));
    if heap.inner().used() > 0 {
        return Err(Fail::new("memory that isn't given back"));
    }
    Ok((answer, heap.left()))
}

// One request, for the samples of a block.
#[test]
fn streams(rt: HostRuntime) -> Result<(), Fail> {
    assert!(rt; attempt(rt.alloc(), 0)? == (Err(Fault::Memory), u64::MAX));
    assert!(rt; attempt(rt.alloc(), 1)? == (Ok(()), 0));
    Ok(())
}

// The buffer of the blocks is requested first, and then memory for the places after the first. A place is left out without it:
// the first frame has the number 1, and the second the number 3.
#[test]
fn places(rt: HostRuntime) -> Result<(), Fail> {
    let (first, second) = (frame(FIXED, RATE, 1, 1), frame(FIXED, RATE, 3, 1));
    let mut head = head(0x80);
    head[25] = 0;
    let bytes = joined(rt.alloc(), &[&head, &first, &second])?;
    for (granted, want) in [(0, Err(Fault::Memory)), (1, Ok((0, 1))), (2, Ok((1, 0)))] {
        let heap = RefusesOne::new(rt.alloc(), granted);
        assert!(rt; numbers_of(&heap, &bytes, 999) == want, "{granted}");
    }
    Ok(())
}
