//! Refused memory, for each request in turn.
use claxon::FlacReader;
use claxon::frame::{FrameReader, StartedFrame};
use claxon::input::ReadBytes;
use claxon::metadata::{MetadataBlock, VorbisComment, read_metadata_block_with_header};
use claxon_testing::answers::{
    COMMENT, FIVES, FRAME, Fault, Step, answers_each, fault_of, head, joined, run_of, two_frames,
};
use claxon_testing::doubles::RefusesOne;
use claxon_testing::doubles::sinks::Sink;
use claxon_write::run;
use linked_list_allocator::LocalHeap;
use std::alloc::{Allocator, Global};
use std::io::{Cursor, ErrorKind};
use std::process::Abort;
use std::test::Fail;

// Calls that allocate memory.
#[derive(Clone, Copy)]
enum Call {
    Open,
    Samples,
    Run,
    Block,
}

const OTHER: Result<(), Fault> = Err(Fault::Format("another answer"));

// Whether the call has the right result for the bytes.
fn answer_of<A: Allocator + Copy>(heap: A, call: Call, bytes: &[u8]) -> Result<(), Fault> {
    match call {
        Call::Open => opened(heap, bytes),
        Call::Samples => sampled(heap, bytes),
        Call::Run => written(heap, bytes),
        Call::Block => block_read(heap, bytes),
    }
}

// A stream with the only tag `X=Y`.
fn opened<A: Allocator + Copy>(heap: A, bytes: &[u8]) -> Result<(), Fault> {
    match FlacReader::new(heap, Cursor::new(bytes)) {
        Ok(flac) => match flac.get_tag("X").next() {
            Some("Y") => Ok(()),
            _ => OTHER,
        },
        Err(error) => Err(fault_of(&error)),
    }
}

// A stream of one sample, 5.
fn sampled<A: Allocator + Copy>(heap: A, bytes: &[u8]) -> Result<(), Fault> {
    let run = run_of(heap, Cursor::new(bytes))?;
    match run.fault {
        Some(fault) => Err(fault),
        None if run.count == 1 && run.last == 5 => Ok(()),
        None => OTHER,
    }
}

// A stream of two samples, each 5. If memory is refused none is written.
fn written<A: Allocator + Copy>(heap: A, bytes: &[u8]) -> Result<(), Fault> {
    let mut sink = Sink::new(8, 9, false, ErrorKind::Other);
    match run(heap, Cursor::new(bytes), &mut sink) {
        Ok(2) if sink.written() == FIVES.as_slice() => Ok(()),
        Err(error) if sink.written().is_empty() => Err(fault_of(&error)),
        _ => OTHER,
    }
}

fn block_read<A: Allocator + Copy>(heap: A, bytes: &[u8]) -> Result<(), Fault> {
    match read_metadata_block_with_header(heap, &mut Cursor::new(bytes)) {
        Ok(block) => {
            if is_block(&block, bytes) {
                Ok(())
            } else {
                OTHER
            }
        }
        Err(error) => Err(fault_of(&error)),
    }
}

// An application block with the id 7 and the byte 9, or comments.
fn is_block<A: Allocator>(block: &MetadataBlock<A>, bytes: &[u8]) -> bool {
    match block {
        MetadataBlock::Application { id, bytes } => *id == 7 && bytes.as_slice() == [9].as_slice(),
        MetadataBlock::VorbisComment(comment) => is_example(comment, bytes),
        _ => false,
    }
}

// The vendor `ab`, and the number of entries in the bytes, each `X=Y`.
fn is_example<A: Allocator>(comment: &VorbisComment<A>, bytes: &[u8]) -> bool {
    let said = match bytes.get(10) {
        Some(count) => usize::from(*count),
        None => 0,
    };
    let mut all = said == comment.comments.len();
    for (text, separator) in &comment.comments {
        all = all && text.as_str() == "X=Y" && *separator == 1;
    }
    all && comment.vendor.as_str() == "ab"
}

// The result of the call if the request after `granted` ones is refused, and how many more would have been granted.
fn attempt(
    alloc: Global,
    call: Call,
    bytes: &[u8],
    granted: u64,
) -> Result<(Result<(), Fault>, u64), Fail> {
    let heap = RefusesOne::new(LocalHeap::new(alloc, 8192)?, granted);
    let answer = answer_of(&heap, call, bytes);
    if heap.inner().used() > 0 {
        return Err(Fail::new("memory that isn't given back"));
    }
    Ok((answer, heap.left()))
}

// The call makes this number of requests. If any of them is refused it is the last one, and the result is `OutOfMemory`.
fn check(
    rt: &(impl Abort + AllocGlobal),
    call: Call,
    bytes: &[u8],
    requests: u64,
) -> Result<(), Fail> {
    for granted in 0..requests {
        let answer = attempt(rt.alloc(), call, bytes, granted)?;
        assert!(rt; answer == (Err(Fault::Memory), u64::MAX), "{granted}");
    }
    let answer = attempt(rt.alloc(), call, bytes, requests)?;
    assert!(rt; answer == (Ok(()), 0));
    Ok(())
}

// One request each for the buffer of the reader, an entry, the vector of entries, and the samples of a block. The empty vendor
// and writing make none.
#[test]
fn streams(rt: HostRuntime) -> Result<(), Fail> {
    let tagged = joined(
        rt.alloc(),
        &[&head(0x00), &[0x84, 0x00, 0x00, 0x13], &COMMENT],
    )?;
    check(&rt, Call::Open, &tagged, 3)?;
    let with_a_frame = joined(rt.alloc(), &[&tagged, &FRAME])?;
    check(&rt, Call::Samples, &with_a_frame, 4)?;
    check(&rt, Call::Run, &two_frames(0x58), 2)
}

// The vendor `ab` and a number of entries `X=Y`.
fn comment_block(alloc: Global, entries: u8) -> Result<Vec<u8>, Fail> {
    let length = 10u8.saturating_add(entries.saturating_mul(7));
    let mut bytes = joined(
        alloc,
        &[
            &[0x04, 0x00, 0x00, length],
            &[2, 0, 0, 0],
            b"ab",
            &[entries, 0, 0, 0],
        ],
    )?;
    for _ in 0..entries {
        bytes.extend_from_slice(&[3, 0, 0, 0, b'X', b'=', b'Y'])?;
    }
    Ok(bytes)
}

// The vendor, each entry, and their vector, which has capacity for four at first, and then for eight.
#[test]
fn metadata_blocks(rt: HostRuntime) -> Result<(), Fail> {
    for (entries, requests) in [(0, 1), (1, 3), (3, 5), (4, 6), (5, 8)] {
        let bytes = comment_block(rt.alloc(), entries)?;
        check(&rt, Call::Block, &bytes, requests)?;
    }
    let application = [0x02, 0x00, 0x00, 0x05, 0x00, 0x00, 0x00, 0x07, 0x09];
    check(&rt, Call::Block, &application, 1)
}

// The results of the calls, each into an empty buffer, of which the first can't grow, and the number of bytes consumed.
fn check_calls(rt: &(impl Abort + AllocGlobal), wants: &[Step], taken: u64) {
    let heap = RefusesOne::new(rt.alloc(), 0);
    let mut reader = FrameReader::new(Cursor::new(FRAME.as_slice()));
    assert!(rt; answers_each(&heap, &mut reader, wants));
    assert!(rt; reader.into_inner().position() == taken && heap.left() == u64::MAX);
}

// The frame header is consumed, so the next call reads the two bytes that follow it.
#[test]
fn a_buffer_that_cannot_grow(rt: HostRuntime) {
    let no_sync = Err(Fault::Format("frame sync code missing"));
    check_calls(&rt, &[Err(Fault::Memory)], 7);
    check_calls(&rt, &[Err(Fault::Memory), no_sync], 9);
}

// The rest of a frame into an empty buffer: its samples are these, or the fault.
fn is_rest<R: ReadBytes, A: Allocator + Copy>(
    heap: A,
    reader: &mut FrameReader<R>,
    started: StartedFrame,
    want: Result<&[i32], Fault>,
) -> bool {
    match (reader.read_rest(started, Vec::new(heap)), want) {
        (Ok(block), Ok(samples)) => block.into_buffer().as_slice() == samples,
        (Err(error), Err(fault)) => fault_of(&error) == fault,
        _ => false,
    }
}

// Memory that is refused for the rest of a frame leaves it unread, so the call can be made once more.
#[test]
fn a_rest_read_once_more(rt: HostRuntime) -> Result<(), Fail> {
    let heap = RefusesOne::new(rt.alloc(), 0);
    let mut reader = FrameReader::new(Cursor::new(FRAME.as_slice()));
    let Ok(Some(started)) = reader.read_start_or_eof() else {
        return Err(Fail::new("no header"));
    };
    assert!(rt; is_rest(&heap, &mut reader, started, Err(Fault::Memory)));
    assert!(rt; is_rest(&heap, &mut reader, started, Ok(&[5])));
    assert!(rt; reader.into_inner().position() == FRAME.len() as u64);
    Ok(())
}
