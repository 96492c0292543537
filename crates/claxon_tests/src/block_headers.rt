//! Metadata blocks with their headers, single and in sequence, and headers with a wrong length.
use claxon::input::ReadBytes;
use claxon::metadata::{
    MetadataBlock, MetadataBlockReader, VorbisComment, read_metadata_block_with_header,
};
use claxon_testing::answers::{COMMENT, Fault, fault_of, joined};
use std::alloc::Global;
use std::io::Cursor;
use std::process::Abort;
use std::test::Fail;

// Whether it is an application block with the id 7 and the byte 9.
fn is_application(block: &MetadataBlock) -> bool {
    match block {
        MetadataBlock::Application { id, bytes } => *id == 7 && bytes.as_slice() == [9].as_slice(),
        _ => false,
    }
}

// The result for these bytes, and the number of bytes consumed.
fn answer_of(alloc: Global, bytes: &[u8]) -> (Result<bool, Fault>, u64) {
    let mut input = Cursor::new(bytes);
    let answer = match read_metadata_block_with_header(alloc, &mut input) {
        Ok(block) => Ok(is_application(&block)),
        Err(error) => Err(fault_of(&error)),
    };
    (answer, input.position())
}

const INVALID_TYPE: Fault = Fault::Format("invalid metadata block type");

const LARGE_APPLICATION: Fault = Fault::Unsupported(
    "application blocks larger than 10 MiB are not supported",
);

const LARGE_COMMENT: Fault = Fault::Unsupported(
    "Vorbis comment blocks larger than 10 MiB are not supported",
);

// Each with a byte after those that are consumed.
#[test]
fn blocks_with_headers(rt: HostRuntime) {
    let rows: [(&[u8], Result<bool, Fault>, u64); 4] = [
        (&[0x7f, 0x00, 0x00, 0x00, 0x00], Err(INVALID_TYPE), 4),
        (&[0x02, 0xa0, 0x00, 0x01, 0x00], Err(LARGE_APPLICATION), 4),
        (&[0x04, 0xa0, 0x00, 0x01, 0x00], Err(LARGE_COMMENT), 4),
        (
            &[0x02, 0x00, 0x00, 0x05, 0x00, 0x00, 0x00, 0x07, 0x09, 0x09],
            Ok(true),
            9,
        ),
    ];
    for (bytes, want, taken) in rows {
        assert!(rt; answer_of(rt.alloc(), bytes) == (want, taken), "{bytes:?}");
        let prefix = &bytes[..bytes.len().saturating_sub(1)];
        assert!(rt;
            answer_of(rt.alloc(), prefix) == (want, taken),
            "{prefix:?}"
        );
    }
}

// Headers that are truncated, or have a length beyond the input. How much an `IoError` consumes is left open.
#[test]
fn headers_with_wrong_lengths(rt: HostRuntime) {
    let rows: [&[u8]; 6] = [
        &[],
        &[0x7f],
        &[0x80, 0x00, 0x00],
        &[0x02, 0xa0, 0x00, 0x00],
        &[0x04, 0xa0, 0x00, 0x00, 0xf8, 0xff, 0x9f, 0x00],
        &[0x01, 0xff, 0xff, 0xff],
    ];
    for bytes in rows {
        let (answer, _taken) = answer_of(rt.alloc(), bytes);
        assert!(rt; answer == Err(Fault::Io), "{bytes:?}");
    }
}

// No vendor, and the one entry `X=Y`.
fn is_example(comment: &VorbisComment) -> bool {
    match comment.comments.as_slice() {
        [(text, separator)] => comment.vendor.is_empty()
            && text.as_str() == "X=Y"
            && *separator == 1,
        _ => false,
    }
}

// The result of the next call for a block.
#[derive(PartialEq, Clone, Copy)]
enum Next {
    Example,
    Padding(u32),
    Other,
    Fault(Fault),
    End,
}

fn next_of<R: ReadBytes + Drop>(blocks: &mut MetadataBlockReader<R>) -> Next {
    match blocks.next() {
        Some(Ok(block)) => shown(&block),
        Some(Err(error)) => Next::Fault(fault_of(&error)),
        None => Next::End,
    }
}

fn shown(block: &MetadataBlock) -> Next {
    match block {
        MetadataBlock::VorbisComment(comment) => {
            if is_example(comment) {
                Next::Example
            } else {
                Next::Other
            }
        }
        MetadataBlock::Padding { length } => Next::Padding(*length),
        _ => Next::Other,
    }
}

// How many blocks may follow: any number, or none.
const MORE: (usize, Option<usize>) = (1, None);

const NO_MORE: (usize, Option<usize>) = (0, Some(0));

// Whether the calls have these results, each with this size hint after it; before the first call more may follow.
fn gives_each<R: ReadBytes + Drop>(
    blocks: &mut MetadataBlockReader<R>,
    wants: &[(Next, (usize, Option<usize>))],
) -> bool {
    let mut all = blocks.size_hint() == MORE;
    for (next, hint) in wants {
        all = all && next_of(blocks) == *next && blocks.size_hint() == *hint;
    }
    all
}

// The calls have these results, and `taken` bytes are consumed.
fn check(
    rt: &(impl Abort + AllocGlobal),
    bytes: Vec<u8>,
    wants: &[(Next, (usize, Option<usize>))],
    taken: u64,
) {
    let mut input = Cursor::new(bytes);
    {
        let mut blocks = MetadataBlockReader::new(rt.alloc(), &mut input);
        assert!(rt; gives_each(&mut blocks, wants), "{taken}");
    }
    assert!(rt; input.position() == taken, "{taken}");
}

// The example comments, padding that is marked as the last block, and nothing or another block after it.
#[test]
fn blocks_one_after_another(rt: HostRuntime) -> Result<(), Fail> {
    let header = [0x04, 0x00, 0x00, 0x13];
    let padding = [0x81, 0x00, 0x00, 0x00];
    let wants = [
        (Next::Example, MORE),
        (Next::Padding(0), NO_MORE),
        (Next::End, NO_MORE),
        (Next::End, NO_MORE),
    ];
    let bytes = joined(rt.alloc(), &[&header, &COMMENT, &padding])?;
    check(&rt, bytes, &wants, 27);
    let bytes = joined(rt.alloc(), &[&header, &COMMENT, &padding, &padding])?;
    check(&rt, bytes, &wants, 27);
    Ok(())
}

// A block after the fault isn't read.
#[test]
fn no_block_after_a_fault(rt: HostRuntime) -> Result<(), Fail> {
    let rows: [(&[u8], Fault, u64); 2] = [
        (
            &[0x7f, 0x00, 0x00, 0x00, 0x81, 0x00, 0x00, 0x00],
            INVALID_TYPE,
            4,
        ),
        (&[0x7f], Fault::Io, 1),
    ];
    for (bytes, fault, taken) in rows {
        let wants = [
            (Next::Fault(fault), NO_MORE),
            (Next::End, NO_MORE),
            (Next::End, NO_MORE),
        ];
        check(&rt, joined(rt.alloc(), &[bytes])?, &wants, taken);
    }
    Ok(())
}
