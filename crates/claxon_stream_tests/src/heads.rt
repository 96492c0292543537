//! Heads that are handed in, by rows. They were made by the definitions of RFC 9639, section 8.
use claxon::metadata::MetadataBlock;
use claxon::{Error, FlacReaderOptions, read_head};
use claxon_stream::{HeadDecoder, HeadEvent};
use std::alloc::{AllocError, Global};
use std::io::Cursor;
use std::test::Fail;

// The marker, and the header and content of a streaminfo of one channel of 8 bits, in blocks of 16 samples.
#[rattlefmt::skip]
const START: [u8; 42] = [
    0x66, 0x4c, 0x61, 0x43, 0x00, 0x00, 0x00, 0x22, 0x00, 0x10, 0x00, 0x10, 0x00, 0x00, 0x00, 0x00,
    0x00, 0x00, 0x0a, 0xc4, 0x40, 0x70, 0x00, 0x00, 0x00, 0x01, 0x00, 0x00, 0x00, 0x00, 0x00, 0x00,
    0x00, 0x00, 0x00, 0x00, 0x00, 0x00, 0x00, 0x00, 0x00, 0x00,
];

// Vorbis comments: the vendor string `v` and the entry `a=b`.
const COMMENT: [u8; 20] = [
    0x04, 0x00, 0x00, 0x10, 1, 0, 0, 0, b'v', 1, 0, 0, 0, 3, 0, 0, 0, b'a', b'=', b'b',
];

// An application block of the ID `abcd` with two bytes.
const APPLICATION: [u8; 10] = [0x02, 0x00, 0x00, 0x06, b'a', b'b', b'c', b'd', 1, 2];

// The header of a picture of 1,000 bytes.
const PICTURE: [u8; 4] = [0x06, 0x00, 0x03, 0xe8];

// The last block: padding of no bytes.
const LAST: [u8; 4] = [0x81, 0x00, 0x00, 0x00];

// Headers of an application block that is too large, and of a block of the forbidden type.
const LARGE: [u8; 4] = [0x02, 0xff, 0xff, 0xff];

const FORBIDDEN: [u8; 4] = [0x7f, 0xff, 0xff, 0xff];

const ALL: FlacReaderOptions = FlacReaderOptions {
    metadata_only: false,
    read_vorbis_comment: true,
};

const INFO_ALONE: FlacReaderOptions = FlacReaderOptions {
    metadata_only: true,
    read_vorbis_comment: false,
};

const TAGS_ALONE: FlacReaderOptions = FlacReaderOptions {
    metadata_only: true,
    read_vorbis_comment: true,
};

// What is to be answered: of a header the position of the content, the flag, the type and the length; of comments the number of
// entries; of an application block the number of bytes after its ID; of a fault its position and text.
#[derive(Clone, Copy)]
enum Wanted {
    Marker,
    Header(u64, bool, u8, u32),
    Info,
    Comment(usize),
    Application(usize),
    Padding(u32),
    Whole(u64),
    Fault(u64, &'static str),
    Cut(u64),
}

fn is_wanted(event: &HeadEvent, wanted: Wanted) -> bool {
    match (event, wanted) {
        (HeadEvent::Marker, Wanted::Marker) => true,
        (HeadEvent::Header(header), Wanted::Header(position, is_last, block_type, length)) => {
            header.position == position
                && header.is_last == is_last
                && header.block_type == block_type
                && header.length == length
        }
        (HeadEvent::Block(block), _) => is_block(block, wanted),
        (HeadEvent::Whole(at), Wanted::Whole(position)) => *at == position,
        (HeadEvent::Faulty(fault), Wanted::Fault(position, text)) => {
            fault.position == position && has_text(&fault.error, text)
        }
        (HeadEvent::Cut(at), Wanted::Cut(position)) => *at == position,
        _ => false,
    }
}

fn is_block(block: &MetadataBlock, wanted: Wanted) -> bool {
    match (block, wanted) {
        (MetadataBlock::StreamInfo(info), Wanted::Info) => {
            info.channels == 1 && info.bits_per_sample == 8 && info.sample_rate == 44_100
        }
        (MetadataBlock::VorbisComment(comment), Wanted::Comment(count)) => {
            comment.vendor.as_str() == "v" && comment.comments.len() == count
        }
        (MetadataBlock::Application { id, bytes }, Wanted::Application(count)) => {
            *id == 0x6162_6364 && bytes.len() == count
        }
        (MetadataBlock::Padding { length }, Wanted::Padding(count)) => *length == count,
        _ => false,
    }
}

fn has_text(error: &Error, text: &str) -> bool {
    match error {
        Error::FormatError(reason) => *reason == text,
        Error::Unsupported(feature) => *feature == text,
        _ => false,
    }
}

// The parts one after another, after the last one zeros up to this length.
fn joined(alloc: Global, parts: &[&[u8]], len: usize) -> Result<Vec<u8>, AllocError> {
    let mut bytes = Vec::new(alloc);
    for part in parts {
        bytes.extend_from_slice(part)?;
    }
    bytes.resize(len, 0)?;
    Ok(bytes)
}

// More bytes than a row has.
const MOST: usize = 1 << 20;

// What is answered where so many bytes were read, of which the caller keeps those from the position on.
fn answer(
    head: &mut HeadDecoder,
    alloc: Global,
    bytes: &[u8],
    read: usize,
) -> claxon::Result<HeadEvent> {
    let end = read.min(bytes.len()).min(MOST);
    let at = end.min(head.position() as usize);
    head.decode_next(alloc, &bytes[at..end], at as u64, read >= bytes.len())
}

// Whether this is answered, or more bytes are asked for. None is another answer.
fn is_answered(
    head: &mut HeadDecoder,
    alloc: Global,
    bytes: &[u8],
    read: usize,
    wanted: Wanted,
) -> Option<bool> {
    match answer(head, alloc, bytes, read) {
        Ok(HeadEvent::ReadOn(needed)) => {
            if needed.position == head.position() && needed.count > 0 {
                Some(false)
            } else {
                None
            }
        }
        Ok(event) => {
            if is_wanted(&event, wanted) {
                Some(true)
            } else {
                None
            }
        }
        Err(_) => None,
    }
}

// Whether these are the answers over the bytes in pieces of this size.
fn answers_are(
    alloc: Global,
    bytes: &[u8],
    options: FlacReaderOptions,
    size: usize,
    rows: &[Wanted],
) -> bool {
    let mut head = HeadDecoder::new(0, options);
    let mut read = 0usize;
    let mut given = 0usize;
    for _ in 0..10_000 {
        let Some(wanted) = rows.get(given) else {
            return true;
        };
        match is_answered(&mut head, alloc, bytes, read, *wanted) {
            Some(true) => given = given.saturating_add(1),
            Some(false) => read = read.saturating_add(size),
            None => return false,
        }
    }
    false
}

// Whether `read_head` returns what this last answer says.
fn is_read_heads(alloc: Global, bytes: &[u8], options: FlacReaderOptions, last: Wanted) -> bool {
    let fault = read_head(alloc, &mut Cursor::new(bytes), options).err();
    match last {
        Wanted::Whole(_) => fault.is_none(),
        Wanted::Cut(_) => matches!(fault, Some(Error::IoError(_))),
        Wanted::Fault(_, text) => match fault {
            Some(error) => has_text(&error, text),
            None => false,
        },
        _ => false,
    }
}

// Whether both answer so, whatever the size of the pieces.
fn is_row(alloc: Global, bytes: &[u8], options: FlacReaderOptions, rows: &[Wanted]) -> bool {
    let mut all = true;
    for size in [1, 2, 3, 100, usize::MAX] {
        all = all && answers_are(alloc, bytes, options, size, rows);
    }
    match rows.last() {
        Some(last) => all && is_read_heads(alloc, bytes, options, *last),
        None => false,
    }
}

// The marker, the streaminfo, comments, a picture that is passed, and padding of no bytes, in 1,070 bytes; and the answers.
fn whole(alloc: Global) -> Result<Vec<u8>, AllocError> {
    let mut bytes = joined(alloc, &[&START, &COMMENT, &PICTURE], 1066)?;
    bytes.extend_from_slice(&LAST)?;
    Ok(bytes)
}

const WHOLE: [Wanted; 10] = [
    Wanted::Marker,
    Wanted::Header(8, false, 0, 34),
    Wanted::Info,
    Wanted::Header(46, false, 4, 16),
    Wanted::Comment(1),
    Wanted::Header(66, false, 6, 1000),
    Wanted::Padding(1000),
    Wanted::Header(1070, true, 1, 0),
    Wanted::Padding(0),
    Wanted::Whole(1070),
];

// The answers where only the streaminfo is asked for, and where tags are.
const INFO_OF_WHOLE: [Wanted; 4] = [
    Wanted::Marker,
    Wanted::Header(8, false, 0, 34),
    Wanted::Info,
    Wanted::Whole(42),
];

const TAGS_OF_WHOLE: [Wanted; 6] = [
    Wanted::Marker,
    Wanted::Header(8, false, 0, 34),
    Wanted::Info,
    Wanted::Header(46, false, 4, 16),
    Wanted::Comment(1),
    Wanted::Whole(62),
];

#[test]
fn whole_heads(rt: HostRuntime) -> Result<(), Fail> {
    let bytes = whole(rt.alloc())?;
    assert!(rt; is_row(rt.alloc(), &bytes, ALL, &WHOLE));
    assert!(rt; is_row(rt.alloc(), &bytes, INFO_ALONE, &INFO_OF_WHOLE));
    assert!(rt; is_row(rt.alloc(), &bytes, TAGS_ALONE, &TAGS_OF_WHOLE));
    let bytes = joined(rt.alloc(), &[&START, &APPLICATION, &LAST, b"frames"], 62)?;
    assert!(rt; is_row(rt.alloc(), &bytes, ALL, &WITH_APPLICATION));
    assert!(rt; is_row(rt.alloc(), &bytes, TAGS_ALONE, &WITH_APPLICATION));
    Ok(())
}

// The answers of a head with an application block.
const WITH_APPLICATION: [Wanted; 8] = [
    Wanted::Marker,
    Wanted::Header(8, false, 0, 34),
    Wanted::Info,
    Wanted::Header(46, false, 2, 6),
    Wanted::Application(2),
    Wanted::Header(56, true, 1, 0),
    Wanted::Padding(0),
    Wanted::Whole(56),
];

// How many answers come first where a head has so many bytes, and where what is cut begins: the marker, a header, the
// streaminfo, comments, and a picture that is passed.
fn before_the_cut(len: usize) -> (usize, u64) {
    match len {
        0..4 => (0, 0),
        4..8 => (1, 4),
        8..42 => (2, 4),
        42..46 => (3, 42),
        46..62 => (4, 42),
        62..66 => (5, 62),
        66..1066 => (6, 62),
        _ => (7, 1066),
    }
}

fn is_cut(alloc: Global, bytes: &[u8], len: usize) -> bool {
    let (count, begin) = before_the_cut(len);
    let mut rows = [Wanted::Cut(begin); 8];
    for (row, wanted) in rows.iter_mut().zip(&WHOLE).take(count) {
        *row = *wanted;
    }
    let rows = &rows[..count.saturating_add(1).min(8)];
    let front = &bytes[..len.min(bytes.len())];
    answers_are(alloc, front, ALL, usize::MAX, rows)
        && answers_are(alloc, front, ALL, 7, rows)
        && is_read_heads(alloc, front, ALL, Wanted::Cut(begin))
}

// A head that is cut at each byte.
#[test]
fn cut_heads(rt: HostRuntime) -> Result<(), Fail> {
    let bytes = whole(rt.alloc())?;
    for len in 0..1070 {
        assert!(rt; is_cut(rt.alloc(), &bytes, len), "{len}");
    }
    Ok(())
}

// The header of the streaminfo.
const STREAMINFO: Wanted = Wanted::Header(8, false, 0, 34);

// The block of the streaminfo, and the marker with such a block that is one byte longer.
#[rattlefmt::skip]
const INFO_BLOCK: [u8; 38] = [
    0x00, 0x00, 0x00, 0x22, 0x00, 0x10, 0x00, 0x10, 0x00, 0x00, 0x00, 0x00, 0x00, 0x00, 0x0a, 0xc4, 0x40, 0x70, 0x00,
    0x00, 0x00, 0x01, 0x00, 0x00, 0x00, 0x00, 0x00, 0x00, 0x00, 0x00, 0x00, 0x00, 0x00, 0x00, 0x00, 0x00, 0x00, 0x00,
];

#[rattlefmt::skip]
const LONG_START: [u8; 42] = [
    0x66, 0x4c, 0x61, 0x43, 0x00, 0x00, 0x00, 0x23, 0x00, 0x10, 0x00, 0x10, 0x00, 0x00, 0x00, 0x00,
    0x00, 0x00, 0x0a, 0xc4, 0x40, 0x70, 0x00, 0x00, 0x00, 0x01, 0x00, 0x00, 0x00, 0x00, 0x00, 0x00,
    0x00, 0x00, 0x00, 0x00, 0x00, 0x00, 0x00, 0x00, 0x00, 0x00,
];

// The parts, the length with zeros after them, and the header and the fault after the streaminfo.
#[rattlefmt::skip]
const FAULTS: [(&[&[u8]], usize, &[Wanted]); 10] = [
    (&[b"ID3\x03"], 4, &[Wanted::Fault(0, "stream starts with ID3 header rather than FLAC header")]),
    (&[b"RIFF"], 4, &[Wanted::Fault(0, "invalid stream header")]),
    (&[b"fLaC", &COMMENT], 24, &[
        Wanted::Marker, Wanted::Header(8, false, 4, 16), Wanted::Fault(4, "streaminfo block missing"),
    ]),
    (&[b"fLaC", &PICTURE], 1008, &[
        Wanted::Marker, Wanted::Header(8, false, 6, 1000), Wanted::Fault(4, "streaminfo block missing"),
    ]),
    (&[b"fLaC", &PICTURE], 1007, &[Wanted::Marker, Wanted::Header(8, false, 6, 1000), Wanted::Cut(4)]),
    (&[&START, &INFO_BLOCK], 80, &[
        Wanted::Marker, STREAMINFO, Wanted::Info, Wanted::Header(46, false, 0, 34),
        Wanted::Fault(42, "encountered second streaminfo block"),
    ]),
    (&[&START, &COMMENT, &COMMENT], 82, &[
        Wanted::Marker, STREAMINFO, Wanted::Info, Wanted::Header(46, false, 4, 16), Wanted::Comment(1),
        Wanted::Header(66, false, 4, 16), Wanted::Fault(62, "encountered second Vorbis comment block"),
    ]),
    (&[&START, &LARGE], 46, &[
        Wanted::Marker, STREAMINFO, Wanted::Info, Wanted::Header(46, false, 2, 0xff_ffff),
        Wanted::Fault(42, "application blocks larger than 10 MiB are not supported"),
    ]),
    (&[&START, &FORBIDDEN], 46, &[
        Wanted::Marker, STREAMINFO, Wanted::Info, Wanted::Header(46, false, 127, 0xff_ffff),
        Wanted::Fault(42, "invalid metadata block type"),
    ]),
    (&[&LONG_START], 43, &[
        Wanted::Marker, Wanted::Header(8, false, 0, 35), Wanted::Fault(4, "invalid streaminfo metadata block length"),
    ]),
];

fn has_fault(
    alloc: Global,
    parts: &[&[u8]],
    len: usize,
    wanted: &[Wanted],
) -> Result<bool, AllocError> {
    let bytes = joined(alloc, parts, len)?;
    Ok(is_row(alloc, &bytes, ALL, wanted))
}

#[test]
fn faults(rt: HostRuntime) -> Result<(), Fail> {
    for (number, (parts, len, wanted)) in FAULTS.iter().enumerate() {
        assert!(rt; has_fault(rt.alloc(), *parts, *len, *wanted)?, "{number}");
    }
    Ok(())
}

// After so many answers over all bytes, from which position on bytes are asked for, and how many.
const NEEDED: [(u32, u64, usize); 8] = [
    (0, 0, 4),
    (1, 4, 4),
    (2, 8, 34),
    (3, 42, 4),
    (4, 46, 16),
    (5, 62, 4),
    (6, 1065, 1),
    (7, 1066, 4),
];

// Whether that is asked for where fewer are held.
fn is_needed(alloc: Global, bytes: &[u8], row: &(u32, u64, usize)) -> bool {
    let (given, position, count) = *row;
    let mut head = HeadDecoder::new(0, ALL);
    let mut all = true;
    for _ in 0..given {
        all = all && answer(&mut head, alloc, bytes, 1070).is_ok();
    }
    for held in 0..count {
        all = all && is_read_on(&mut head, alloc, bytes, position, held, count);
    }
    all
}

#[test]
fn needed_bytes(rt: HostRuntime) -> Result<(), Fail> {
    let bytes = whole(rt.alloc())?;
    for row in &NEEDED {
        assert!(rt; is_needed(rt.alloc(), &bytes, row), "{row:?}");
    }
    Ok(())
}

// Whether this is asked for where so many bytes from the position on are held, and the stream goes on; and also where those that are
// held begin after the position, and end the stream.
fn is_read_on(
    head: &mut HeadDecoder,
    alloc: Global,
    bytes: &[u8],
    position: u64,
    held: usize,
    count: usize,
) -> bool {
    let some = bytes.get(position as usize..).unwrap_or(&[]);
    let some = some.get(..held).unwrap_or(&[]);
    if some.len() > MOST || position > 2000 {
        return false;
    }
    asks_for(
        head.decode_next(alloc, some, position, false),
        position,
        count,
    ) && asks_for(
        head.decode_next(alloc, &[], position + 1, true),
        position,
        count,
    )
}

fn asks_for(event: claxon::Result<HeadEvent>, position: u64, count: usize) -> bool {
    match event {
        Ok(HeadEvent::ReadOn(needed)) => needed.position == position && needed.count == count,
        _ => false,
    }
}
