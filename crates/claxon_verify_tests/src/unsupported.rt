//! Streams with metadata blocks that aren't supported, whose frames are judged.
use crate::reports::report_of;
use claxon_heads::UnsupportedBlock;
use claxon_report::Report;
use claxon_testing::answers::{FRAME, Fault, fault_of, head, joined};
use std::alloc::{AllocError, Global};
use std::io::Cursor;
use std::test::Fail;

// What is said: what isn't supported, whether the stream is right, how many frames there are, and the first byte that is wrong.
type Said = Result<(Option<&'static str>, bool, u64, Option<u64>), Fault>;

fn word_of(why: UnsupportedBlock) -> &'static str {
    match why {
        UnsupportedBlock::SecondComments => "second",
        UnsupportedBlock::NotUtf8 => "text",
        UnsupportedBlock::NoSeparator => "separator",
        UnsupportedBlock::FieldName => "name",
        UnsupportedBlock::BytesLeft => "bytes",
        UnsupportedBlock::LargeComments => "large comments",
        UnsupportedBlock::LargeApplication => "large application",
    }
}

fn said(report: claxon::Result<Report>) -> Said {
    match report {
        Ok(report) => {
            let why = match report.unsupported {
                Some(why) => Some(word_of(why)),
                None => None,
            };
            let first = match &report.found.places.first {
                Some(first) => Some(first.start_byte),
                None => None,
            };
            Ok((why, report.is_right, report.found.frames, first))
        }
        Err(error) => Err(fault_of(&error)),
    }
}

// Comment blocks: each has a vendor string of so many bytes, and then tags, each with its length.
const NO_TAGS: &[u8] = &[4, 0, 0, 8, 0, 0, 0, 0, 0, 0, 0, 0];

const TAG: &[u8] = b"\x04\0\0\x0f\0\0\0\0\x01\0\0\0\x03\0\0\0A=b";

const TILDE: &[u8] = b"\x04\0\0\x0f\0\0\0\0\x01\0\0\0\x03\0\0\0~=b";

const CONTROL: &[u8] = b"\x04\0\0\x0f\0\0\0\0\x01\0\0\0\x03\0\0\0\x1f=b";

const NO_SEPARATOR: &[u8] = b"\x04\0\0\x0f\0\0\0\0\x01\0\0\0\x03\0\0\0Abc";

const TAG_NOT_UTF8: &[u8] = b"\x04\0\0\x0f\0\0\0\0\x01\0\0\0\x03\0\0\0A=\xff";

const VENDOR_NOT_UTF8: &[u8] = b"\x04\0\0\x0a\x02\0\0\0\xc3\x28\0\0\0\0";

const BYTES_LEFT: &[u8] = b"\x04\0\0\x0a\0\0\0\0\0\0\0\0\x01\x02";

// The first of two tags has no `=`, and the second is longer than the block.
const BOTH: &[u8] = b"\x04\0\0\x13\0\0\0\0\x02\0\0\0\x03\0\0\0Abc\xff\0\0\0";

const LAST_BOTH: &[u8] = b"\x84\0\0\x13\0\0\0\0\x02\0\0\0\x03\0\0\0Abc\xff\0\0\0";

const TAG_TOO_LONG: &[u8] = b"\x04\0\0\x0f\0\0\0\0\x01\0\0\0\x04\0\0\0A=b";

const VENDOR_TOO_LONG: &[u8] = b"\x04\0\0\x08\x01\0\0\0\0\0\0\0";

const TAG_MISSING: &[u8] = b"\x04\0\0\x0c\0\0\0\0\x02\0\0\0\0\0\0\0";

// Another streaminfo, without its end, which isn't read.
const STREAMINFO: &[u8] = &[0x80, 0, 0, 0x21];

// A streaminfo, and the last block, which is padding of one byte.
const PADDING: &[u8] = &[0x81, 0, 0, 1, 0xff];

const TOO_LONG: Fault = Fault::Format("Vorbis comment too long for Vorbis comment block");

// Blocks between the streaminfo and the padding; and what is said where a frame follows that is right, after so many bytes.
const ROWS: [(&[&[u8]], Result<Option<&'static str>, Fault>); 20] = [
    (&[], Ok(None)),
    (&[NO_TAGS], Ok(None)),
    (&[TAG], Ok(None)),
    (&[TILDE], Ok(Some("name"))),
    (&[CONTROL], Ok(Some("name"))),
    (&[NO_SEPARATOR], Ok(Some("separator"))),
    (&[TAG_NOT_UTF8], Ok(Some("text"))),
    (&[VENDOR_NOT_UTF8], Ok(Some("text"))),
    (&[BYTES_LEFT], Ok(Some("bytes"))),
    (&[BOTH], Ok(Some("separator"))),
    (&[NO_TAGS, TAG], Ok(Some("second"))),
    (&[TAG, TAG, TILDE], Ok(Some("second"))),
    (&[TILDE, TAG, TAG], Ok(Some("name"))),
    (&[NO_SEPARATOR, TILDE], Ok(Some("separator"))),
    (&[TAG_TOO_LONG], Err(TOO_LONG)),
    (&[TILDE, TAG_TOO_LONG], Err(TOO_LONG)),
    (
        &[VENDOR_TOO_LONG],
        Err(Fault::Format("vendor string too long")),
    ),
    (
        &[TAG_MISSING],
        Err(Fault::Format("Vorbis comment block contains wrong number of entries")),
    ),
    (
        &[TILDE, STREAMINFO],
        Err(Fault::Format("invalid streaminfo metadata block length")),
    ),
    (
        &[TILDE, &[0x7f, 0, 0, 0]],
        Err(Fault::Format("invalid metadata block type")),
    ),
];

// The frame with a wrong CRC.
fn wrong_frame() -> [u8; 11] {
    let mut frame = FRAME;
    frame[10] ^= 1;
    frame
}

// What is said of a stream with these blocks, where such a frame follows, and the position of that.
fn said_of(alloc: Global, blocks: &[&[u8]], frame: &[u8]) -> Result<(Said, u64), AllocError> {
    let mut bytes = Vec::from_slice(alloc, &head(0))?;
    for block in blocks {
        bytes.extend_from_slice(*block)?;
    }
    bytes.extend_from_slice(PADDING)?;
    let start = bytes.len() as u64;
    bytes.extend_from_slice(frame)?;
    Ok((
        said(report_of(alloc, &mut Cursor::new(bytes.as_slice()), true)),
        start,
    ))
}

// What is to be said where the frame is right, and where it is wrong, which begins at this position.
fn wanted(want: Result<Option<&'static str>, Fault>, is_right: bool, start: u64) -> Said {
    match want {
        Ok(why) if is_right => Ok((why, why.is_none(), 1, None)),
        Ok(why) => Ok((why, false, 0, Some(start))),
        Err(fault) => Err(fault),
    }
}

#[test]
fn heads(rt: HostRuntime) -> Result<(), Fail> {
    for (row, (blocks, want)) in ROWS.iter().enumerate() {
        let (right, start) = said_of(rt.alloc(), *blocks, &FRAME)?;
        assert!(rt; right == wanted(*want, true, start), "{row}");
        let (wrong, start) = said_of(rt.alloc(), *blocks, &wrong_frame())?;
        assert!(rt; wrong == wanted(*want, false, start), "{row}");
    }
    Ok(())
}

// A block that is passed over may be the last one. Where the input ends inside it there is no head.
#[test]
fn ends(rt: HostRuntime) -> Result<(), Fail> {
    let alloc = rt.alloc();
    let bytes = joined(alloc, &[&head(0), LAST_BOTH, &FRAME])?;
    for length in 42..bytes.len() + 1 {
        let got = said(report_of(alloc, &mut Cursor::new(&bytes[..length]), true));
        let wants = match length {
            42..=64 => Err(Fault::Io),
            65 | 66 => Ok((Some("separator"), false, 0, Some(length as u64))),
            76 => Ok((Some("separator"), false, 1, None)),
            _ => Ok((Some("separator"), false, 0, Some(65))),
        };
        assert!(rt; got == wants, "{length}");
    }
    Ok(())
}
