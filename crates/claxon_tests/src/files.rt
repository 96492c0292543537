//! Streams in files.
use claxon::{Error, FlacReader, FlacReaderOptions};
use claxon_testing::answers::{Fault, fault_of, head, joined, rest_of};
use claxon_testing::temporary_files::{file_of, path_of};
use std::alloc::{AllocError, Global};
use std::fs;
use std::io::{Cursor, Read};
use std::test::Fail;

/// The number of tags and of samples of an open file, or the error of opening it.
type Found = Result<(usize, usize), Fault>;

// What is found with these options, or by default.
fn found_by(rt: &HostRuntime, path: &str, options: Option<FlacReaderOptions>) -> Found {
    let opened = match options {
        Some(options) => FlacReader::open_ext(rt, path, options),
        None => FlacReader::open(rt, path),
    };
    match opened {
        Ok(flac) => {
            let mut flac = flac;
            let tags = flac.tags().len();
            Ok((tags, rest_of(&mut flac).count))
        }
        Err(error) => Err(fault_of(&error)),
    }
}

const OPTIONS: [FlacReaderOptions; 4] = [
    FlacReaderOptions {
        metadata_only: false,
        read_vorbis_comment: true,
    },
    FlacReaderOptions {
        metadata_only: false,
        read_vorbis_comment: false,
    },
    FlacReaderOptions {
        metadata_only: true,
        read_vorbis_comment: true,
    },
    FlacReaderOptions {
        metadata_only: true,
        read_vorbis_comment: false,
    },
];

// Whether a file gives this with each choice of options, and by default what the first one gives.
fn gives(rt: &HostRuntime, path: &str, wants: [Found; 4]) -> bool {
    let mut all = found_by(rt, path, None) == wants[0];
    for (options, want) in OPTIONS.into_iter().zip(wants) {
        all = all && found_by(rt, path, Some(options)) == want;
    }
    all
}

// The same for a file with the first bytes of a head, and then the rest.
fn is_given(rt: &HostRuntime, prefix: usize, rest: &[u8], wants: [Found; 4]) -> Result<bool, Fail> {
    let first = head(0x00);
    let bytes = joined(rt.alloc(), &[&first[..prefix.min(42)], rest])?;
    let path = file_of(rt, "opened", &bytes)?;
    let all = gives(rt, path.as_str(), wants);
    fs::remove_file(rt, path.as_str())?;
    Ok(all)
}

// The whole head of an open stream, and whether it was opened for its metadata only, as text.
fn head_text<R: Read>(alloc: Global, flac: &FlacReader<R>) -> Result<String, AllocError> {
    let (info, vendor) = (flac.streaminfo(), flac.vendor());
    let only = flac.is_metadata_only();
    let mut text = format!(in alloc; "{info:?} {vendor:?} {only}")?;
    for (name, value) in flac.tags() {
        write!(&mut text, " {name}={value}")?;
    }
    Ok(text)
}

// The same, or the text of the error.
fn answer_of<R: Read + Drop>(
    alloc: Global,
    opened: claxon::Result<FlacReader<R>>,
) -> Result<String, AllocError> {
    match opened {
        Ok(flac) => head_text(alloc, &flac),
        Err(error) => format!(in alloc; "{error}"),
    }
}

// The result for a file with these options, or by default, and for its bytes in memory.
fn answers_of(
    rt: &HostRuntime,
    path: &str,
    bytes: &[u8],
    options: Option<FlacReaderOptions>,
) -> Result<(String, String), Fail> {
    let (alloc, bytes) = (rt.alloc(), Cursor::new(bytes));
    let (file, memory) = match options {
        Some(options) => (
            answer_of(alloc, FlacReader::open_ext(rt, path, options))?,
            answer_of(alloc, FlacReader::new_ext(alloc, bytes, options))?,
        ),
        None => (
            answer_of(alloc, FlacReader::open(rt, path))?,
            answer_of(alloc, FlacReader::new(alloc, bytes))?,
        ),
    };
    Ok((file, memory))
}

// Whether a file of these bytes has the same results as the bytes in memory, with each choice of options.
fn answers_as_in_memory(rt: &HostRuntime, bytes: &[u8]) -> Result<bool, Fail> {
    let path = file_of(rt, "shown", bytes)?;
    let (file, memory) = answers_of(rt, path.as_str(), bytes, None)?;
    let mut all = file.as_str() == memory.as_str();
    for options in OPTIONS {
        let (file, memory) = answers_of(rt, path.as_str(), bytes, Some(options))?;
        all = all && file.as_str() == memory.as_str();
    }
    fs::remove_file(rt, path.as_str())?;
    Ok(all)
}

// A stream with comments in upper and lower case and outside ASCII, and a streaminfo in which every value is known.
const TAGGED: &[u8] =
    b"fLaC\x00\x00\x00\x22\x10\x00\x12\x00\x00\x00\x0e\x00\x124\x0a\xc4B\xf1#Eg\x89\x00\x01\x02\x03\x04\x05\x06\x07\x08\x09\x0a\x0b\x0c\x0d\x0e\x0f\
\x84\x00\x00C \x00\x00\x00reference libFLAC 1.4.2 20221022\
\x02\x00\x00\x00\x09\x00\x00\x00TITLE=A=b\x0a\x00\x00\x00artist=Z\xc3\xbc";

const TAGGED_HEAD: &str =
    "StreamInfo { min_block_size: 4096, max_block_size: 4608, min_frame_size: Some(14), max_frame_size: Some(4660), \
sample_rate: 44100, channels: 2, bits_per_sample: 16, samples: Some(4886718345), md5sum: [0, 1, 2, 3, 4, 5, 6, 7, 8, 9, 10, 11, 12, 13, 14, 15] } \
Some(\"reference libFLAC 1.4.2 20221022\") false TITLE=A=b artist=Z\u{fc}";

// The same of a tag without a vendor and without frames.
const UNNAMED: &[u8] =
    b"fLaC\x00\x00\x00\x22\x00\x10\x00\x10\x00\x00\x00\x00\x00\x00\x0a\xc4\x40\x70\x00\x00\x00\x01\x00\x00\x00\x00\x00\x00\x00\x00\x00\x00\x00\x00\x00\x00\x00\x00\
\x84\x00\x00\x13\x00\x00\x00\x00\x02\x00\x00\x00\x00\x00\x00\x00\x03\x00\x00\x00X=Y";

const UNNAMED_HEAD: &str =
    "StreamInfo { min_block_size: 16, max_block_size: 16, min_frame_size: None, max_frame_size: None, \
sample_rate: 44100, channels: 1, bits_per_sample: 8, samples: Some(1), md5sum: [0, 0, 0, 0, 0, 0, 0, 0, 0, 0, 0, 0, 0, 0, 0, 0] } \
Some(\"\") false X=Y";

// Whole heads, one without its comments, and a streaminfo and nothing after it; a truncated streaminfo; markers of other formats;
// an empty file.
const STREAMS: [&[u8]; 7] = [
    TAGGED,
    UNNAMED,
    b"fLaC\x00\x00\x00\x22\x00\x10\x00\x10\x00\x00\x00\x00\x00\x00\x0a\xc4\x40\x70\x00\x00\x00\x01\x00\x00\x00\x00\x00\x00\x00\x00\x00\x00\x00\x00\x00\x00\x00\x00",
    b"fLaC\x80\x00\x00\x22\x10\x00",
    b"ID3\x04",
    b"fLaD",
    b"",
];

// Whether a file of these bytes has this head.
fn has_head(rt: &HostRuntime, bytes: &[u8], want: &str) -> Result<bool, Fail> {
    let path = file_of(rt, "head", bytes)?;
    let text = answer_of(rt.alloc(), FlacReader::open(rt, path.as_str()))?;
    fs::remove_file(rt, path.as_str())?;
    Ok(text.as_str() == want)
}

#[test]
fn heads_of_files(rt: HostRuntime) -> Result<(), Fail> {
    for (bytes, want) in &[(TAGGED, TAGGED_HEAD), (UNNAMED, UNNAMED_HEAD)] {
        assert!(rt; has_head(&rt, *bytes, *want)?, "{want}");
    }
    for bytes in &STREAMS {
        assert!(rt; answers_as_in_memory(&rt, *bytes)?, "{}", bytes.len());
    }
    Ok(())
}

const NO_STREAM: Found = Err(Fault::Format("invalid stream header"));

const ID3: Found = Err(Fault::Format("stream starts with ID3 header rather than FLAC header"));

const CUT: Found = Err(Fault::Io);

// The number of bytes of a head, the bytes after them, and what each choice of options finds: a tag and a frame; nothing after
// a streaminfo that isn't the last block; markers of other formats; and an empty file.
#[rattlefmt::skip]
const FILES: [(usize, &[u8], [Found; 4]); 5] = [
    (42, &[
        0x84, 0x00, 0x00, 0x13, 0, 0, 0, 0, 2, 0, 0, 0, 0, 0, 0, 0, 3, 0, 0, 0, 0x58, 0x3d, 0x59,
        0xff, 0xf8, 0x69, 0x02, 0x00, 0x00, 0x9a, 0x00, 0x05, 0x34, 0x58,
    ], [Ok((1, 1)), Ok((0, 1)), Ok((1, 0)), Ok((0, 0))]),
    (42, &[], [CUT, CUT, CUT, Ok((0, 0))]),
    (0, &[0x66, 0x4c, 0x61, 0x44], [NO_STREAM; 4]),
    (0, &[0x49, 0x44, 0x33, 0x04], [ID3; 4]),
    (0, &[], [CUT; 4]),
];

#[test]
fn opened_files(rt: HostRuntime) -> Result<(), Fail> {
    for (prefix, rest, wants) in FILES {
        let is_given = is_given(&rt, prefix, rest, wants)?;
        assert!(rt; is_given, "{prefix} {}", rest.len());
    }
    Ok(())
}

#[test]
fn a_file_that_is_not_there(rt: HostRuntime) -> Result<(), Fail> {
    let path = path_of(&rt, "none")?;
    assert!(rt; matches!(FlacReader::open(&rt, path.as_str()), Err(Error::IoError(_))));
    Ok(())
}
