//! `claxon verify` of files whose heads are wrong: what is printed of their frames, but of standard input.
use claxon_commands::verify::command;
use claxon_testing::answers::{DEEP_FRAME, FRAME, PAIRS, SECOND, joined};
use claxon_testing::command_lines::owned;
use claxon_testing::temporary_files::file_of;
use std::alloc::{AllocError, Global};
use std::fs;
use std::test::Fail;

// A file, and what is said of it.
struct Row {
    bytes: &'static [&'static [u8]],
    // What is wrong with the head.
    reason: &'static str,
    // How many frames, samples and places there are.
    counts: &'static str,
    // The first place on a brief line.
    first: &'static str,
    places: &'static [&'static str],
    // The members of the object after the reason.
    members: &'static str,
}

// A head after its marker.
const REST: &[u8] =
    b"\x80\0\0\x22\0\x10\0\x10\0\0\0\0\0\0\x0a\xc4\x40\x70\0\0\0\x02\0\0\0\0\0\0\0\0\0\0\0\0\0\0\0\0";

// The same, where another block follows.
const REST_OF_TWO: &[u8] =
    b"\0\0\0\x22\0\x10\0\x10\0\0\0\0\0\0\x0a\xc4\x40\x70\0\0\0\x02\0\0\0\0\0\0\0\0\0\0\0\0\0\0\0\0";

// Vorbis comments, the last block, of which the vendor string has more bytes than the block.
const LONG_VENDOR: &[u8] = b"\x84\0\0\x0a\x03\0\0\0ab\0\0\0\0";

// The second frame, with a flipped bit.
const DAMAGED: &[u8] = b"\xff\xf8\x69\x02\x01\x00\x8f\x00\x04\x35\x24";

#[rattlefmt::skip]
const ROWS: [Row; 9] = [
    Row {
        bytes: &[b"fLaD", REST, &FRAME, &SECOND],
        reason: "not a FLAC file",
        counts: ", 2 frames, 2 samples, 1 place",
        first: " at byte 0 after 0 samples: the head",
        places: &["  bytes 0 to 42, samples 0 to 0: the head"],
        members: ",\"frames\":2,\"samples\":2,\"sample_rate\":44100,\"channels\":1,\"bits_per_sample\":8,\"md5\":\"not computed\",\"places\":[{\"start_byte\":0,\"end_byte\":42,\"start_sample\":0,\"end_sample\":0,\"what\":\"the head\"}],\"notes\":[]",
    },
    // The head is cut off, and then a frame too.
    Row {
        bytes: &[&FRAME, &SECOND],
        reason: "not a FLAC file",
        counts: ", 2 frames, 2 samples",
        first: "",
        places: &[],
        members: ",\"frames\":2,\"samples\":2,\"sample_rate\":44100,\"channels\":1,\"bits_per_sample\":8,\"md5\":\"not computed\",\"places\":[],\"notes\":[]",
    },
    Row {
        bytes: &[&SECOND],
        reason: "not a FLAC file",
        counts: ", 1 frame, 1 sample, 1 place",
        first: " at byte 0 after 0 samples: 1 frame is missing",
        places: &["  byte 0, samples 0 to 1: 1 frame is missing"],
        members: ",\"frames\":1,\"samples\":1,\"sample_rate\":44100,\"channels\":1,\"bits_per_sample\":8,\"md5\":\"not computed\",\"places\":[{\"start_byte\":0,\"end_byte\":0,\"start_sample\":0,\"end_sample\":1,\"what\":\"1 frame is missing\"}],\"notes\":[]",
    },
    Row {
        bytes: &[b"fLaC", REST_OF_TWO, LONG_VENDOR, &FRAME],
        reason: "Ill-formed FLAC stream: vendor string too long",
        counts: ", 1 frame, 1 sample, 1 place",
        first: " at byte 0 after 0 samples: the head",
        places: &["  bytes 0 to 56, samples 0 to 0: the head"],
        members: ",\"frames\":1,\"samples\":1,\"sample_rate\":44100,\"channels\":1,\"bits_per_sample\":8,\"md5\":\"not computed\",\"places\":[{\"start_byte\":0,\"end_byte\":56,\"start_sample\":0,\"end_sample\":0,\"what\":\"the head\"}],\"notes\":[]",
    },
    // A frame is damaged as well, and a byte is left.
    Row {
        bytes: &[b"fLaD", REST, &FRAME, DAMAGED],
        reason: "not a FLAC file",
        counts: ", 1 frame, 1 sample, 2 places",
        first: ", the first at byte 0 after 0 samples: the head",
        places: &[
            "  bytes 0 to 42, samples 0 to 0: the head",
            "  bytes 53 to 64, samples 1 to 1: Ill-formed FLAC stream: frame CRC mismatch",
        ],
        members: ",\"frames\":1,\"samples\":1,\"sample_rate\":44100,\"channels\":1,\"bits_per_sample\":8,\"md5\":\"not computed\",\"places\":[{\"start_byte\":0,\"end_byte\":42,\"start_sample\":0,\"end_sample\":0,\"what\":\"the head\"},{\"start_byte\":53,\"end_byte\":64,\"start_sample\":1,\"end_sample\":1,\"what\":\"Ill-formed FLAC stream: frame CRC mismatch\"}],\"notes\":[]",
    },
    Row {
        bytes: &[&FRAME, b"\0"],
        reason: "not a FLAC file",
        counts: ", 1 frame, 1 sample",
        first: "",
        places: &[],
        members: ",\"frames\":1,\"samples\":1,\"sample_rate\":44100,\"channels\":1,\"bits_per_sample\":8,\"md5\":\"not computed\",\"places\":[],\"notes\":[\"1 byte after the last frame\"]",
    },
    // A frame of two channels.
    Row {
        bytes: &[&FRAME, &PAIRS, &SECOND],
        reason: "not a FLAC file",
        counts: ", 2 frames, 2 samples, 1 place",
        first: " at byte 11 after 1 sample: 2 channels, but the first frame has 1",
        places: &["  bytes 11 to 24, samples 1 to 1: 2 channels, but the first frame has 1"],
        members: ",\"frames\":2,\"samples\":2,\"sample_rate\":44100,\"channels\":1,\"bits_per_sample\":8,\"md5\":\"not computed\",\"places\":[{\"start_byte\":11,\"end_byte\":24,\"start_sample\":1,\"end_sample\":1,\"what\":\"2 channels, but the first frame has 1\"}],\"notes\":[]",
    },
    // No frame, and one that doesn't say its bit depth.
    Row { bytes: &[b"fLaD", REST], reason: "not a FLAC file", counts: "", first: "", places: &[], members: "" },
    Row { bytes: &[b"fLaD", &DEEP_FRAME], reason: "not a FLAC file", counts: "", first: "", places: &[], members: "" },
];

// The lines of a file of this name, and of the numbers of files.
fn lines_of(alloc: Global, name: &str, row: &Row) -> Result<String, AllocError> {
    let (reason, counts) = (row.reason, row.counts);
    let mut lines = format!(in alloc; "{name}: wrong, {reason}{counts}\n")?;
    for place in row.places {
        write!(&mut lines, "{name}: {place}\n")?;
    }
    lines.push_str("1 file: 0 ok, 1 wrong, 0 not supported, 0 not read\n")?;
    Ok(lines)
}

fn brief_line_of(alloc: Global, name: &str, row: &Row) -> Result<String, AllocError> {
    let Row {
        reason,
        counts,
        first,
        ..
    } = row;
    format!(in alloc; "{name}: wrong, {reason}{counts}{first}\n")
}

fn object_of(alloc: Global, name: &str, row: &Row) -> Result<String, AllocError> {
    let (reason, members) = (row.reason, row.members);
    format!(in alloc;
        "{{\"name\":\"{name}\",\"verdict\":\"wrong\",\"reason\":\"{reason}\"{members}}}\n"
    )
}

// Whether a command line with this input prints just this, and has status 1.
fn says(rt: &HostRuntime, words: &[&str], input: &[u8], want: Result<String, AllocError>) -> bool {
    let (Ok(words), Ok(want)) = (owned(rt.alloc(), words), want) else {
        return false;
    };
    let (mut output, mut errors): (Vec<u8>, Vec<u8>) = (Vec::new(rt.alloc()), Vec::new(rt.alloc()));
    let status = command(rt, words.as_slice(), input, &mut output, false, &mut errors);
    status == 1 && output.as_slice() == want.as_bytes() && errors.is_empty()
}

// Whether this is said of a file of this name, whose frames nothing is said of in standard input.
fn is_said(rt: &HostRuntime, name: &str, bytes: &[u8], row: &Row) -> bool {
    let (alloc, reason) = (rt.alloc(), row.reason);
    let input = format!(in alloc; "standard input: wrong, {reason}\n");
    says(
        rt,
        &["-q", "--summary", name],
        b"",
        lines_of(alloc, name, row),
    ) && says(rt, &["--brief", name], b"", brief_line_of(alloc, name, row))
        && says(rt, &["--json", name], b"", object_of(alloc, name, row))
        && says(rt, &["-"], bytes, input)
}

// The same of a file that is made for it.
fn is_said_of_file(rt: &HostRuntime, row: &Row) -> Result<bool, Fail> {
    let bytes = joined(rt.alloc(), row.bytes)?;
    let path = file_of(rt, "verify_heads", bytes.as_slice())?;
    let all = is_said(rt, path.as_str(), bytes.as_slice(), row);
    fs::remove_file(rt, path.as_str())?;
    Ok(all)
}

#[test]
fn wrong_heads(rt: HostRuntime) -> Result<(), Fail> {
    for (index, row) in ROWS.iter().enumerate() {
        assert!(rt; is_said_of_file(&rt, row)?, "{index}");
    }
    Ok(())
}
