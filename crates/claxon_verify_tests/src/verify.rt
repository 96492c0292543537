//! Streams that are verified, and command lines of `claxon verify`.
use crate::reports::report_of;
use claxon_blocks::md5_verdict::Md5Verdict;
use claxon_command_line::progress::Progress;
use claxon_commands::verify::command;
use claxon_report::{Damage, Place, Report};
use claxon_testing::answers::{
    DEEP_FRAME, FRAME, Fault, PAIRS, SECOND, fault_of, frames_in_order, head, joined,
};
use claxon_testing::command_lines::{Outcome, is_outcome, owned};
use claxon_testing::doubles::sinks::Sink;
use claxon_testing::temporary_files::{file_of, path_of};
use claxon_verify::verify;
use std::alloc::{AllocError, Global};
use std::fs;
use std::io::{self, Cursor, ErrorKind};
use std::test::Fail;

// What is wrong in a place. Of a gap it is the number of frames or samples, and whether they are samples.
#[derive(PartialEq, Clone, Copy)]
pub(crate) enum Wrong {
    Fault(Fault),
    Channels(u32),
    BitDepth(u32),
    SampleRate(u32),
    BlockingStrategy,
    Missing(u64, bool),
    Repeated,
    OutOfOrder,
    Beyond,
    WideSample,
}

fn wrong_of(damage: &Damage) -> Wrong {
    match damage {
        Damage::Fault(fault) => Wrong::Fault(fault_of(&fault.error)),
        Damage::Channels(count) => Wrong::Channels(*count),
        Damage::BitDepth(bits) => Wrong::BitDepth(*bits),
        Damage::SampleRate(rate) => Wrong::SampleRate(*rate),
        Damage::BlockingStrategy => Wrong::BlockingStrategy,
        Damage::Missing(gap) => Wrong::Missing(gap.count, gap.is_variable),
        Damage::Repeated => Wrong::Repeated,
        Damage::OutOfOrder => Wrong::OutOfOrder,
        Damage::Beyond => Wrong::Beyond,
        Damage::WideSample => Wrong::WideSample,
    }
}

// The first byte of a place and that after it, its first sample and that after it, and what is wrong.
pub(crate) type Found = (u64, u64, u64, u64, Wrong);

pub(crate) fn found_of(place: &Place) -> Found {
    (
        place.start_byte,
        place.end_byte,
        place.start_sample,
        place.end_sample,
        wrong_of(&place.damage),
    )
}

// What a report says: the numbers of frames, of samples and of places after the first, the first place, and whether the stream is
// right.
type Said = ((u64, u64, usize), Option<Found>, bool);

fn said(report: &Report) -> Said {
    let (found, places) = (&report.found, &report.found.places);
    let first = match &places.first {
        Some(first) => Some(found_of(first)),
        None => None,
    };
    (
        (found.frames, found.samples, places.more.len()),
        first,
        report.is_right,
    )
}

// What else it says: the number of samples in the head, and whether one byte or more bytes are left after the last frame.
type Rest = (Option<u64>, bool, bool);

// What is said of these bytes. One function has the call, since each that has it takes long to prove.
fn said_of(alloc: Global, bytes: &[u8], computes_md5: bool) -> Option<(Said, Rest, &'static str)> {
    match report_of(alloc, &mut Cursor::new(bytes), computes_md5) {
        Ok(report) => {
            let has_byte_left = report.found.notes.has_byte_left;
            let rest = (
                report.info.samples,
                has_byte_left,
                report.trailing.is_some(),
            );
            Some((said(&report), rest, verdict_name(report.md5)))
        }
        Err(_) => None,
    }
}

pub(crate) const CRC: Wrong = Wrong::Fault(Fault::Format("frame CRC mismatch"));

const CUT: Wrong = Wrong::Fault(Fault::Io);

// The only sample is missing.
const LOST: Wrong = Wrong::Missing(1, true);

// Numbers of bytes of two frames of one sample, after a head that says that there is one sample; which of the frames have a
// wrong CRC; and what is said. The head has 42 bytes, and each frame 11. It says that blocks have 16 samples, so the second frame
// begins at the sample 16 where the first isn't known.
const ROWS: [(usize, [bool; 2], Said); 12] = [
    (
        42,
        [false, false],
        ((0, 0, 0), Some((42, 42, 0, 1, LOST)), false),
    ),
    (
        43,
        [false, false],
        ((0, 0, 0), Some((43, 43, 0, 1, LOST)), false),
    ),
    (
        44,
        [false, false],
        ((0, 0, 0), Some((42, 44, 0, 1, CUT)), false),
    ),
    (
        52,
        [false, false],
        ((0, 0, 0), Some((42, 52, 0, 1, CUT)), false),
    ),
    (53, [false, false], ((1, 1, 0), None, true)),
    (54, [false, false], ((1, 1, 0), None, true)),
    (
        55,
        [false, false],
        ((1, 1, 0), Some((53, 55, 1, 1, CUT)), false),
    ),
    (
        63,
        [false, true],
        ((1, 1, 0), Some((53, 63, 1, 1, CUT)), false),
    ),
    (
        64,
        [false, false],
        ((2, 2, 0), Some((53, 64, 1, 1, Wrong::Beyond)), false),
    ),
    (
        64,
        [true, false],
        ((1, 1, 0), Some((42, 53, 0, 16, CRC)), false),
    ),
    (
        64,
        [false, true],
        ((1, 1, 0), Some((53, 64, 1, 1, CRC)), false),
    ),
    (
        64,
        [true, true],
        ((0, 0, 0), Some((42, 64, 0, 1, CRC)), false),
    ),
];

// The bytes of a row.
fn damaged(wrong: [bool; 2]) -> [u8; 64] {
    let [first, second] = wrong;
    let mut bytes = frames_in_order();
    bytes[52] ^= u8::from(first);
    bytes[63] ^= u8::from(second);
    bytes
}

fn is_row(alloc: Global, len: usize, wrong: [bool; 2], want: Said) -> bool {
    let has_byte_left = len == 43 || len == 54;
    match said_of(alloc, front(&damaged(wrong), len), false) {
        Some((said, (samples, is_left, _), _)) => {
            said == want && samples == Some(1) && is_left == has_byte_left
        }
        None => false,
    }
}

#[test]
fn frames_and_faults(rt: HostRuntime) {
    for (len, wrong, want) in &ROWS {
        assert!(rt; is_row(rt.alloc(), *len, *wrong, *want), "{len}");
    }
}

// Frames of number 1 with the sample 5: of variable blocks, of 48,000 Hz, and of 16 bits.
const VARIABLE: [u8; 11] = [
    0xff, 0xf9, 0x69, 0x02, 0x01, 0x00, 0xed, 0x00, 0x05, 0xa2, 0x89,
];

const FASTER: [u8; 11] = [
    0xff, 0xf8, 0x6a, 0x02, 0x01, 0x00, 0xb5, 0x00, 0x05, 0x35, 0x5c,
];

const DEEPER: [u8; 12] = [
    0xff, 0xf8, 0x69, 0x08, 0x01, 0x00, 0x08, 0x00, 0x00, 0x05, 0x5c, 0x3c,
];

const NO_SYNC: Wrong = Wrong::Fault(Fault::Format("frame sync code missing"));

// Frames that are whole, but not in order, or disagree with the head or with one another. The last row has zeros after a frame.
const ORDERS: [(&[&[u8]], Said); 8] = [
    (
        &[&FRAME, &FRAME],
        ((2, 2, 0), Some((53, 64, 1, 1, Wrong::Repeated)), false),
    ),
    (
        &[&SECOND, &FRAME],
        ((2, 2, 0), Some((42, 53, 0, 0, Wrong::OutOfOrder)), false),
    ),
    (
        &[&VARIABLE],
        (
            (1, 1, 0),
            Some((42, 42, 0, 1, Wrong::Missing(1, true))),
            false,
        ),
    ),
    (
        &[&FRAME, &VARIABLE],
        (
            (2, 2, 0),
            Some((53, 64, 1, 1, Wrong::BlockingStrategy)),
            false,
        ),
    ),
    (
        &[&PAIRS],
        ((1, 2, 0), Some((42, 55, 0, 0, Wrong::Channels(2))), false),
    ),
    (
        &[&FRAME, &FASTER],
        (
            (2, 2, 0),
            Some((53, 64, 1, 1, Wrong::SampleRate(48000))),
            false,
        ),
    ),
    (
        &[&FRAME, &DEEPER],
        ((2, 2, 0), Some((53, 65, 1, 1, Wrong::BitDepth(16))), false),
    ),
    (
        &[&FRAME, &[0, 0, 0]],
        ((1, 1, 0), Some((53, 56, 1, 1, NO_SYNC)), false),
    ),
];

// The smallest head, for other samples, and frames.
fn stream_of(alloc: Global, format: [u8; 2], frames: &[&[u8]]) -> Result<Vec<u8>, AllocError> {
    let mut bytes = Vec::from_slice(alloc, &head_for(format))?;
    for frame in frames {
        bytes.extend_from_slice(*frame)?;
    }
    Ok(bytes)
}

// What is said of such a stream, and whether bytes are after its last frame.
fn said_of_stream(alloc: Global, format: [u8; 2], frames: &[&[u8]]) -> Option<(Said, bool)> {
    match stream_of(alloc, format, frames) {
        Ok(bytes) => match said_of(alloc, &bytes, true) {
            Some((said, (_, _, is_trailing), _)) => Some((said, is_trailing)),
            None => None,
        },
        Err(_) => None,
    }
}

#[test]
fn orders_of_frames(rt: HostRuntime) {
    for (row, (frames, want)) in ORDERS.iter().enumerate() {
        let said = said_of_stream(rt.alloc(), MONO_8_BITS, *frames);
        assert!(rt; said == Some((*want, row == 7)), "{row}");
    }
}

// The smallest head, for other samples, of an unknown number: these are the bytes in which their bit depth and the number of
// channels are.
fn head_for(format: [u8; 2]) -> [u8; 42] {
    let mut bytes = head(0x80);
    bytes[20..22].copy_from_slice(&format);
    bytes[25] = 0;
    bytes
}

const MONO_8_BITS: [u8; 2] = [0x40, 0x70];

const STEREO_16_BITS: [u8; 2] = [0x42, 0xf0];

const MONO_32_BITS: [u8; 2] = [0x41, 0xf0];

// Frames of one sample: of number 0 with 127 and with 200, and of number 1 with -128 and with -129. Each sample is the residual of
// a fixed predictor of order 0, in nine bits.
pub(crate) const GREATEST: [u8; 13] = [
    0xff, 0xf8, 0x69, 0x02, 0x00, 0x00, 0x9a, 0x10, 0x03, 0xd2, 0x7f, 0x14, 0xa0,
];

const WIDE: [u8; 13] = [
    0xff, 0xf8, 0x69, 0x02, 0x00, 0x00, 0x9a, 0x10, 0x03, 0xd2, 0xc8, 0x17, 0x12,
];

pub(crate) const LEAST: [u8; 13] = [
    0xff, 0xf8, 0x69, 0x02, 0x01, 0x00, 0x8f, 0x10, 0x03, 0xd3, 0x80, 0x97, 0xa9,
];

const WIDE_SECOND: [u8; 13] = [
    0xff, 0xf8, 0x69, 0x02, 0x01, 0x00, 0x8f, 0x10, 0x03, 0xd3, 0x7f, 0x95, 0xab,
];

// Left is -32768 and side is 65535, so that right is -98303.
const WIDE_RIGHT: [u8; 16] = [
    0xff, 0xf8, 0x69, 0x88, 0x00, 0x00, 0x16, 0x00, 0x80, 0x00, 0x00, 0x7f, 0xff, 0x80, 0x95, 0x52,
];

// The least sample of 32 bits.
const DEEPEST: [u8; 14] = [
    0xff, 0xf8, 0x69, 0x00, 0x00, 0x00, 0x4c, 0x00, 0x80, 0x00, 0x00, 0x00, 0x0b, 0xb2,
];

// The format in the head, frames in order, and what is said.
const WIDE_SAMPLES: [([u8; 2], &[&[u8]], Said); 7] = [
    (MONO_8_BITS, &[&GREATEST], ((1, 1, 0), None, true)),
    (MONO_8_BITS, &[&FRAME, &LEAST], ((2, 2, 0), None, true)),
    (
        MONO_8_BITS,
        &[&WIDE],
        ((1, 1, 0), Some((42, 55, 0, 0, Wrong::WideSample)), false),
    ),
    (
        MONO_8_BITS,
        &[&FRAME, &WIDE_SECOND],
        ((2, 2, 0), Some((53, 66, 1, 1, Wrong::WideSample)), false),
    ),
    (
        MONO_8_BITS,
        &[&WIDE, &WIDE_SECOND],
        ((2, 2, 0), Some((42, 68, 0, 0, Wrong::WideSample)), false),
    ),
    (
        STEREO_16_BITS,
        &[&WIDE_RIGHT],
        ((1, 1, 0), Some((42, 58, 0, 0, Wrong::WideSample)), false),
    ),
    (MONO_32_BITS, &[&DEEPEST], ((1, 1, 0), None, true)),
];

#[test]
fn wide_samples(rt: HostRuntime) {
    for (row, (format, frames, want)) in WIDE_SAMPLES.iter().enumerate() {
        let said = said_of_stream(rt.alloc(), *format, *frames);
        assert!(rt; said == Some((*want, false)), "{row}");
    }
}

fn verdict_name(md5: Md5Verdict) -> &'static str {
    match md5 {
        Md5Verdict::NotComputed => "not computed",
        Md5Verdict::Missing => "missing",
        Md5Verdict::Right => "right",
        Md5Verdict::Wrong => "wrong",
    }
}

// The MD5 sum of the byte 5.
const SUM: [u8; 16] = [
    0x8b, 0xb6, 0xc1, 0x78, 0x38, 0x64, 0x3f, 0x96, 0x91, 0xcc, 0x6a, 0x4d, 0xe6, 0xc5, 0x17, 0x09,
];

// Sums in the head of a frame with that sample, whether the sum is computed, and what becomes of it.
const SUMS: [([u8; 16], bool, &str); 5] = [
    (SUM, true, "right"),
    (SUM, false, "not computed"),
    ([1; 16], true, "wrong"),
    ([1; 16], false, "not computed"),
    ([0; 16], true, "missing"),
];

// The two frames, with this sum in the head.
fn with_sum(sum: &[u8; 16]) -> [u8; 64] {
    let mut bytes = frames_in_order();
    bytes[26..42].copy_from_slice(sum);
    bytes
}

// What becomes of the sum, and whether the stream is right.
fn sum_of(alloc: Global, bytes: &[u8], computes_md5: bool) -> Option<(&'static str, bool)> {
    match said_of(alloc, bytes, computes_md5) {
        Some(((_, _, is_right), _, name)) => Some((name, is_right)),
        None => None,
    }
}

#[test]
fn md5_sums(rt: HostRuntime) {
    for (sum, computes_md5, want) in &SUMS {
        let found = sum_of(rt.alloc(), front(&with_sum(sum), 53), *computes_md5);
        assert!(rt; found == Some((*want, *want != "wrong")), "{want}");
    }
}

// A fault of the head, an end inside it, and no bytes.
#[test]
fn faults_of_heads(rt: HostRuntime) {
    for (bytes, want) in [
        (b"fLaD".as_slice(), Fault::Format("invalid stream header")),
        (b"fLa".as_slice(), Fault::Io),
        (b"".as_slice(), Fault::Io),
    ] {
        let answer = match report_of(rt.alloc(), &mut Cursor::new(bytes), true) {
            Ok(_) => None,
            Err(error) => Some(fault_of(&error)),
        };
        assert!(rt; answer == Some(want));
    }
}

// The percentage of one expected sample, once, and nothing without a label.
#[test]
fn progress(rt: HostRuntime) {
    for (label, want) in &[(Some("  a"), "\r100 %  a\r\x1b[K"), (None, "")] {
        assert!(rt; shows(rt.alloc(), *label, *want), "{want}");
    }
}

// Whether this is shown of two frames with such a label.
fn shows(alloc: Global, label: Option<&str>, want: &str) -> bool {
    let bytes = frames_in_order();
    let mut errors: Vec<u8> = Vec::new(alloc);
    let mut progress = Progress::new(&mut errors, label);
    let mut input = Cursor::new(bytes.as_slice());
    let is_whole = match verify(alloc, &mut input, true, 999, &mut progress) {
        Ok(report) => report.found.frames == 2,
        Err(_) => false,
    };
    progress.clear();
    is_whole && errors.as_slice() == want.as_bytes()
}

// Lengths and wrong CRCs, as in `ROWS`, and the status, the text of the line, and that of the place.
const LINES: [(usize, [bool; 2], u8, &str, &str); 8] = [
    (
        53,
        [false, false],
        0,
        "ok, 1 frame, 1 sample, no MD5 sum",
        "",
    ),
    (
        42,
        [false, false],
        1,
        "wrong, 0 frames, 0 samples, but the streaminfo says 1, 1 place",
        "byte 42, samples 0 to 1: 1 sample is missing",
    ),
    (
        64,
        [false, false],
        1,
        "wrong, 2 frames, 2 samples, but the streaminfo says 1, 1 place",
        "bytes 53 to 64, samples 1 to 1: frames after the streaminfo's last sample",
    ),
    (
        63,
        [false, false],
        1,
        "wrong, 1 frame, 1 sample, 1 place",
        "bytes 53 to 63, samples 1 to 1: 10 bytes after the last frame",
    ),
    (
        52,
        [false, false],
        1,
        "wrong, 0 frames, 0 samples, but the streaminfo says 1, 1 place",
        "bytes 42 to 52, samples 0 to 1: truncated: the file ends inside a frame",
    ),
    (
        64,
        [true, false],
        1,
        "wrong, 1 frame, 1 sample, 1 place",
        "bytes 42 to 53, samples 0 to 16: Ill-formed FLAC stream: frame CRC mismatch",
    ),
    (
        41,
        [false, false],
        1,
        "wrong, truncated: the file ends inside the metadata",
        "",
    ),
    (
        0,
        [false, false],
        1,
        "wrong, truncated: the file ends inside the metadata",
        "",
    ),
];

// What a command line comes to.
fn outcome_of(rt: &HostRuntime, words: &[&str], input: &[u8]) -> Result<Outcome, AllocError> {
    let words = owned(rt.alloc(), words)?;
    let (mut output, mut errors) = (Vec::new(rt.alloc()), Vec::new(rt.alloc()));
    let status = command(rt, &words, input, &mut output, false, &mut errors);
    Ok(Outcome {
        status,
        output,
        errors,
    })
}

// Whether it comes to that.
fn comes_to(
    rt: &HostRuntime,
    words: &[&str],
    input: &[u8],
    status: u8,
    output: &str,
    errors: &str,
) -> bool {
    match outcome_of(rt, words, input) {
        Ok(outcome) => is_outcome(&outcome, status, output.as_bytes(), errors.as_bytes()),
        Err(_) => false,
    }
}

// A line with this text, and one of a place, if that isn't empty.
fn lines_of(alloc: Global, text: &str, place: &str) -> Result<String, AllocError> {
    if place.is_empty() {
        return format!(in alloc; "standard input: {text}\n");
    }
    format!(in alloc; "standard input: {text}\nstandard input:   {place}\n")
}

// Whether standard input with these bytes has this status, and these lines.
fn has_lines(rt: &HostRuntime, bytes: &[u8], status: u8, text: &str, place: &str) -> bool {
    match lines_of(rt.alloc(), text, place) {
        Ok(lines) => comes_to(rt, &["-"], bytes, status, lines.as_str(), ""),
        Err(_) => false,
    }
}

#[test]
fn lines(rt: HostRuntime) {
    for (len, wrong, status, text, place) in &LINES {
        assert!(rt;
            has_lines(&rt, front(&damaged(*wrong), *len), *status, *text, *place),
            "{len}"
        );
    }
}

// Headers that are refused at their fourth byte because of a reserved code, after a frame.
const REFUSED: [[u8; 4]; 2] = [[0xff, 0xf8, 0x69, 0x06], [0xff, 0xf8, 0x69, 0xbe]];

#[test]
fn reserved_codes(rt: HostRuntime) -> Result<(), Fail> {
    for header in REFUSED {
        let mut head = head(0x80);
        head[25] = 3;
        let bytes = joined(rt.alloc(), &[&head, &FRAME, &SECOND, &header])?;
        assert!(rt;
            has_lines(
                &rt,
                bytes.as_slice(),
                1,
                "wrong, 2 frames, 2 samples, but the streaminfo says 3, 1 place",
                "bytes 64 to 68, samples 2 to 3: Ill-formed FLAC stream: invalid frame header, encountered reserved value",
            )
        );
    }
    Ok(())
}

// A streaminfo of 32 bits: a frame that leaves the bit depth to it, and the code.
#[test]
fn samples_of_32_bits(rt: HostRuntime) -> Result<(), Fail> {
    let (alloc, mut head) = (rt.alloc(), head_for(MONO_32_BITS));
    head[25] = 1;
    let right = joined(alloc, &[&head, &DEEP_FRAME])?;
    assert!(rt;
        has_lines(
            &rt,
            right.as_slice(),
            0,
            "ok, 1 frame, 1 sample, no MD5 sum",
            "",
        )
    );
    let wide = joined(alloc, &[&head, &[0xff, 0xf8, 0x69, 0x0e]])?;
    assert!(rt;
        has_lines(
            &rt,
            wide.as_slice(),
            3,
            "not supported, 32-bit samples",
            "",
        )
    );
    Ok(())
}

// The first bytes.
fn front(bytes: &[u8], len: usize) -> &[u8] {
    &bytes[..len.min(bytes.len())]
}

// Whether that is said of a right file, one that isn't there, an empty standard input, and the first once more.
fn shows_several(rt: &HostRuntime, right: &str, none: &str) -> Result<bool, AllocError> {
    let all = format!(in rt.alloc();
        "{right}: ok, 1 frame, 1 sample, no MD5 sum\nstandard input: wrong, truncated: the file ends inside the metadata\n{right}: ok, 1 frame, 1 sample, no MD5 sum\n"
    )?;
    let missing = format!(in rt.alloc(); "{none}: No such file or directory\n")?;
    let words = [right, none, "-", right];
    Ok(comes_to(rt, &words, b"", 1, all.as_str(), missing.as_str()))
}

// A right file, one that isn't there, and standard input with a wrong stream. Only the last writes fail.
#[test]
fn several_files(rt: HostRuntime) -> Result<(), Fail> {
    let (right, none) = (
        file_of(&rt, "verify_right", front(&damaged([false; 2]), 53))?,
        path_of(&rt, "verify_none")?,
    );
    let is_right = shows_several(&rt, right.as_str(), none.as_str())?;
    fs::remove_file(&rt, right.as_str())?;
    assert!(rt; is_right);
    Ok(())
}

// Whether a command line only says that the output failed.
fn is_lost(
    rt: &HostRuntime,
    words: &[&str],
    writes_left: u32,
    fails_at_flush: bool,
) -> Result<bool, AllocError> {
    let words = owned(rt.alloc(), words)?;
    let text = format!(in rt.alloc();
        "standard output: {}\n",
        io::Error::from(ErrorKind::StorageFull)
    )?;
    let bytes = damaged([false; 2]);
    let mut output = Sink::new(64, writes_left, fails_at_flush, ErrorKind::StorageFull);
    let mut errors: Vec<u8> = Vec::new(rt.alloc());
    let input = front(&bytes, 53);
    let status = command(rt, &words, input, &mut output, false, &mut errors);
    Ok(status == 1 && errors.as_slice() == text.as_bytes())
}

// A write fails, and the second file isn't read; or the flush.
#[test]
fn lost_output(rt: HostRuntime) -> Result<(), Fail> {
    let rows: [(&[&str], u32, bool); 3] = [
        (&["-", "-"], 0, false),
        (&["-", "-"], 9, true),
        (&["--version"], 9, true),
    ];
    for (words, writes_left, fails_at_flush) in &rows {
        assert!(rt;
            is_lost(&rt, *words, *writes_left, *fails_at_flush)?,
            "{words:?}"
        );
    }
    Ok(())
}

#[test]
fn command_lines(rt: HostRuntime) {
    let usage =
        "usage: claxon verify [--no-md5] [--brief] [--json] [-q] [-r] [--summary] [--places N] [--files0-from FILE] [--] FILE..\n";
    let other =
        "claxon verify: unknown option -t\nusage: claxon verify [--no-md5] [--brief] [--json] [-q] [-r] [--summary] [--places N] [--files0-from FILE] [--] FILE..\n";
    let rows: [(&[&str], &str); 7] = [
        (&[], usage),
        (&["-", "--places"], usage),
        (&["--places", "0", "-"], usage),
        (&["--places", "-1", "-"], usage),
        (&["--"], usage),
        (&["--files0-from", "-", "a.flac"], usage),
        (&["-t", "-"], other),
    ];
    for (words, text) in &rows {
        assert!(rt; comes_to(&rt, *words, b"", 2, "", *text), "{words:?}");
    }
}
