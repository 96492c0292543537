//! Frames of streams whose heads can't be read.
use crate::places::are;
use crate::streams::{FIXED, RATE, frame};
use crate::verify::{CRC, Found, Wrong, found_of};
use claxon::input::{BufferedReader, ReadBytes};
use claxon::metadata::StreamInfo;
use claxon_blocks::md5_verdict::Md5Verdict;
use claxon_command_line::progress::Progress;
use claxon_report::{Report, Trailing};
use claxon_testing::answers::{Fault, fault_of, head};
use claxon_testing::doubles::readers::FailsOnce;
use claxon_testing::doubles::sinks::Sink;
use claxon_verify::verify_frames;
use std::alloc::{AllocError, Global};
use std::io::{Cursor, ErrorKind};
use std::test::Fail;

// What frames of 16 samples say. The MD5 sum is of no samples that they have.
const INFO: StreamInfo = StreamInfo {
    min_block_size: 16,
    max_block_size: 16,
    min_frame_size: None,
    max_frame_size: None,
    sample_rate: 44_100,
    channels: 1,
    bits_per_sample: 8,
    samples: None,
    md5sum: [1; 16],
};

// Bytes before a frame, its number, and whether a bit of it is flipped.
type Part = (&'static [u8], u8, bool);

// Which byte of a head is changed, if there is one, and what stands after it.
fn bytes_of(alloc: Global, changed: Option<usize>, parts: &[Part]) -> Result<Vec<u8>, AllocError> {
    let mut bytes = Vec::new(alloc);
    if let Some(at) = changed {
        bytes.extend_from_slice(&head(0x80))?;
        if let Some(byte) = bytes.as_mut_slice().get_mut(at) {
            *byte ^= 1;
        }
    }
    for (before, number, is_flipped) in parts {
        bytes.extend_from_slice(*before)?;
        let mut one = frame(FIXED, RATE, *number, 16);
        one[10] ^= u8::from(*is_flipped);
        bytes.extend_from_slice(&one)?;
    }
    Ok(bytes)
}

// The report of these frames, where the streaminfo says so many samples.
fn report_of<R: ReadBytes>(
    alloc: Global,
    input: &mut R,
    samples: Option<u64>,
) -> claxon::Result<Report> {
    let info = StreamInfo { samples, ..INFO };
    let mut errors = Sink::new(0, 0, false, ErrorKind::Other);
    let mut progress = Progress::new(&mut errors, None);
    let report = verify_frames(alloc, input, info, 999, &mut progress);
    progress.clear();
    report
}

const NO_SYNC: Wrong = Wrong::Fault(Fault::Format("frame sync code missing"));

const RIGHT_0: Part = (&[], 0, false);

const RIGHT_1: Part = (&[], 1, false);

const RIGHT_2: Part = (&[], 2, false);

const FLIPPED_0: Part = (&[], 0, true);

const FLIPPED_1: Part = (&[], 1, true);

const AFTER_ZEROS_1: Part = (&[0; 5], 1, false);

// Which byte of the head is changed, if there is one; what stands after it; how many frames and samples there are; and the
// places. The head has 42 bytes, and each frame 11.
#[rattlefmt::skip]
const ROWS: [(Option<usize>, &[Part], (u64, u64), &[Found]); 14] = [
    // The marker, the length of the streaminfo, and no head.
    (Some(0), &[RIGHT_0, RIGHT_1, RIGHT_2], (3, 48), &[(0, 42, 0, 0, NO_SYNC)]),
    (Some(7), &[RIGHT_0, RIGHT_1], (2, 32), &[(0, 42, 0, 0, NO_SYNC)]),
    (None, &[RIGHT_0, RIGHT_1, RIGHT_2], (3, 48), &[]),
    // The first frame is missing, too.
    (Some(0), &[RIGHT_1, RIGHT_2], (2, 32), &[(0, 42, 0, 16, NO_SYNC)]),
    (None, &[RIGHT_1, RIGHT_2], (2, 32), &[(0, 0, 0, 16, Wrong::Missing(1, false))]),
    (None, &[FLIPPED_0, RIGHT_1], (1, 16), &[(0, 11, 0, 16, CRC)]),
    (Some(0), &[FLIPPED_0, RIGHT_1], (1, 16), &[(0, 53, 0, 16, NO_SYNC)]),
    // Damage between frames, and in other places.
    (None, &[RIGHT_0, FLIPPED_1, RIGHT_2], (2, 32), &[(11, 22, 16, 32, CRC)]),
    (Some(0), &[RIGHT_0, FLIPPED_1, RIGHT_2], (2, 32), &[(0, 42, 0, 0, NO_SYNC), (53, 64, 16, 32, CRC)]),
    (None, &[RIGHT_0, AFTER_ZEROS_1], (2, 32), &[(11, 16, 16, 16, NO_SYNC)]),
    (None, &[RIGHT_0, RIGHT_0, RIGHT_1], (3, 48), &[(11, 22, 16, 16, Wrong::Repeated)]),
    // No frame.
    (Some(0), &[], (0, 0), &[(0, 42, 0, 0, NO_SYNC)]),
    (None, &[FLIPPED_0], (0, 0), &[(0, 11, 0, 0, CRC)]),
    (None, &[], (0, 0), &[]),
];

// Whether a report has so many frames and samples, and these places, and says that the stream isn't right, by no number of
// samples and no MD5 sum.
fn says(report: &Report, count: (u64, u64), wants: &[Found]) -> bool {
    let (found, md5) = (&report.found, report.md5);
    (found.frames, found.samples) == count
        && are(&found.places, wants)
        && !report.is_right
        && report.unsupported.is_none()
        && report.info.samples.is_none()
        && report.computed_md5.is_none()
        && matches!(md5, Md5Verdict::NotComputed)
}

// Whether that is said of a row, also where the streaminfo says fewer samples, or more.
fn is_row(
    alloc: Global,
    changed: Option<usize>,
    parts: &[Part],
    count: (u64, u64),
    wants: &[Found],
) -> bool {
    let Ok(bytes) = bytes_of(alloc, changed, parts) else {
        return false;
    };
    let mut all = true;
    for samples in [None, Some(8), Some(80)] {
        all = all
            && match report_of(alloc, &mut Cursor::new(bytes.as_slice()), samples) {
                Ok(report) => says(&report, count, wants),
                Err(_) => false,
            };
    }
    all
}

#[test]
fn rows(rt: HostRuntime) {
    for (row, (changed, parts, count, wants)) in ROWS.iter().enumerate() {
        assert!(rt;
            is_row(rt.alloc(), *changed, *parts, *count, *wants),
            "{row}"
        );
    }
}

// What is said of bytes after two frames: where the place ends that begins with them, if one does, and whether they are a tag.
fn after_frames(alloc: Global, more: &[u8]) -> Result<(Option<Found>, bool, bool), Fail> {
    let mut bytes = bytes_of(alloc, None, &[RIGHT_0, RIGHT_1])?;
    bytes.extend_from_slice(more)?;
    let report = report_of(alloc, &mut Cursor::new(bytes.as_slice()), None)?;
    let first = match &report.found.places.first {
        Some(first) => Some(found_of(first)),
        None => None,
    };
    let is_tag = matches!(report.trailing, Some(Trailing::Ape));
    Ok((first, is_tag, report.found.notes.has_byte_left))
}

#[test]
fn bytes_after_the_last_frame(rt: HostRuntime) -> Result<(), Fail> {
    let tag = b"APETAGEX\xd0\x07";
    let place = (22, 32, 32, 32, NO_SYNC);
    assert!(rt; after_frames(rt.alloc(), tag)? == (Some(place), true, false));
    assert!(rt; after_frames(rt.alloc(), &[0])? == (None, false, true));
    assert!(rt; after_frames(rt.alloc(), &[])? == (None, false, false));
    Ok(())
}

// The number of frames, if a read after so many fails; each gives one byte.
fn frames_after(alloc: Global, bytes: &[u8], reads: u32) -> claxon::Result<u64> {
    let source = FailsOnce::new(bytes, 1, reads, ErrorKind::Other);
    let mut input = BufferedReader::new(alloc, source)?;
    let report = report_of(alloc, &mut input, None)?;
    Ok(report.found.frames)
}

fn is_failure(answer: claxon::Result<u64>) -> bool {
    match answer {
        Ok(_) => false,
        Err(error) => fault_of(&error) == Fault::Io,
    }
}

// A head of which the marker is damaged, and two frames have 64 bytes. The last read is that of the end.
#[test]
fn each_failed_read(rt: HostRuntime) -> Result<(), Fail> {
    let bytes = bytes_of(rt.alloc(), Some(0), &[RIGHT_0, RIGHT_1])?;
    for reads in 0..65 {
        let answer = frames_after(rt.alloc(), bytes.as_slice(), reads);
        assert!(rt; is_failure(answer), "{reads}");
    }
    Ok(())
}
