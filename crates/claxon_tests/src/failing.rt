//! Frames over readers that fail once.
use claxon::Error;
use claxon::frame::FrameReader;
use claxon::input::{BufferedReader, ReadBytes};
use claxon_testing::answers::{Fault, Step, answers_each};
use claxon_testing::doubles::readers::FailsOnce;
use std::alloc::Global;
use std::io::ErrorKind;
use std::test::Fail;

const FAILURES: [ErrorKind; 3] = [
    ErrorKind::Other,
    ErrorKind::Interrupted,
    ErrorKind::WouldBlock,
];

const NO_SYNC: Step = Err(Fault::Format("frame sync code missing"));

// The frame of one sample, 5, twice.
const TWICE: [u8; 22] = [
    0xff, 0xf8, 0x69, 0x02, 0x00, 0x00, 0x9a, 0x00, 0x05, 0x34, 0x58, 0xff, 0xf8, 0x69, 0x02, 0x00,
    0x00, 0x9a, 0x00, 0x05, 0x34, 0x58,
];

// A reader of these frames, by so many bytes per read, of which one fails like this after some.
fn frames_of(
    alloc: Global,
    piece: usize,
    reads: u32,
    kind: ErrorKind,
) -> claxon::Result<FrameReader<BufferedReader<FailsOnce<'static>>>> {
    let source = FailsOnce::new(&TWICE, piece, reads, kind);
    Ok(FrameReader::new(BufferedReader::new(alloc, source)?))
}

// Five bytes, a failure, and the rest of two frames: the first frame is lost, and its remaining bytes are no frame.
#[test]
fn frames_after_a_failure(rt: HostRuntime) -> Result<(), Fail> {
    let wants = [
        Err(Fault::Io),
        NO_SYNC,
        NO_SYNC,
        NO_SYNC,
        Ok(Some(5)),
        Ok(None),
    ];
    for kind in FAILURES {
        let mut reader = frames_of(rt.alloc(), 5, 1, kind)?;
        assert!(rt; answers_each(rt.alloc(), &mut reader, &wants));
    }
    Ok(())
}

// Two frames of eleven bytes, one byte per read, of which the first seven are the header of the first frame. For each number of
// reads before one that fails in the rest of it: the calls after it that find no sync code, and the result of the next one.
const RESTS: [(u32, u32, Step); 4] = [
    (7, 2, Ok(Some(5))),
    (8, 7, Ok(None)),
    (9, 1, Ok(Some(5))),
    (10, 6, Ok(None)),
];

// Whether the rest of the first frame fails like that, and calls then have these results.
fn fails_in_the_rest<R: ReadBytes>(
    alloc: Global,
    reader: &mut FrameReader<R>,
    lost: u32,
    last: Step,
    kind: ErrorKind,
) -> bool {
    let Ok(Some(started)) = reader.read_start_or_eof() else {
        return false;
    };
    let mut all = match reader.read_rest(started, Vec::new(alloc)) {
        Err(Error::IoError(cause)) => cause.kind() == kind,
        _ => false,
    };
    for _ in 0..lost {
        all = all && answers_each(alloc, reader, &[NO_SYNC]);
    }
    all && answers_each(alloc, reader, &[last])
}

#[test]
fn rests_with_a_failed_read(rt: HostRuntime) -> Result<(), Fail> {
    for (reads, lost, last) in &RESTS {
        for kind in FAILURES {
            let mut reader = frames_of(rt.alloc(), 1, *reads, kind)?;
            assert!(rt;
                fails_in_the_rest(rt.alloc(), &mut reader, *lost, *last, kind),
                "{reads}"
            );
        }
    }
    Ok(())
}
