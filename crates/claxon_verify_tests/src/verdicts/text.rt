//! The lines about files.
use super::reports::{Stream, fault, place, report};
use claxon::Error;
use claxon::fault_texts::FRAME_CRC_MISMATCH;
use claxon_report::{Damage, Gap, Place, Trailing};
use claxon_verdict::text::{
    SaidBy, head_text, left_out_line, place_line, place_text, verdict_text, wrong_head_text,
};
use claxon_verdict::verdict::{Verdict, WrongHead};
use std::alloc::{AllocError, Global};
use std::test::Fail;

// Whether this is said of a stream.
fn is_said(alloc: Global, stream: Stream, is_brief: bool, want: &str) -> Result<bool, AllocError> {
    let report = report(alloc, stream)?;
    let verdict = Verdict::of_report(&report);
    Ok(verdict_text(alloc, &report, verdict, is_brief)?.as_str() == want)
}

#[rattlefmt::skip]
const RIGHT: [(Stream, &str); 2] = [
    (Stream::Right, "ok, 300 frames, 1228800 samples"),
    (Stream::Unusual, "ok, 300 frames, 1228800 samples, no MD5 sum, unknown length, a block size is out of the streaminfo's bounds, a frame size is out of the streaminfo's bounds, 1 byte after the last frame, the fixed block size changes from 4096 to 1024"),
];

#[test]
fn right_files(rt: HostRuntime) -> Result<(), Fail> {
    for (stream, want) in &RIGHT {
        assert!(rt; is_said(rt.alloc(), *stream, false, *want)?, "{want}");
    }
    Ok(())
}

// A stream, whether its line is brief, and the line.
#[rattlefmt::skip]
const WRONG: [(Stream, bool, &str); 9] = [
    (Stream::OtherSum, false, "wrong, 300 frames, 1228800 samples, but their MD5 sum isn't that of the streaminfo"),
    (Stream::Short, true, "wrong, 299 frames, 1224704 samples, but the streaminfo says 1228800"),
    (Stream::OnePlace, false, "wrong, 299 frames, 1224704 samples, but the streaminfo says 1228800, 1 place"),
    (Stream::OnePlace, true, "wrong, 299 frames, 1224704 samples, but the streaminfo says 1228800, 1 place at byte 53 after 4096 samples: Ill-formed FLAC stream: frame CRC mismatch"),
    (Stream::MorePlaces(None, 5), false, "wrong, 299 frames, 1224704 samples, but the streaminfo says 1228800, 8 places"),
    (Stream::MorePlaces(None, 5), true, "wrong, 299 frames, 1224704 samples, but the streaminfo says 1228800, 8 places, the first at byte 53 after 4096 samples: Ill-formed FLAC stream: frame CRC mismatch"),
    (Stream::Wide, false, "not supported, 32-bit samples"),
    (Stream::WithoutSeparator, false, "not supported, a tag without '='"),
    (Stream::DamagedWithoutSeparator, true, "wrong, 299 frames, 1224704 samples, but the streaminfo says 1228800, not supported: a tag without '=', 1 place at byte 53 after 4096 samples: Ill-formed FLAC stream: frame CRC mismatch"),
];

#[test]
fn wrong_files(rt: HostRuntime) -> Result<(), Fail> {
    for (stream, is_brief, want) in &WRONG {
        assert!(rt; is_said(rt.alloc(), *stream, *is_brief, *want)?, "{want}");
    }
    Ok(())
}

// How many places are left out, and the lines of the second place and the third: of the last one it is a tag, unless there are
// places after it.
#[rattlefmt::skip]
const PLACES: [(u64, [&str; 2]); 2] = [
    (0, [
        "  byte 5678, samples 40960 to 53248: 3 frames are missing",
        "  bytes 9000 to 9128, samples 1224704 to 1224704: 128 bytes after the last frame: an ID3v1 tag",
    ]),
    (1, [
        "  byte 5678, samples 40960 to 53248: 3 frames are missing",
        "  bytes 9000 to 9128, samples 1224704 to 1224704: the blocking strategy differs from the first frame's",
    ]),
];

fn is_place_line(alloc: Global, left_out: u64, i: usize, want: &str) -> Result<bool, AllocError> {
    let stream = Stream::MorePlaces(Some(Trailing::Id3v1), left_out);
    let report = report(alloc, stream)?;
    match report.found.places.more.get(i) {
        Some(place) => {
            let by = SaidBy::Streaminfo;
            let line = place_line(alloc, &report, by, i.saturating_add(1), place)?;
            Ok(line.as_str() == want)
        }
        None => Ok(false),
    }
}

#[test]
fn places(rt: HostRuntime) -> Result<(), Fail> {
    for (left_out, wants) in &PLACES {
        for (i, want) in wants.iter().enumerate() {
            assert!(rt; is_place_line(rt.alloc(), *left_out, i, *want)?, "{want}");
        }
    }
    Ok(())
}

// What is said of a place, if nothing is before it.
fn is_damage(
    alloc: Global,
    stream: Stream,
    by: SaidBy,
    place: &Place,
    want: &str,
) -> Result<bool, AllocError> {
    let report = report(alloc, stream)?;
    Ok(place_text(alloc, &report, by, 0, place)?.as_str() == want)
}

#[rattlefmt::skip]
const DAMAGES: [(Damage, &str); 10] = [
    (Damage::Channels(2), "2 channels, but the streaminfo says 1"),
    (Damage::BitDepth(24), "24 bits per sample, but the streaminfo says 16"),
    (Damage::SampleRate(44100), "44100 Hz, but the streaminfo says 48000"),
    (Damage::Missing(Gap { count: 1, is_variable: false }), "1 frame is missing"),
    (Damage::Missing(Gap { count: 4096, is_variable: true }), "4096 samples are missing"),
    (Damage::Repeated, "frames are repeated"),
    (Damage::OutOfOrder, "frames are out of order"),
    (Damage::BlockingStrategy, "the blocking strategy differs from the first frame's"),
    (Damage::Beyond, "frames after the streaminfo's last sample"),
    (Damage::WideSample, "a sample has more bits than the streaminfo says"),
];

#[test]
fn damages(rt: HostRuntime) -> Result<(), Fail> {
    for (damage, want) in DAMAGES {
        let place = place((0, 0), (0, 0), damage);
        assert!(rt;
            is_damage(rt.alloc(), Stream::Right, SaidBy::Streaminfo, &place, want)?,
            "{want}"
        );
    }
    Ok(())
}

// The first byte of a place, what is wrong there, and what is said of it where the head is wrong.
#[rattlefmt::skip]
const WITHOUT_HEAD: [(u64, Damage, &str); 6] = [
    (0, Damage::Channels(2), "2 channels, but the first frame has 1"),
    (0, Damage::BitDepth(1), "1 bit per sample, but the first frame has 16"),
    (42, Damage::SampleRate(44100), "44100 Hz, but the first frame has 48000"),
    (42, Damage::WideSample, "a sample has more bits than those of the first frame"),
    (0, Damage::Missing(Gap { count: 3, is_variable: false }), "3 frames are missing"),
    (0, Damage::Repeated, "frames are repeated"),
];

// A place at this byte, where a frame has another CRC, in a stream with other bytes after it.
fn is_fault(
    alloc: Global,
    by: SaidBy,
    start: u64,
    stream: Stream,
    want: &str,
) -> Result<bool, AllocError> {
    let place = place((start, 53), (0, 0), fault(FRAME_CRC_MISMATCH, false));
    is_damage(alloc, stream, by, &place, want)
}

#[test]
fn damages_without_head(rt: HostRuntime) -> Result<(), Fail> {
    let (alloc, by) = (rt.alloc(), SaidBy::FirstFrame);
    for (start, damage, want) in WITHOUT_HEAD {
        let place = place((start, 53), (0, 0), damage);
        assert!(rt;
            is_damage(alloc, Stream::Right, by, &place, want)?,
            "{want}"
        );
    }
    let other = Stream::Followed(Trailing::Other);
    let crc = "Ill-formed FLAC stream: frame CRC mismatch";
    assert!(rt; is_fault(alloc, by, 0, Stream::Right, "the head")?);
    assert!(rt; is_fault(alloc, by, 0, other, "the head")?);
    assert!(rt; is_fault(alloc, by, 1, Stream::Right, crc)?);
    assert!(rt; is_fault(alloc, by, 1, other, "52 bytes after the last frame")?);
    assert!(rt; is_fault(alloc, SaidBy::Streaminfo, 0, Stream::Right, crc)?);
    Ok(())
}

// How many bytes are after the last frame, what they are, and what is said of them.
#[rattlefmt::skip]
const ENDS: [(u64, Trailing, &str); 5] = [
    (128, Trailing::Id3v1, "128 bytes after the last frame: an ID3v1 tag"),
    (40, Trailing::Ape, "40 bytes after the last frame: an APE tag"),
    (2, Trailing::Zeros, "2 bytes after the last frame: zeros"),
    (9000, Trailing::SecondStream, "9000 bytes after the last frame: a second stream begins"),
    (64, Trailing::Other, "64 bytes after the last frame"),
];

fn is_left_out(alloc: Global, count: u64, want: &str) -> Result<bool, AllocError> {
    Ok(left_out_line(alloc, count)?.as_str() == want)
}

#[test]
fn ends(rt: HostRuntime) -> Result<(), Fail> {
    for (bytes, trailing, want) in &ENDS {
        let place = place((0, *bytes), (0, 0), Damage::WideSample);
        let stream = Stream::Followed(*trailing);
        assert!(rt;
            is_damage(rt.alloc(), stream, SaidBy::Streaminfo, &place, *want)?,
            "{want}"
        );
    }
    for (count, want) in [(1, "  and 1 more place"), (5, "  and 5 more places")] {
        assert!(rt; is_left_out(rt.alloc(), count, want)?, "{want}");
    }
    Ok(())
}

// Errors of heads, and what is said of them; None where the file can't be read.
#[rattlefmt::skip]
const HEADS: [(Error, Option<&str>); 6] = [
    (
        Error::FormatError("stream starts with ID3 header rather than FLAC header"),
        Some("not supported, an ID3v2 tag in front of the stream"),
    ),
    (Error::FormatError("invalid sample rate"), Some("not supported, a sample rate of 0 or above 655350 Hz")),
    (
        Error::Unsupported("more than 65536 metadata blocks are not supported"),
        Some("not supported, more than 65536 metadata blocks"),
    ),
    (Error::FormatError("invalid stream header"), Some("wrong, not a FLAC file")),
    (
        Error::FormatError("invalid streaminfo metadata block length"),
        Some("wrong, Ill-formed FLAC stream: invalid streaminfo metadata block length"),
    ),
    (Error::OutOfMemory, None),
];

fn is_head(alloc: Global, error: &Error, want: Option<&str>) -> Result<bool, AllocError> {
    let verdict = Verdict::of_error(error);
    let got = head_text(alloc, error, verdict)?;
    Ok(match want {
        Some(want) => !matches!(verdict, Verdict::NotRead) && got.as_str() == want,
        None => matches!(verdict, Verdict::NotRead),
    })
}

#[test]
fn heads(rt: HostRuntime) -> Result<(), Fail> {
    for (row, (error, want)) in HEADS.iter().enumerate() {
        assert!(rt; is_head(rt.alloc(), error, *want)?, "{row}");
    }
    Ok(())
}

// The frames of a stream whose head is wrong, whether the line is brief, and the line.
#[rattlefmt::skip]
const WITHOUT_HEADS: [(Stream, bool, &str); 4] = [
    (Stream::Short, true, "wrong, not a FLAC file, 299 frames, 1224704 samples"),
    (Stream::OnePlace, false, "wrong, not a FLAC file, 299 frames, 1224704 samples, 1 place"),
    (Stream::MorePlaces(None, 5), true, "wrong, not a FLAC file, 299 frames, 1224704 samples, 8 places, the first at byte 53 after 4096 samples: Ill-formed FLAC stream: frame CRC mismatch"),
    (Stream::Unsearched, true, "wrong, not a FLAC file, 300 frames, 1228800 samples, some bytes weren't searched for frames"),
];

fn is_without_head(
    alloc: Global,
    stream: Stream,
    is_brief: bool,
    want: &str,
) -> Result<bool, AllocError> {
    let head = WrongHead {
        error: Error::FormatError("invalid stream header"),
        frames: report(alloc, stream)?,
    };
    Ok(wrong_head_text(alloc, &head, is_brief)?.as_str() == want)
}

#[test]
fn wrong_heads(rt: HostRuntime) -> Result<(), Fail> {
    for (stream, is_brief, want) in &WITHOUT_HEADS {
        assert!(rt;
            is_without_head(rt.alloc(), *stream, *is_brief, *want)?,
            "{want}"
        );
    }
    Ok(())
}
