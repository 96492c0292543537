//! The objects of files, as RFC 8259 has them.
use super::reports::{Stream, report};
use claxon::Error;
use claxon_report::Trailing;
use claxon_verdict::json_report::{error_object, object, report_object, wrong_head_object};
use claxon_verdict::verdict::{Verdict, WrongHead};
use std::alloc::{AllocError, Global};
use std::test::Fail;

// Whether this is said of a stream.
fn is_said(alloc: Global, stream: Stream, want: &str) -> Result<bool, AllocError> {
    let report = report(alloc, stream)?;
    let verdict = Verdict::of_report(&report);
    Ok(report_object(alloc, "a\"b.flac", &report, verdict)?.as_str() == want)
}

#[rattlefmt::skip]
const REPORTS: [(Stream, &str); 6] = [
    (Stream::Unusual, "{\"name\":\"a\\\"b.flac\",\"verdict\":\"ok\",\"frames\":300,\"samples\":1228800,\"sample_rate\":48000,\"channels\":1,\"bits_per_sample\":16,\"md5\":\"none\",\"computed_md5\":\"0102030405060708090a0b0c0d0e0ff0\",\"places\":[],\"notes\":[\"no MD5 sum\",\"unknown length\",\"a block size is out of the streaminfo's bounds\",\"a frame size is out of the streaminfo's bounds\",\"1 byte after the last frame\",\"the fixed block size changes from 4096 to 1024\"]}\n"),
    (Stream::OtherSum, "{\"name\":\"a\\\"b.flac\",\"verdict\":\"wrong\",\"frames\":300,\"samples\":1228800,\"sample_rate\":48000,\"channels\":1,\"bits_per_sample\":16,\"streaminfo_samples\":1228800,\"md5\":\"wrong\",\"computed_md5\":\"0102030405060708090a0b0c0d0e0ff0\",\"places\":[],\"notes\":[]}\n"),
    (Stream::MorePlaces(Some(Trailing::Ape), 0), "{\"name\":\"a\\\"b.flac\",\"verdict\":\"wrong\",\"frames\":299,\"samples\":1224704,\"sample_rate\":48000,\"channels\":1,\"bits_per_sample\":16,\"streaminfo_samples\":1228800,\"md5\":\"wrong\",\"computed_md5\":\"0102030405060708090a0b0c0d0e0ff0\",\"places\":[{\"start_byte\":53,\"end_byte\":1234,\"start_sample\":4096,\"end_sample\":8192,\"what\":\"Ill-formed FLAC stream: frame CRC mismatch\"},{\"start_byte\":5678,\"end_byte\":5678,\"start_sample\":40960,\"end_sample\":53248,\"what\":\"3 frames are missing\"},{\"start_byte\":9000,\"end_byte\":9128,\"start_sample\":1224704,\"end_sample\":1224704,\"what\":\"128 bytes after the last frame: an APE tag\"}],\"notes\":[]}\n"),
    (Stream::Wide, "{\"name\":\"a\\\"b.flac\",\"verdict\":\"not supported\",\"frames\":0,\"samples\":0,\"sample_rate\":48000,\"channels\":1,\"bits_per_sample\":32,\"streaminfo_samples\":1228800,\"md5\":\"not computed\",\"places\":[{\"start_byte\":42,\"end_byte\":9000,\"start_sample\":0,\"end_sample\":0,\"what\":\"32-bit samples are not supported\"}],\"notes\":[],\"reason\":\"32-bit samples\"}\n"),
    (Stream::WithoutSeparator, "{\"name\":\"a\\\"b.flac\",\"verdict\":\"not supported\",\"frames\":300,\"samples\":1228800,\"sample_rate\":48000,\"channels\":1,\"bits_per_sample\":16,\"streaminfo_samples\":1228800,\"md5\":\"ok\",\"computed_md5\":\"0102030405060708090a0b0c0d0e0ff0\",\"places\":[],\"notes\":[],\"reason\":\"a tag without '='\"}\n"),
    (Stream::DamagedWithoutSeparator, "{\"name\":\"a\\\"b.flac\",\"verdict\":\"wrong\",\"frames\":299,\"samples\":1224704,\"sample_rate\":48000,\"channels\":1,\"bits_per_sample\":16,\"streaminfo_samples\":1228800,\"md5\":\"wrong\",\"computed_md5\":\"0102030405060708090a0b0c0d0e0ff0\",\"places\":[{\"start_byte\":53,\"end_byte\":1234,\"start_sample\":4096,\"end_sample\":8192,\"what\":\"Ill-formed FLAC stream: frame CRC mismatch\"}],\"notes\":[\"not supported: a tag without '='\"]}\n"),
];

#[test]
fn reports(rt: HostRuntime) -> Result<(), Fail> {
    for (stream, want) in &REPORTS {
        assert!(rt; is_said(rt.alloc(), *stream, *want)?, "{want}");
    }
    Ok(())
}

// Whether the object of a stream ends like this.
fn has_end(alloc: Global, stream: Stream, want: &str) -> Result<bool, AllocError> {
    let report = report(alloc, stream)?;
    let text = report_object(alloc, "a", &report, Verdict::Wrong)?;
    Ok(text.as_str().ends_with(want))
}

#[rattlefmt::skip]
const ERRORS: [(Error, &str); 3] = [
    (Error::FormatError("invalid sample rate"), "{\"name\":\"a\",\"verdict\":\"not supported\",\"reason\":\"a sample rate of 0 or above 655350 Hz\"}\n"),
    (Error::FormatError("invalid stream header"), "{\"name\":\"a\",\"verdict\":\"wrong\",\"reason\":\"not a FLAC file\"}\n"),
    (Error::OutOfMemory, "{\"name\":\"a\",\"verdict\":\"not read\",\"reason\":\"out of memory\"}\n"),
];

fn is_error(alloc: Global, error: &Error, want: &str) -> Result<bool, AllocError> {
    let got = error_object(alloc, "a", error, Verdict::of_error(error))?;
    Ok(got.as_str() == want)
}

fn is_unread(alloc: Global, want: &str) -> Result<bool, AllocError> {
    let got = object(alloc, "a\\xff", Verdict::NotRead, "the name isn't UTF-8")?;
    Ok(got.as_str() == want)
}

#[test]
fn others(rt: HostRuntime) -> Result<(), Fail> {
    let alloc = rt.alloc();
    let end = "}],\"left_out\":7,\"notes\":[]}\n";
    assert!(rt; has_end(alloc, Stream::MorePlaces(None, 7), end)?);
    for (error, want) in &ERRORS {
        assert!(rt; is_error(alloc, error, *want)?, "{want}");
    }
    let want =
        "{\"name\":\"a\\\\xff\",\"verdict\":\"not read\",\"reason\":\"the name isn't UTF-8\"}\n";
    assert!(rt; is_unread(alloc, want)?);
    Ok(())
}

// The frames of a stream whose head is wrong, and its object.
#[rattlefmt::skip]
const WITHOUT_HEADS: [(Stream, &str); 2] = [
    (Stream::MorePlaces(Some(Trailing::Ape), 7), "{\"name\":\"a\\\"b.flac\",\"verdict\":\"wrong\",\"reason\":\"not a FLAC file\",\"frames\":299,\"samples\":1224704,\"sample_rate\":48000,\"channels\":1,\"bits_per_sample\":16,\"md5\":\"not computed\",\"places\":[{\"start_byte\":53,\"end_byte\":1234,\"start_sample\":4096,\"end_sample\":8192,\"what\":\"Ill-formed FLAC stream: frame CRC mismatch\"},{\"start_byte\":5678,\"end_byte\":5678,\"start_sample\":40960,\"end_sample\":53248,\"what\":\"3 frames are missing\"},{\"start_byte\":9000,\"end_byte\":9128,\"start_sample\":1224704,\"end_sample\":1224704,\"what\":\"the blocking strategy differs from the first frame's\"}],\"left_out\":7,\"notes\":[]}\n"),
    (Stream::Unsearched, "{\"name\":\"a\\\"b.flac\",\"verdict\":\"wrong\",\"reason\":\"not a FLAC file\",\"frames\":300,\"samples\":1228800,\"sample_rate\":48000,\"channels\":1,\"bits_per_sample\":16,\"md5\":\"not computed\",\"places\":[],\"notes\":[\"1 byte after the last frame\",\"some bytes weren't searched for frames\"]}\n"),
];

fn is_without_head(alloc: Global, stream: Stream, want: &str) -> Result<bool, AllocError> {
    let head = WrongHead {
        error: Error::FormatError("invalid stream header"),
        frames: report(alloc, stream)?,
    };
    Ok(wrong_head_object(alloc, "a\"b.flac", &head)?.as_str() == want)
}

#[test]
fn wrong_heads(rt: HostRuntime) -> Result<(), Fail> {
    for (stream, want) in &WITHOUT_HEADS {
        assert!(rt; is_without_head(rt.alloc(), *stream, *want)?, "{want}");
    }
    Ok(())
}
