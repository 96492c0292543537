use crate::reports::{report_by_parts, report_of};
use crate::streams::{FIXED, OTHER_RATE, frame, in_order};
use claxon::running::Running;
use claxon_blocks::frames::FirstBytes;
use claxon_report::{Report, Trailing};
use claxon_verify::trailing::BytesAfter;
use std::alloc::{AllocError, Global};
use std::io::Cursor;

// Bytes, in two parts, their number in all, and what they are.
const ROWS: [(&[u8], &[u8], u64, Trailing); 13] = [
    (b"TA", b"G", 128, Trailing::Id3v1),
    (b"TAG", b"Title", 127, Trailing::Other),
    (b"TAg", b"", 128, Trailing::Other),
    (b"APETAGEX", b"\xd0\x07", 64, Trailing::Ape),
    (b"APET", b"AGEX", 128, Trailing::Ape),
    (b"APETAGE", b"x", 64, Trailing::Other),
    (b"fL", b"aC\0\0\0\x22", 9000, Trailing::SecondStream),
    (b"fLaC\x80\0", b"\0\x22", 42, Trailing::SecondStream),
    (b"fLaC\x04\0", b"\0\x22", 42, Trailing::Other),
    (b"fLaC\0\0", b"\0\x21", 42, Trailing::Other),
    (b"\0\0", b"\0\0", 4, Trailing::Zeros),
    (b"\0\0\0\0\0\0\0\0", b"\0\x01", 10, Trailing::Other),
    (b"\x01\0", b"\0\0", 4, Trailing::Other),
];

#[test]
fn kinds(rt: HostRuntime) {
    for (front, back, count, want) in &ROWS {
        let front = FirstBytes::zero().after(*front);
        let back = FirstBytes::zero().after(*back);
        let got = BytesAfter::new()
            .with_bytes(front, front.are_zeros())
            .with_bytes(back, back.are_zeros())
            .kind(*count);
        assert!(rt; is_same(got, *want));
    }
}

// Bytes after the last sample, whether a frame of another sample rate stands between them, and what they are with it.
const ENDS: [(&[u8], bool, &[u8], Trailing); 9] = [
    (b"APET", false, b"AGEX", Trailing::Ape),
    (b"APET", true, b"AGEX", Trailing::Other),
    (b"APETAGEX", true, b"", Trailing::Ape),
    (b"fLaC", true, b"\0\0\0\x22", Trailing::Other),
    (b"TAG\0", true, &[1; 113], Trailing::Id3v1),
    (b"TA", true, &[b'G'; 115], Trailing::Other),
    (b"\0\0", false, b"\0", Trailing::Zeros),
    (b"\0\0", false, b"\x01", Trailing::Other),
    (b"\0\0", true, b"\0\0", Trailing::Other),
];

fn ended(alloc: Global, front: &[u8], has_frame: bool, back: &[u8]) -> Result<Vec<u8>, AllocError> {
    let mut bytes = in_order(alloc, FIXED, &[16, 16])?;
    // The streaminfo says 32 samples.
    if let Some(samples) = bytes.as_mut_slice().get_mut(25) {
        *samples = 32;
    }
    bytes.extend_from_slice(front)?;
    if has_frame {
        bytes.extend_from_slice(&frame(FIXED, OTHER_RATE, 2, 16))?;
    }
    bytes.extend_from_slice(back)?;
    Ok(bytes)
}

fn says(report: claxon::Result<Report>, want: Trailing) -> bool {
    match report {
        Ok(report) => report.trailing.is_some_and(|got| is_same(got, want)),
        Err(_) => false,
    }
}

// Whether that is said of a stream, also by its parts.
fn is_said(alloc: Global, front: &[u8], has_frame: bool, back: &[u8], want: Trailing) -> bool {
    match ended(alloc, front, has_frame, back) {
        Ok(bytes) => {
            let bytes = bytes.as_slice();
            says(report_of(alloc, &mut Cursor::new(bytes), false), want)
                && says(report_by_parts(alloc, &mut Cursor::new(bytes), false), want)
        }
        Err(_) => false,
    }
}

#[test]
fn after_the_last_sample(rt: HostRuntime) {
    for (row, (front, has_frame, back, want)) in ENDS.iter().enumerate() {
        assert!(rt;
            is_said(rt.alloc(), *front, *has_frame, *back, *want),
            "{row}"
        );
    }
}

fn is_same(a: Trailing, b: Trailing) -> bool {
    matches!(
        (a, b),
        (Trailing::Id3v1, Trailing::Id3v1)
            | (Trailing::Ape, Trailing::Ape)
            | (Trailing::Zeros, Trailing::Zeros)
            | (Trailing::SecondStream, Trailing::SecondStream)
            | (Trailing::Other, Trailing::Other)
    )
}
