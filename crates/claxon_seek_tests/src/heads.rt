//! A head in memory, made by the definitions of RFC 9639, section 8.
use claxon::Error;
use claxon::metadata::{StreamInfo, VorbisComment};
use claxon_seek::head_at_start;
use std::alloc::Global;

// The streaminfo, a Vorbis comment, and two bytes more.
#[rattlefmt::skip]
const BYTES: [u8; 72] = [
    0x66, 0x4c, 0x61, 0x43, 0x00, 0x00, 0x00, 0x22, 0x00, 0x10, 0x00, 0x10, 0x00, 0x00, 0x00, 0x00, 0x00, 0x00,
    0x0a, 0xc4, 0x40, 0x70, 0x00, 0x00, 0x00, 0x80, 0x00, 0x00, 0x00, 0x00, 0x00, 0x00, 0x00, 0x00, 0x00, 0x00,
    0x00, 0x00, 0x00, 0x00, 0x00, 0x00, 0x84, 0x00, 0x00, 0x18, 0x03, 0x00, 0x00, 0x00, 0x61, 0x62, 0x63, 0x01,
    0x00, 0x00, 0x00, 0x09, 0x00, 0x00, 0x00, 0x54, 0x49, 0x54, 0x4c, 0x45, 0x3d, 0x6f, 0x6e, 0x65, 0xff, 0xf8,
];

// Whether these are the head, and the number of its bytes.
fn is_head(alloc: Global) -> bool {
    let mut taken = 0;
    match head_at_start(alloc, &BYTES, &mut taken) {
        Ok((info, Some(comment))) => taken == 70 && is_info(&info) && is_comment(&comment),
        _ => false,
    }
}

fn is_info(info: &StreamInfo) -> bool {
    info.sample_rate == 44_100
        && info.channels == 1
        && info.bits_per_sample == 8
        && info.samples == Some(128)
}

fn is_comment(comment: &VorbisComment) -> bool {
    comment.vendor.as_str() == "abc" && comment.comments.len() == 1
}

// Whether one byte less is an error.
fn is_cut(alloc: Global) -> bool {
    let mut taken = 0;
    matches!(
        head_at_start(alloc, &BYTES[..69], &mut taken),
        Err(Error::IoError(_))
    )
}

#[test]
fn head_in_memory(rt: HostRuntime) {
    assert!(rt; is_head(rt.alloc()));
    assert!(rt; is_cut(rt.alloc()));
}
