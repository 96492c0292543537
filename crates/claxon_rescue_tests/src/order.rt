//! Frames that stand where others belong, of a stream of seven. They were made by the definitions of RFC 9639, section 9.
use crate::files::rescue;
use crate::rows::{Wanted, is_rescued, left_out, missing};
use claxon_rescue::LostRange;
use claxon_wav::Result;
use std::alloc::Global;
use std::io::Cursor;

// The head of a stream with blocks of 16 samples, 112 samples in all, and their MD5 sum.
const HEAD: [u8; 42] = [
    0x66, 0x4c, 0x61, 0x43, 0x80, 0x00, 0x00, 0x22, 0x00, 0x10, 0x00, 0x10, 0x00, 0x00, 0x00, 0x00,
    0x00, 0x00, 0x0a, 0xc4, 0x40, 0x70, 0x00, 0x00, 0x00, 0x70, 0x90, 0xb5, 0x53, 0x39, 0x7e, 0x0f,
    0x49, 0x7e, 0x62, 0x9d, 0xd6, 0xdf, 0x64, 0x5d, 0xde, 0x2d,
];

// Its frames, of one channel of 8 bits and 16 samples of one value, 1 to 7.
#[rattlefmt::skip]
const FRAMES: [[u8; 11]; 7] = [
    [0xff, 0xf8, 0x69, 0x02, 0x00, 0x0f, 0xb7, 0x00, 0x01, 0x7a, 0x27],
    [0xff, 0xf8, 0x69, 0x02, 0x01, 0x0f, 0xa2, 0x00, 0x02, 0x7b, 0x51],
    [0xff, 0xf8, 0x69, 0x02, 0x02, 0x0f, 0x9d, 0x00, 0x03, 0xf8, 0xd0],
    [0xff, 0xf8, 0x69, 0x02, 0x03, 0x0f, 0x88, 0x00, 0x04, 0x79, 0xbd],
    [0xff, 0xf8, 0x69, 0x02, 0x04, 0x0f, 0xe3, 0x00, 0x05, 0xff, 0xcc],
    [0xff, 0xf8, 0x69, 0x02, 0x05, 0x0f, 0xf6, 0x00, 0x06, 0xfe, 0xba],
    [0xff, 0xf8, 0x69, 0x02, 0x06, 0x0f, 0xc9, 0x00, 0x07, 0x7d, 0x3b],
];

// The head, and frames in this order.
fn stream_of(alloc: Global, order: &[u8]) -> Result<Vec<u8>> {
    let mut stream = Vec::from_slice(alloc, &HEAD)?;
    for frame in order {
        if let Some(bytes) = FRAMES.get(usize::from(*frame)) {
            stream.extend_from_slice(bytes)?;
        }
    }
    Ok(stream)
}

#[test]
fn frames_elsewhere(rt: HostRuntime) -> Result<()> {
    let alloc = rt.alloc();
    #[rattlefmt::skip]
    let rows: [(&[u8], [u8; 7], &[LostRange], u64); 7] = [
        // Later frames were copied to an earlier place, one and two.
        (&[0, 5, 1, 2, 3, 4, 5, 6], [129, 130, 131, 132, 133, 134, 135], &[left_out(80, 96, 53, 64)], 0),
        (&[0, 5, 6, 1, 2, 3, 4, 5, 6], [129, 130, 131, 132, 133, 134, 135],
            &[left_out(80, 96, 53, 64), left_out(96, 112, 64, 75)], 0),
        // Earlier frames were copied to a later place.
        (&[0, 1, 2, 0, 1, 3, 4, 5, 6], [129, 130, 131, 132, 133, 134, 135],
            &[left_out(0, 16, 75, 86), left_out(16, 32, 86, 97)], 0),
        // Two are swapped.
        (&[0, 1, 3, 2, 4, 5, 6], [129, 130, 128, 132, 133, 134, 135],
            &[missing(32, 48, 64, 64), left_out(32, 48, 75, 86)], 16),
        // A frame stands after three that it belongs before.
        (&[0, 3, 4, 5, 1, 6], [129, 128, 128, 132, 133, 134, 135],
            &[missing(16, 48, 53, 53), left_out(16, 32, 86, 97)], 32),
        // As many of the others belong before a frame as after it; or more.
        (&[0, 5, 1, 6], [129, 128, 128, 128, 128, 134, 135],
            &[missing(16, 80, 53, 53), left_out(16, 32, 64, 75)], 64),
        (&[0, 2, 1], [129, 130, 128, 128, 128, 128, 128],
            &[left_out(32, 48, 53, 64), missing(32, 112, 75, 75)], 80),
    ];
    for (order, values, lost, count) in &rows {
        let stream = stream_of(alloc, order)?;
        let missing = *count;
        let wanted = Wanted { lost, missing };
        for fills_gaps in [true, false] {
            assert!(rt; is_rescued(alloc, stream.as_slice(), fills_gaps, values, &wanted)?);
        }
    }
    Ok(())
}

// Frame 3 stands ahead of so many that are repeated, and then of 1 and 2. Of 32 frames that come next one decides.
#[test]
fn frames_that_decide(rt: HostRuntime) -> Result<()> {
    let alloc = rt.alloc();
    for (repeated, missing) in [(31, 64), (32, 80)] {
        let mut order = Vec::from_slice(alloc, &[0, 3])?;
        for _ in 0..repeated {
            order.extend_from_slice(&[0])?;
        }
        order.extend_from_slice(&[1, 2])?;
        let stream = stream_of(alloc, order.as_slice())?;
        let mut file = Vec::new(alloc);
        let rescued = rescue(alloc, Cursor::new(stream.as_slice()), true, &mut file)?;
        assert!(rt; rescued.losses.missing == missing, "{repeated}");
    }
    Ok(())
}
