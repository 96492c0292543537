//! The maximum number of metadata blocks of a stream.
use claxon::{FlacReader, FlacReaderOptions};
use claxon_testing::answers::{Fault, fault_of, head, joined};
use std::alloc::Global;
use std::io::Cursor;
use std::test::Fail;

// The streaminfo and 65,535 blocks of padding, the last of which begins with the given byte.
fn many_blocks(alloc: Global, last: u8) -> Result<Vec<u8>, Fail> {
    let mut bytes = joined(alloc, &[&head(0x00)])?;
    for _ in 0..65534 {
        bytes.extend_from_slice(&[0x01, 0x00, 0x00, 0x00])?;
    }
    bytes.extend_from_slice(&[last, 0x00, 0x00, 0x00])?;
    Ok(bytes)
}

// The error of opening a stream with these options, if there is one. The stream has no tags and no vendor.
fn fault_of_opening(
    alloc: Global,
    bytes: &[u8],
    metadata_only: bool,
) -> Result<Option<Fault>, Fail> {
    let options = FlacReaderOptions {
        metadata_only,
        read_vorbis_comment: !metadata_only,
    };
    match FlacReader::new_ext(alloc, Cursor::new(bytes), options) {
        Ok(flac) if flac.tags().len() > 0 || flac.vendor().is_some() => Err(Fail::new("a comment")),
        Ok(_) => Ok(None),
        Err(error) => Ok(Some(fault_of(&error))),
    }
}

#[test]
fn the_most_blocks(rt: HostRuntime) -> Result<(), Fail> {
    let most = Fault::Unsupported("more than 65536 metadata blocks are not supported");
    let rows = [
        (0x01, false, Some(most)),
        (0x01, true, None),
        (0x81, false, None),
    ];
    for (last, metadata_only, want) in rows {
        let bytes = many_blocks(rt.alloc(), last)?;
        let fault = fault_of_opening(rt.alloc(), &bytes, metadata_only)?;
        assert!(rt; fault == want, "{last} {metadata_only}");
    }
    Ok(())
}
