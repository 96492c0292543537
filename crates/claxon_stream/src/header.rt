//! The frame header that bytes begin with, if it is one of the stream.
ghost use Rattle.std.specs.Prelude.{◌↔◌, IfSome, IsTrue};
ghost use Rattle.claxon.specs.ShownHead.{HasBitDepth};
ghost use Rattle.claxon_seek.specs.Find.{HasFormat};
ghost use Rattle.claxon_stream.specs.HeaderThere.{HeaderIsThere};

use claxon::Error;
use claxon::frame::BlockInfo;
use claxon::metadata::StreamInfo;
use claxon_seek::{header_at_start, shows_no_header};

/// What is known of the header that bytes begin with.
#[derive(Clone, Copy)]
pub enum HeaderThere {
    /// It has the stream's number of channels and bit depth, where these are known, and says this of its block.
    Wanted(BlockInfo),
    /// There is none of the stream, whatever follows.
    NotWanted,
    /// The bytes end within it.
    CutHeader,
}

/// The header that the bytes begin with. The streaminfo is lent, as it is asked for at each position.
#[inline(always)]
pub fn header_there(bytes: &[u8], known: &Option<StreamInfo>) -> HeaderThere
    requires { IfSome known.now (λ info. HasBitDepth info) }
    ensures is_there { HeaderIsThere known.now bytes.now result }
{
    if shows_no_header(bytes) {
        return HeaderThere::NotWanted;
    }
    read_header(bytes, known)
}

#[inline(never)]
fn read_header(bytes: &[u8], known: &Option<StreamInfo>) -> HeaderThere
    requires { IfSome known.now (λ info. HasBitDepth info) }
    ensures is_there { HeaderIsThere known.now bytes.now result }
{
    match header_at_start(bytes, *known) {
        Ok(Some(header)) => {
            let info = header.info();
            if has_format(&info, *known) {
                HeaderThere::Wanted(info)
            } else {
                HeaderThere::NotWanted
            }
        }
        Ok(None) => HeaderThere::CutHeader,
        Err(Error::IoError(_)) => HeaderThere::CutHeader,
        Err(Error::FormatError(_)) => HeaderThere::NotWanted,
        Err(Error::Unsupported(_)) => HeaderThere::NotWanted,
        Err(Error::OutOfMemory) => HeaderThere::NotWanted,
    }
}

fn has_format(block: &BlockInfo, known: Option<StreamInfo>) -> bool
    ensures { IsTrue result ↔ HasFormat known block.now }
{
    match known {
        Some(info) => { block.channels == info.channels && block.bit_depth == info.bits_per_sample }
        None => true,
    }
}
