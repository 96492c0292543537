//! A decoder of heads as a plain struct, as C keeps it.
ghost use Rattle.std.specs.Prelude.{◌≡◌};
ghost use Rattle.claxon_stream.specs.KeptHead.{kept_decoder, kept_part};

use super::HeadDecoder;
use super::part::{BlockHeader, NextPart};
use super::rules::Rules;
use claxon::FlacReaderOptions;

// The numbers of what comes next. Any other says that the head is whole.
const MARKER: u32 = 0;

const HEADER: u32 = 1;

const CONTENT: u32 = 2;

const END: u32 = 3;

/// A `HeadDecoder` as C keeps it. In memory it is laid out as the same struct in C.
#[repr(C)]
#[derive(Clone, Copy, Debug)]
pub struct KeptHead {
    position: u64,
    begin: u64,
    // What comes next, and the header of the block whose content that is.
    next: u32,
    header: BlockHeader,
    // What the metadata blocks so far allow.
    metadata_only: bool,
    read_vorbis_comment: bool,
    has_info: bool,
    has_comment: bool,
    most: u32,
}

impl KeptHead {
    /// The decoder as it is kept.
    pub fn new(decoder: HeadDecoder) -> KeptHead
        ensures { kept_decoder result ≡ decoder }
    {
        let (next, header) = numbered(decoder.next);
        let rules = decoder.rules;
        KeptHead {
            position: decoder.position,
            begin: decoder.begin,
            next,
            header,
            metadata_only: rules.options.metadata_only,
            read_vorbis_comment: rules.options.read_vorbis_comment,
            has_info: rules.has_info,
            has_comment: rules.has_comment,
            most: rules.most,
        }
    }

    /// The decoder that is kept.
    pub fn decoder(&self) -> HeadDecoder
        ensures { result ≡ kept_decoder self.now }
    {
        HeadDecoder {
            position: self.position,
            begin: self.begin,
            next: self.part(),
            rules: Rules {
                options: FlacReaderOptions {
                    metadata_only: self.metadata_only,
                    read_vorbis_comment: self.read_vorbis_comment,
                },
                has_info: self.has_info,
                has_comment: self.has_comment,
                most: self.most,
            },
        }
    }

    // What comes next.
    fn part(&self) -> NextPart
        ensures { result ≡ kept_part self.now.next self.now.header }
    {
        match self.next {
            MARKER => NextPart::Marker,
            HEADER => NextPart::Header,
            CONTENT => NextPart::Content(self.header),
            _ => NextPart::End,
        }
    }
}

// Its number, and the header of the block whose content it is.
fn numbered(next: NextPart) -> (u32, BlockHeader)
    ensures { kept_part result.0 result.1 ≡ next }
{
    let none = BlockHeader {
        is_last: false,
        block_type: 0,
        length: 0,
    };
    match next {
        NextPart::Marker => (MARKER, none),
        NextPart::Header => (HEADER, none),
        NextPart::Content(header) => (CONTENT, header),
        NextPart::End => (END, none),
    }
}
