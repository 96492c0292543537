//! Reports, of which something is said.
use claxon::Error;
use claxon::fault_texts::{FRAME_CRC_MISMATCH, RESERVED_HEADER_VALUE};
use claxon::metadata::StreamInfo;
use claxon::running::Running;
use claxon_blocks::frames::{FirstBytes, FrameError};
use claxon_blocks::md5_verdict::Md5Verdict;
use claxon_heads::UnsupportedBlock;
use claxon_report::{BlockSizes, Damage, Found, Gap, Notes, Place, Places, Report, Trailing};
use std::alloc::{AllocError, Global};

/// What a report is about.
#[derive(Clone, Copy)]
pub enum Stream {
    /// A right stream of 300 frames of 4096 samples.
    Right,
    /// The same, with all that is unusual.
    Unusual,
    /// The same, with all that is unusual, and bytes that weren't searched.
    Unsearched,
    /// The same frames, with another MD5 sum.
    OtherSum,
    /// A stream with one frame fewer.
    Short,
    /// The same stream, with a place.
    OnePlace,
    /// The same, with two places more, of which the last may be after the last frame, and as many places that are left out.
    MorePlaces(Option<Trailing>, u64),
    /// The right stream, with a tag that has no `=`.
    WithoutSeparator,
    /// The same of the stream with a place.
    DamagedWithoutSeparator,
    /// A stream of frames with 32 bits a sample.
    Wide,
    /// The right stream, with bytes after it.
    Followed(Trailing),
}

const INFO: StreamInfo = StreamInfo {
    min_block_size: 4096,
    max_block_size: 4096,
    min_frame_size: None,
    max_frame_size: None,
    sample_rate: 48000,
    channels: 1,
    bits_per_sample: 16,
    samples: Some(1_228_800),
    md5sum: [1; 16],
};

const NO_NOTES: Notes = Notes {
    has_other_block_size: false,
    has_other_frame_size: false,
    has_byte_left: false,
    has_failed_read: false,
    has_unsearched: false,
    changed_block_size: None,
};

const ALL_NOTES: Notes = Notes {
    has_other_block_size: true,
    has_other_frame_size: true,
    has_byte_left: true,
    has_failed_read: false,
    has_unsearched: false,
    changed_block_size: Some(BlockSizes {
        first: 4096,
        other: 1024,
    }),
};

// The sum of its samples.
const SUM: [u8; 16] = [1, 2, 3, 4, 5, 6, 7, 8, 9, 10, 11, 12, 13, 14, 15, 0xf0];

/// The report of a stream.
pub fn report(alloc: Global, stream: Stream) -> Result<Report, AllocError> {
    let places = Places {
        first: first_place(stream),
        more: places_after(alloc, stream)?,
        left_out: left_out(stream),
    };
    let (frames, samples) = counts(stream);
    let (md5, is_right) = outcome(stream);
    Ok(Report {
        info: info(stream),
        unsupported: unsupported(stream),
        found: Found {
            frames,
            samples,
            places,
            notes: notes(stream),
        },
        md5,
        computed_md5: Some(SUM),
        trailing: trailing(stream),
        is_right,
    })
}

fn info(stream: Stream) -> StreamInfo {
    let mut info = INFO;
    match stream {
        Stream::Unusual | Stream::Unsearched => info.samples = None,
        Stream::Wide => info.bits_per_sample = 32,
        _ => {}
    }
    info
}

fn unsupported(stream: Stream) -> Option<UnsupportedBlock> {
    match stream {
        Stream::WithoutSeparator | Stream::DamagedWithoutSeparator => {
            Some(UnsupportedBlock::NoSeparator)
        }
        _ => None,
    }
}

// The numbers of frames and of samples.
fn counts(stream: Stream) -> (u64, u64) {
    match stream {
        Stream::Wide => (0, 0),
        Stream::Short
        | Stream::OnePlace
        | Stream::MorePlaces(..)
        | Stream::DamagedWithoutSeparator => (299, 1_224_704),
        _ => (300, 1_228_800),
    }
}

fn notes(stream: Stream) -> Notes {
    match stream {
        Stream::Unusual => ALL_NOTES,
        Stream::Unsearched => Notes {
            has_unsearched: true,
            ..ALL_NOTES
        },
        _ => NO_NOTES,
    }
}

// What became of the MD5 sum, and whether the stream is right.
fn outcome(stream: Stream) -> (Md5Verdict, bool) {
    match stream {
        Stream::Right | Stream::Followed(_) => (Md5Verdict::Right, true),
        Stream::Unusual => (Md5Verdict::Missing, true),
        Stream::WithoutSeparator => (Md5Verdict::Right, false),
        _ => (Md5Verdict::Wrong, false),
    }
}

fn trailing(stream: Stream) -> Option<Trailing> {
    match stream {
        Stream::MorePlaces(trailing, _) => trailing,
        Stream::Followed(trailing) => Some(trailing),
        _ => None,
    }
}

// A frame whose CRC is wrong, or whose samples have 32 bits.
fn first_place(stream: Stream) -> Option<Place> {
    match stream {
        Stream::OnePlace | Stream::MorePlaces(..) | Stream::DamagedWithoutSeparator => {
            let damage = fault(FRAME_CRC_MISMATCH, false);
            Some(place((53, 1234), (4096, 8192), damage))
        }
        Stream::Wide => {
            let damage = fault(RESERVED_HEADER_VALUE, true);
            Some(place((42, 9000), (0, 0), damage))
        }
        _ => None,
    }
}

/// That a frame isn't decoded, for this reason.
pub fn fault(text: &'static str, is_32_bit: bool) -> Damage {
    Damage::Fault(FrameError {
        error: Error::FormatError(text),
        is_32_bit,
        first: FirstBytes::zero(),
    })
}

/// A place by its first byte and the one after it, its first sample and the one after it, and what is wrong.
pub fn place(bytes: (u64, u64), samples: (u64, u64), damage: Damage) -> Place {
    Place {
        start_byte: bytes.0,
        end_byte: bytes.1,
        start_sample: samples.0,
        end_sample: samples.1,
        damage,
    }
}

fn places_after(alloc: Global, stream: Stream) -> Result<Vec<Place>, AllocError> {
    let mut more = Vec::new(alloc);
    if let Stream::MorePlaces(..) = stream {
        let gap = Gap {
            count: 3,
            is_variable: false,
        };
        more.push(place((5678, 5678), (40960, 53248), Damage::Missing(gap)))?;
        let samples = (1_224_704, 1_224_704);
        more.push(place((9000, 9128), samples, Damage::BlockingStrategy))?;
    }
    Ok(more)
}

fn left_out(stream: Stream) -> u64 {
    match stream {
        Stream::MorePlaces(_, left_out) => left_out,
        _ => 0,
    }
}
