//! FLAC for C. `c/claxon.h` declares these calls, and `c/README.md` says how to use them.
//!
//! No call keeps anything: the caller holds the bytes, and the position in them.
#![tactic(auto)]

mod clock;
mod contents;
mod convert;
mod crc;
mod frame;
mod frames;
mod head;
mod heads;
mod held;
mod interleave;
mod md5;
mod metadata;
mod next_block;
mod planar;
mod search;
mod seek;
mod seeker;
mod status;
mod tags;
mod version;

pub use claxon_md5::Md5;
pub use claxon_stream_seek::KeptClock;
pub use frame::ClaxonFrame;
pub use frames::ClaxonFrames;
pub use head::ClaxonHead;
pub use heads::ClaxonInfo;
pub use metadata::ClaxonMetadata;
pub use next_block::ClaxonBlock;
pub use search::ClaxonSearch;
pub use seeker::ClaxonSeeker;
pub use tags::ClaxonTag;
