//! Frames of a damaged stream, and the damage between them.
//!
//! `Parts` gives the parts of a stream one after another, so that the bytes of all parts, joined, are the stream (`IsPart` in
//! `specs/Parts.antt`). A frame is one of `FrameWithHeader`, as a caller of `read_next_with_info_or_eof` gets it, with the
//! streaminfo's number of channels and bit depth. Order, numbers and sample rate are the caller's business. Damage has the
//! decoder's error for its first byte, or another cause, and ends where the next frame begins. So what is found of a stream,
//! part by part, is a fold over these answers: a frame counts its samples, and damage is one fault.
//!
//! The next bytes of the source are kept in memory: up to 512 KiB, or as many as a verbatim frame of the streaminfo's largest
//! block may have. A frame that is longer, as encoders make none, is told as damage (`Cause::TooLong`). Bytes are decoded from
//! there, so after a fault the search begins at the fault's second byte, and nothing is read twice from the source.
#![tactic(auto)]

mod at_start;
mod budget;
pub mod laws;
mod next_frame;
mod part;
mod parts;
mod passed;
mod search;
mod stream;
mod window;

pub use next_frame::info_of_frame;
pub use part::{Cause, Damage, FrameThere, Part};
pub use parts::Parts;
