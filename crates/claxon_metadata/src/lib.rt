//! Metadata blocks, Vorbis comments and tags.
#![tactic(auto)]

pub mod metadata;
