//! Blocks of a stream: read, with errors that tell of samples of 32 bits, compared with a bit depth, and hashed for its MD5 sum.
#![tactic(auto)]

pub mod fit;
pub mod frames;
pub mod hashing;
pub mod md5_verdict;
