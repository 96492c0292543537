//! Damaged streams as WAV files: what is whole, and silence for what is lost.
#![tactic(auto)]

mod due;
mod losses;
mod parts;
mod rescue;
mod waiting;

pub use losses::{LossKind, Losses, LostRange};
pub use rescue::{RescueOptions, Rescued, rescue_file};
