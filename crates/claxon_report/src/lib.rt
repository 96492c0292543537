//! What is found in a stream: which frame is due, the places that may go on, those that are kept, and the report.
#![tactic(auto)]

mod due;
mod place;
mod places;
mod report;
mod scan;

pub use due::{Due, FoundFrame};
pub use place::{Damage, Gap, Place, Places};
pub use places::KeptPlaces;
pub use report::{BlockSizes, Found, Notes, Report, Trailing, has_nothing_wrong};
pub use scan::{Begun, Ended, Numbers, Scan, Scanned};
