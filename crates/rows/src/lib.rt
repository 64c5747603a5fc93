//! The rows of a point sheet: their ranges, and what a share and a booking make of one.
#![tactic(auto)]

mod fit;
mod limits;
mod point;

pub use fit::FitRow;
pub use limits::{MAX_POINTS, MAX_SCALE_FACTOR, MAX_TRADERS};
pub use point::{Particulars, Point, dial_end};
