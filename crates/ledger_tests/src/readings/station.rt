//! Stations of points that are alike.
use crate::station::{FIRST_DAY, GIVEN, ROW, two_points};
use ledger::{Ledger, Point};
use scenario::new_ledger;
use std::test::Fail;

// The second trader's point, like the first's.
pub(crate) const TWIN: Point = Point { trader: 1, ..ROW };

// A ledger of two traders, each with such a point. Each test writes the sheet itself.
pub(crate) fn twins() -> Result<Ledger, Fail> {
    two_points(&mut [Point::UNUSED; 2], TWIN)
}

// A ledger of one point more.
pub(crate) fn three_points() -> Result<Ledger, Fail> {
    let points = [GIVEN, TWIN.into(), GIVEN];
    Ok(new_ledger(FIRST_DAY, 2, &points, &mut [Point::UNUSED; 3])?)
}
