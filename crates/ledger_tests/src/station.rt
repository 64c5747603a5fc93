//! A station of two traders with a point each.
use ledger::{Ledger, Particulars, Point};
use scenario::new_ledger;
use std::test::Fail;

pub(crate) const FIRST_DAY: u32 = 3561;

pub(crate) const PLACES: usize = 3;

// What the first trader's point is admitted with.
pub(crate) const GIVEN: Particulars = Particulars {
    trader: 0,
    segment: 0,
    digits: 5,
    litres_per_unit: 1000,
    reading: 99_990,
    scale_factor: 1_000_000,
};

// The same particulars as a row.
pub(crate) const ROW: Point = Point {
    trader: 0,
    segment: 0,
    digits: 5,
    litres_per_unit: 1000,
    reading: 99_990,
    scale_factor: 1_000_000,
    open_sum: 0,
    period_sum: 0,
    slip: 0,
    kept_reading: 0,
};

// The second trader's point has half the scale factor.
pub(crate) const SECOND: Point = Point {
    trader: 1,
    scale_factor: 500_000,
    ..ROW
};

pub(crate) const SHEET: [Point; PLACES] = [ROW, SECOND, Point::UNUSED];

// A ledger of two traders.
pub(crate) fn two_traders() -> Result<Ledger, Fail> {
    Ok(new_ledger(FIRST_DAY, 2, &[], &mut [])?)
}

// A ledger of two traders, and their points in a sheet, of which the second is to have this row.
pub(crate) fn two_points(sheet: &mut [Point], second: Point) -> Result<Ledger, Fail> {
    Ok(new_ledger(FIRST_DAY, 2, &[GIVEN, second.into()], sheet)?)
}
