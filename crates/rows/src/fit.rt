//! A row that was tested and lies within its ranges, and what a booking makes of it.
ghost use Rattle.std.specs.Prelude.{◌≡◌, ◌^◌, ◌<◌, ◌≤◌, true};
ghost use Rattle.rows.specs.Bookings.{dial_advance, scale_factor_after, kept_consumption, kept_correction, booked_row};
ghost use Rattle.rows.specs.Rows.{row_fits};

use crate::limits::MAX_SCALE_FACTOR;
use crate::point::{Point, dial_end};
use profiles::WHOLE;

/// A row within its ranges, so that all that a booking works out of it fits its type.
#[derive(Clone, Copy)]
pub struct FitRow {
    /// The row that was tested.
    pub row: Point,
    ghost in_range: { row_fits row ≡ true },
}

impl FitRow {
    /// The litres consumed since the last booking, by the reading that the row keeps.
    pub fn kept_consumption(&self) -> u64
        ensures value { result ≡ kept_consumption self.now.row }
        ensures bound { result ≤ 200_000_000_000 }
    {
        let row = self.row;
        u64::from(dial_advance(row.digits, row.reading, row.kept_reading))
            * u64::from(row.litres_per_unit)
    }

    /// What booking the row moves, in litres: its consumption less its open sum.
    pub fn correction(&self) -> i64
        ensures { result ≡ kept_correction self.now.row }
    {
        self.kept_consumption() as i64 - self.row.open_sum as i64
    }

    /// The row after its kept reading was booked, and the trader who has it then.
    pub fn booked(&self, trader: u32) -> Point
        ensures { result ≡ booked_row self.now.row trader }
    {
        let row = self.row;
        Point {
            trader,
            reading: row.kept_reading,
            scale_factor: scale_factor_after(
                row.scale_factor,
                self.kept_consumption(),
                row.period_sum,
            ),
            open_sum: 0,
            period_sum: 0,
            slip: 0,
            kept_reading: 0,
            ..row
        }
    }
}

// How far a dial went between two readings. The two cases are the trade's rule.
fn dial_advance(digits: u32, old: u32, new: u32) -> u32
    requires few { 4 ≤ digits }
    requires most { digits ≤ 8 }
    requires old { old < 10 ^ digits }
    requires new { new < 10 ^ digits }
    ensures { result ≡ dial_advance digits old new }
{
    let end = dial_end(digits);
    if new < old {
        new + end - old
    } else {
        new - old
    }
}

// The scale factor after a booking.
fn scale_factor_after(scale_factor: u32, consumption: u64, period_sum: u64) -> u32
    requires { consumption ≤ 200_000_000_000 }
    ensures { result ≡ scale_factor_after scale_factor consumption period_sum }
{
    match (consumption * u64::from(WHOLE)).checked_div(period_sum) {
        Some(scale) => scale.min(u64::from(MAX_SCALE_FACTOR)) as u32,
        None => scale_factor,
    }
}
