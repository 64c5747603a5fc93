//! A meter point as a plain row of the caller's sheet, and the particulars of its admission.
ghost use Rattle.std.specs.Prelude.{◌≡◌, ◌^◌, ◌<◌, ◌≤◌};
ghost use Rattle.rows.specs.Bookings.{row_with_slip, is_slip_of, may_book};
ghost use Rattle.rows.specs.Rows.{particulars_fit, particulars_of, admitted_row, row_fits, is_free, is_served, may_share};
ghost use Rattle.rows.specs.Rows.{is_summable, open_sum_of, profile_consumption, shared_row};

use crate::limits::{
    FULL_OPEN_SUM, FULL_PERIOD_SUM, MAX_OPEN_SUM, MAX_PERIOD_SUM, MAX_SCALE_FACTOR, MAX_TRADERS,
};
use profiles::{Factors, WHOLE};

/// A row of a point sheet. The sheet is the caller's, so a row may hold anything: each call that
/// reads one tests it first. The ranges stand in docs/RULES.md.
#[derive(Clone, Copy, PartialEq, Debug)]
pub struct Point {
    /// The trader whose the point is, 0 to 63.
    pub trader: u32,
    /// The segment of customers, 0 to 7.
    pub segment: u32,
    /// The digits of the dial, 4 to 8: after 10 to the power of digits it starts again at zero.
    pub digits: u32,
    /// Litres per dial unit, 1 to 2,000.
    pub litres_per_unit: u32,
    /// The dial reading booked last, at first the admitted one.
    pub reading: u32,
    /// Litres a day at a day factor of one, 0 to 2,000,000.
    pub scale_factor: u32,
    /// The shares since the last booking, in litres.
    pub open_sum: u64,
    /// The multipliers since the last booking, in ten-millionths.
    pub period_sum: u64,
    /// The number of the open slip, 0 where there is none.
    pub slip: u32,
    /// The reading kept for the open slip, 0 where there is none.
    pub kept_reading: u32,
}

/// What is given when a point is admitted; the ranges are those of [`Point`]'s fields.
#[derive(Clone, Copy)]
pub struct Particulars {
    /// The trader whose the point is.
    pub trader: u32,
    /// The segment of customers.
    pub segment: u32,
    /// The digits of the dial.
    pub digits: u32,
    /// Litres per dial unit.
    pub litres_per_unit: u32,
    /// The dial reading.
    pub reading: u32,
    /// Litres a day at a day factor of one.
    pub scale_factor: u32,
}

// Where a dial starts again at zero, by its digits; a dial has 4 to 8. A look-up is faster than the
// multiplications of a power, and each test of a row needs it twice.
const DIAL_ENDS: [u32; 9] = [
    0,
    0,
    0,
    0,
    10_000,
    100_000,
    1_000_000,
    10_000_000,
    100_000_000,
];

/// Ten to the power of digits: where a dial starts again at zero.
pub fn dial_end(digits: u32) -> u32
    requires { (4 ≤ digits) × (digits ≤ 8) }
    ensures { result ≡ 10 ^ digits }
{
    DIAL_ENDS[digits as usize]
}

/// The row of a point just admitted: no shares, no slip.
impl From<Particulars> for Point {
    ghost from_gives = { λ given row. row ≡ admitted_row given };

    fn from(given: Particulars) -> Point {
        Point {
            trader: given.trader,
            segment: given.segment,
            digits: given.digits,
            litres_per_unit: given.litres_per_unit,
            reading: given.reading,
            scale_factor: given.scale_factor,
            open_sum: 0,
            period_sum: 0,
            slip: 0,
            kept_reading: 0,
        }
    }
}

/// What a row has of its point's particulars, as they stand.
impl From<Point> for Particulars {
    ghost from_gives = { λ row given. given ≡ particulars_of row };

    fn from(row: Point) -> Particulars {
        Particulars {
            trader: row.trader,
            segment: row.segment,
            digits: row.digits,
            litres_per_unit: row.litres_per_unit,
            reading: row.reading,
            scale_factor: row.scale_factor,
        }
    }
}

impl Particulars {
    /// Whether they lie in their ranges, but for the trader.
    pub fn fit(&self) -> bool
        ensures { result ≡ particulars_fit self.now }
    {
        self.segment < 8
            && (4..=8).contains(&self.digits)
            && (1..=2000).contains(&self.litres_per_unit)
            && self.reading < dial_end(self.digits)
            && self.scale_factor <= MAX_SCALE_FACTOR
    }
}

impl Point {
    /// A place not yet used.
    pub const UNUSED: Point = Point {
        trader: 0,
        segment: 0,
        digits: 4,
        litres_per_unit: 1,
        reading: 0,
        scale_factor: 0,
        open_sum: 0,
        period_sum: 0,
        slip: 0,
        kept_reading: 0,
    };

    /// Whether the row lies within its ranges.
    pub fn fits(&self) -> bool
        ensures { result ≡ row_fits self.now }
    {
        self.trader < MAX_TRADERS
            && Particulars::from(*self).fit()
            && self.kept_reading < dial_end(self.digits)
            && self.open_sum <= MAX_OPEN_SUM
            && self.period_sum <= MAX_PERIOD_SUM
    }

    /// Whether one more day can be shared out to the row, with so many traders admitted.
    pub fn may_share(&self, traders: u32) -> bool
        ensures { result ≡ may_share traders self.now }
    {
        self.fits()
            && self.trader < traders
            && self.open_sum <= FULL_OPEN_SUM
            && self.period_sum <= FULL_PERIOD_SUM
    }

    /// Whether the row can be booked, with so many traders admitted.
    pub fn may_book(&self, traders: u32) -> bool
        ensures { result ≡ may_book traders self.now }
    {
        self.fits() && self.trader < traders
    }

    /// Whether no slip of the point is open.
    pub fn is_free(&self) -> bool
        ensures { result ≡ is_free self.now }
    {
        self.slip == 0
    }

    /// Whether a profile of so many segments serves the row's.
    pub fn is_served(&self, segments: u32) -> bool
        ensures { result ≡ is_served segments self.now }
    {
        self.segment < segments
    }

    /// Whether this number is the row's open slip.
    pub fn is_slip(&self, number: u32) -> bool
        ensures { result ≡ is_slip_of self.now number }
    {
        self.slip != 0 && self.slip == number
    }

    /// Whether the row can be summed for the trader: it is another's, or within its ranges.
    pub fn is_summable(&self, trader: u32) -> bool
        ensures { result ≡ is_summable trader self.now }
    {
        self.trader != trader || self.fits()
    }

    /// The row's open sum in litres where it is the trader's, and else 0.
    pub fn open_sum_of(&self, trader: u32) -> u64
        ensures { result ≡ open_sum_of trader self.now }
    {
        if self.trader == trader {
            self.open_sum
        } else {
            0
        }
    }

    /// The point's profile consumption in litres, at a day factor.
    pub fn profile_consumption(&self, day_factor: u32) -> u64
        ensures value { result ≡ profile_consumption self.now.scale_factor day_factor }
        ensures bound { result < 2 ^ 41 }
    {
        u64::from(self.scale_factor) * u64::from(day_factor) / u64::from(WHOLE)
    }

    /// The row with this slip and kept reading.
    pub fn with_slip(self, slip: u32, kept_reading: u32) -> Point
        ensures { result ≡ row_with_slip self slip kept_reading }
    {
        Point {
            slip,
            kept_reading,
            ..self
        }
    }

    /// The row after a day: its share joins the open sum, the multiplier the period sum.
    pub fn shared(self, share: u64, factors: Factors) -> Point
        requires open_sum { self.open_sum ≤ 5_000_000_000_000 }
        requires period_sum { self.period_sum ≤ 40_000_000_000 }
        requires share { share ≤ 1_000_000_000 }
        ensures { result ≡ shared_row self share factors.multiplier }
    {
        Point {
            open_sum: self.open_sum + share,
            period_sum: self.period_sum + u64::from(factors.multiplier),
            ..self
        }
    }
}
