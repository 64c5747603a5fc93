//! A date and its day number, each found from the other.
ghost use Rattle.std.specs.Prelude.{◌≡◌, ◌-◌, ◌≤◌, IsTrue, IfOk};
ghost use Rattle.calendar.specs.Days.{last_day, is_leap, year_index, month_index, is_day, days_before, day_number, IsDateOf, FindsDate};

use super::months::Month;
use super::years::{DayOfYear, days_before_year, is_leap};
use refusals::Refusal;

/// The first year that has day numbers.
pub const FIRST_YEAR: u16 = 2000;

/// The last year that has day numbers.
pub const LAST_YEAR: u16 = 2099;

/// The number of 31 December 2099.
pub const LAST_DAY: u32 = 36_524;

/// A date as it is written, with any three numbers in it: not each is a day of the years 2000 to
/// 2099 (docs/CALENDAR.md).
#[derive(Clone, Copy, PartialEq, Eq, Debug)]
pub struct Date {
    /// The year, 2000 to 2099 where the date is a day.
    pub year: u16,
    /// The month, 1 for January to 12 where the date is a day.
    pub month: u8,
    /// The day of the month, counted from 1.
    pub day: u8,
}

impl Date {
    /// The month that the date names, whether or not it has the date's day.
    pub(super) fn month_of_year(self) -> Month
        requires year { 2000 ≤ self.year }
        requires month { (1 ≤ self.month) × (self.month ≤ 12) }
        ensures leap { result.leap ≡ is_leap (year_index self) }
        ensures index { result.index ≡ month_index self }
    {
        Month {
            leap: is_leap(u32::from(self.year - FIRST_YEAR)),
            index: usize::from(self.month - 1),
        }
    }

    /// Whether the date is a day of the years 2000 to 2099.
    pub fn is_day(self) -> bool
        ensures { result ≡ is_day self }
    {
        (FIRST_YEAR..=LAST_YEAR).contains(&self.year)
            && (1..=12).contains(&self.month)
            && (1..=self.month_of_year().length()).contains(&self.day)
    }

    // The days from 1 January 2000 to this one.
    fn days_before(self) -> u32
        requires { IsTrue (is_day self) }
        ensures { result ≡ days_before self }
    {
        days_before_year(u32::from(self.year - FIRST_YEAR))
            + u32::from(self.month_of_year().days_before())
            + u32::from(self.day - 1)
    }

    /// The day number, 0 for 1 January 2000 to 36,524 (docs/CALENDAR.md). A date that is no day is
    /// refused by 9. [`Date::from_number`] leads back from the number to this date.
    pub fn number(self) -> Result<u32, Refusal>
        ensures value { result ≡ day_number self }
        ensures back { IfOk result (λ n. (n ≤ last_day) × IsDateOf self n) }
    {
        if !self.is_day() {
            return Err(Refusal::NoSuchDay);
        }
        Ok(self.days_before())
    }

    /// The date of a day number, which is 0 to 36,524 (docs/CALENDAR.md). A number above is refused
    /// by 9.
    pub fn from_number(number: u32) -> Result<Date, Refusal>
        ensures { FindsDate number result }
    {
        if number > LAST_DAY {
            return Err(Refusal::NoSuchDay);
        }
        let at = DayOfYear::from_number(number);
        let month = Month::of_day(is_leap(at.year), at.day);
        Ok(Date {
            year: at.year as u16 + FIRST_YEAR,
            month: month.index as u8 + 1,
            day: (at.day - month.days_before()) as u8 + 1,
        })
    }
}
