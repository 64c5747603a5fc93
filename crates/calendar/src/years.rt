//! The years 2000 to 2099, counted from 0 for 2000, and the days of each.
ghost use Rattle.std.specs.Prelude.{◌≡◌, ◌+◌, ◌<◌, ◌≤◌};
ghost use Rattle.calendar.specs.Days.{last_day, is_leap, year_length, days_before_year};

// Every fourth year is a leap year, 2000 first, and so four years have 1,461 days.
const DAYS_OF_FOUR_YEARS: u32 = 1461;

/// Whether a year is a leap year.
pub(super) fn is_leap(year: u32) -> bool
    ensures { result ≡ is_leap year }
{
    year % 4 == 0
}

/// The days of the years before a year.
pub(super) fn days_before_year(year: u32) -> u32
    requires { year < 100 }
    ensures value { result ≡ days_before_year year }
    ensures bound { result ≤ 36160 }
{
    365 * year + (year + 3) / 4
}

/// A day of a year, counted from 0.
#[derive(Drop)]
pub(super) struct DayOfYear {
    pub(super) year: u32,
    pub(super) day: u16,
    ghost in_century: { year < 100 },
    ghost in_year: { day < year_length (is_leap year) },
}

impl DayOfYear {
    /// The day that has a number.
    pub(super) fn from_number(number: u32) -> DayOfYear
        requires { number ≤ last_day }
        ensures { days_before_year result.year + result.day ≡ number }
    {
        let leap_year = number / DAYS_OF_FOUR_YEARS * 4;
        let rest = (number % DAYS_OF_FOUR_YEARS) as u16;
        if rest < 366 {
            DayOfYear {
                year: leap_year,
                day: rest,
            }
        } else {
            DayOfYear {
                year: leap_year + 1 + u32::from((rest - 366) / 365),
                day: (rest - 366) % 365,
            }
        }
    }
}
