//! How long the months are, and the days before each, from a table of two rows.
ghost use Rattle.std.specs.Prelude.{◌≡◌, ◌+◌, ◌<◌, ◌≤◌};
ghost use Rattle.calendar.specs.Days.{month_length, days_before_month, year_length};

// The months of one kind of year, in days.
struct Row {
    lengths: [u8; 12],
    before: [u16; 12],
}

// The common year first, then the leap year.
const YEARS: [Row; 2] = [
    Row {
        lengths: [31, 28, 31, 30, 31, 30, 31, 31, 30, 31, 30, 31],
        before: [0, 31, 59, 90, 120, 151, 181, 212, 243, 273, 304, 334],
    },
    Row {
        lengths: [31, 29, 31, 30, 31, 30, 31, 31, 30, 31, 30, 31],
        before: [0, 31, 60, 91, 121, 152, 182, 213, 244, 274, 305, 335],
    },
];

/// A month of a leap or a common year, counted from 0 for January.
#[derive(Clone, Copy)]
pub(super) struct Month {
    pub(super) leap: bool,
    pub(super) index: usize,
    ghost in_year: { index < 12 },
}

impl Month {
    /// The month that a day of the year, counted from 0, lies in.
    pub(super) fn of_day(leap: bool, day: u16) -> Month
        requires { day < year_length leap }
        ensures leap { result.leap ≡ leap }
        ensures from { days_before_month leap result.index ≤ day }
        ensures to { day < days_before_month leap result.index + month_length leap result.index }
    {
        // How many months have begun by that day.
        let begun = YEARS[usize::from(leap)]
            .before
            .partition_point(|before| *before <= day);
        Month {
            leap,
            index: begun - 1,
        }
    }

    /// The days of the month, 28 to 31.
    pub(super) fn length(self) -> u8
        ensures { result ≡ month_length self.leap self.index }
    {
        YEARS[usize::from(self.leap)].lengths[self.index]
    }

    /// The days of its year before the month.
    pub(super) fn days_before(self) -> u16
        ensures value { result ≡ days_before_month self.leap self.index }
        ensures bound { result ≤ 335 }
    {
        YEARS[usize::from(self.leap)].before[self.index]
    }
}
