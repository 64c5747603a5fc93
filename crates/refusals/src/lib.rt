//! The refusals of every crate: one list, and one number for each.
#![tactic(auto)]

ghost use Rattle.std.specs.Prelude.{◌≡◌};
ghost use Rattle.refusals.specs.Numbers.{number_of};

use thiserror::Error;

/// Why a call is refused. Grounds 1 to 11 lie in what was handed in, 20 to 32 in how things stand
/// (docs/REFUSALS.md).
#[derive(Clone, Copy, PartialEq, Eq, Debug, Error)]
pub enum Refusal {
    #[error("the point sheet is shorter than the points admitted, or has more than 4096 places")]
    PointSheetLength = 1,
    #[error("a work sheet is shorter than the points admitted")]
    WorkSheetLength = 2,
    #[error("no such trader")]
    NoSuchTrader = 3,
    #[error("no such point")]
    NoSuchPoint = 4,
    #[error("the temperature is outside -400 to 500 tenths, or the season outside 0 to 3")]
    Weather = 5,
    #[error("more than 1000000000 litres, or a loss rate above 1000000 millionths")]
    Litres = 6,
    #[error("a point's particulars, a segment or a reading out of range")]
    Particulars = 7,
    #[error("a profile sheet of the wrong length, or a value in it too large")]
    ProfileSheet = 8,
    #[error("no such day")]
    NoSuchDay = 9,
    #[error("an energy above 1000000000000 MJ, or a rate above 1000000")]
    Energy = 10,
    #[error("the point sheet is another ledger's: a point in it is out of its ranges")]
    ForeignSheet = 11,
    #[error("not this ledger's running day in that phase")]
    NotRunning = 20,
    #[error("not its point's open slip, or as many bookings as readings already")]
    NotOpenSlip = 21,
    #[error("a day is running")]
    DayRunning = 22,
    #[error("no more days: 4000 shared out, 1000000 opened, or past 31 December 2099")]
    NoMoreDays = 23,
    #[error("all traders' metered litres of the day would pass 1000000000")]
    TooMuchMetered = 24,
    #[error("loss and metered litres exceed the inflow")]
    InflowTooSmall = 25,
    #[error("no place for another trader or point")]
    NoPlace = 26,
    #[error("a slip of this point is open")]
    SlipOpen = 27,
    #[error("no more readings: 1000000 were made")]
    NoMoreReadings = 28,
    #[error("the point is that trader's already")]
    SameTrader = 29,
    #[error("a point to be shared out has an open slip")]
    SlipOpenAtShareOut = 30,
    #[error("the profile does not serve a point's segment")]
    SegmentNotServed = 31,
    #[error("litres to share, and no point with any profile consumption")]
    NoWeight = 32,
}

impl Refusal {
    /// The refusal's number, 1 to 32.
    pub fn number(self) -> u8
        ensures { result ≡ number_of self }
    {
        self as u8
    }
}

/// A refusal that hands back what was given, where that cannot be copied.
// LLVM builds the program in seconds with `given` first, and in minutes with `why` first.
#[derive(Drop)]
pub struct Refused<T> {
    /// What was handed in.
    pub given: T,
    /// Why it was refused.
    pub why: Refusal,
}
