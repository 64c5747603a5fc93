//! The calendar and the flat-rate day. The C interface takes each number of a date by itself.
ghost use Rattle.std.specs.Prelude.{◌≡◌, IsFalse, MatchOption};
ghost use Rattle.calendar.specs.Days.{is_day, day_number, FindsDate};
ghost use Rattle.calendar.specs.FlatRate.{flat_rate_day};
ghost use Rattle.capi.specs.Answer.{answer_of};
ghost use Rattle.capi.specs.Calendar.{date_of, AnswersDate};

use super::answer::{Answer, DateAnswer};
use calendar::date::Date;
use calendar::flat_rate::{MAX_LITRES, flat_rate_day};
use refusals::Refusal;

// The date that three numbers write, unless one of them is too large for any date.
fn date(year: u64, month: u64, day: u64) -> Option<Date>
    ensures { MatchOption result
        (IsFalse (is_day (date_of year month day)))
        (λ date. date ≡ date_of year month day) }
{
    Some(Date {
        year: year.try_into().ok()?,
        month: month.try_into().ok()?,
        day: day.try_into().ok()?,
    })
}

/// The number of a date's day, 0 for 1 January 2000 to 36,524 (docs/CALENDAR.md). A date that is no
/// day of the years 2000 to 2099 is refused by 9.
#[unsafe(no_mangle)]
pub extern "C" fn keldrava_day_number(year: u64, month: u64, day: u64) -> Answer
    ensures { result ≡ answer_of (day_number (date_of year month day)) }
{
    date(year, month, day)
        .ok_or(Refusal::NoSuchDay)
        .and_then(Date::number)
        .map(u64::from)
        .into()
}

// The date of a day number, which may be too large for any day.
fn date_of_day(number: u64) -> Result<Date, Refusal>
    ensures { FindsDate number result }
{
    Date::from_number(u32::try_from(number).map_err(|_| Refusal::NoSuchDay)?)
}

/// The date of a day number (docs/CALENDAR.md). A number above 36,524 is refused by 9.
#[unsafe(no_mangle)]
pub extern "C" fn keldrava_date_of_day(number: u64) -> DateAnswer
    ensures { AnswersDate number result }
{
    date_of_day(number).into()
}

/// The litres of one day of a flat-rate customer, given those of its month, at most 1,000,000,000
/// (docs/CALENDAR.md). More litres are refused by 6, and then a date that is no day by 9.
#[unsafe(no_mangle)]
pub extern "C" fn keldrava_flat_rate_day(litres: u64, year: u64, month: u64, day: u64) -> Answer
    ensures { result ≡ answer_of (flat_rate_day litres (date_of year month day)) }
{
    match date(year, month, day) {
        Some(date) => flat_rate_day(litres, date),
        // Too many litres are refused first, whatever the date.
        None if litres > MAX_LITRES => Err(Refusal::Litres),
        None => Err(Refusal::NoSuchDay),
    }
    .into()
}
