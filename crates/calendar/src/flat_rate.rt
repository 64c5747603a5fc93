//! The days of a customer who is billed the same each month.
ghost use Rattle.std.specs.Prelude.{◌≡◌, ◌<◌, ◌≤◌};
ghost use Rattle.calendar.specs.FlatRate.{max_litres, day_litres, flat_rate_day, SumsToMonth, DiffersByOneAtMost};

use super::date::Date;
use refusals::Refusal;

/// The most litres of one month.
pub const MAX_LITRES: u64 = 1_000_000_000;

// The litres of day `day` in a month of `days` days.
fn day_litres(litres: u64, days: u64, day: u64) -> u64
    requires month { (litres ≤ max_litres) × (days ≤ 31) }
    requires day { (0 < day) × (day ≤ days) }
    ensures { result ≡ day_litres litres days day }
{
    litres * day / days - litres * (day - 1) / days
}

// The litres of one day, by the rule.
fn litres_of(litres: u64, date: Date) -> Result<u64, Refusal>
    ensures { result ≡ flat_rate_day litres date }
{
    if litres > MAX_LITRES {
        return Err(Refusal::Litres);
    }
    if !date.is_day() {
        return Err(Refusal::NoSuchDay);
    }
    let days = u64::from(date.month_of_year().length());
    Ok(day_litres(litres, days, u64::from(date.day)))
}

/// The litres of one day of a flat-rate customer, given those of the whole month that the day lies
/// in, at most 1,000,000,000 (docs/CALENDAR.md). More litres are refused by 6, and then a date that
/// is no day by 9.
pub fn flat_rate_day(litres: u64, date: Date) -> Result<u64, Refusal>
    ensures value { result ≡ flat_rate_day litres date }
    ensures sum { SumsToMonth litres date }
    ensures difference { DiffersByOneAtMost litres date }
{
    litres_of(litres, date)
}
