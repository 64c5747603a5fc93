//! The calendar: each month's ends in a common and a leap year, the ends of the range, and
//! flat-rate days.
use calendar::date::Date;
use calendar::flat_rate::flat_rate_day;
use refusals::Refusal;
use std::process::Abort;

// A month, the last of its days, and the numbers of its first and its last day.
type Month = (u8, u8, u32, u32);

// A common year.
const YEAR_2001: [Month; 12] = [
    (1, 31, 366, 396),
    (2, 28, 397, 424),
    (3, 31, 425, 455),
    (4, 30, 456, 485),
    (5, 31, 486, 516),
    (6, 30, 517, 546),
    (7, 31, 547, 577),
    (8, 31, 578, 608),
    (9, 30, 609, 638),
    (10, 31, 639, 669),
    (11, 30, 670, 699),
    (12, 31, 700, 730),
];

// A leap year.
const YEAR_2004: [Month; 12] = [
    (1, 31, 1461, 1491),
    (2, 29, 1492, 1520),
    (3, 31, 1521, 1551),
    (4, 30, 1552, 1581),
    (5, 31, 1582, 1612),
    (6, 30, 1613, 1642),
    (7, 31, 1643, 1673),
    (8, 31, 1674, 1704),
    (9, 30, 1705, 1734),
    (10, 31, 1735, 1765),
    (11, 30, 1766, 1795),
    (12, 31, 1796, 1826),
];

fn date(year: u16, month: u8, day: u8) -> Date {
    Date { year, month, day }
}

// The date has the number, and the number the date.
fn check_day(rt: &impl Abort, date: Date, number: u32) {
    assert_eq!(rt; date.number(), Ok(number));
    assert_eq!(rt; Date::from_number(number), Ok(date));
}

// The date is no day, and is refused by 9.
fn check_no_day(rt: &impl Abort, date: Date) {
    assert_eq!(rt; date.number(), Err(Refusal::NoSuchDay));
    assert_eq!(rt; flat_rate_day(0, date), Err(Refusal::NoSuchDay));
}

// Each month of a year has its first and its last day, and none before and after them.
fn check_year(rt: &impl Abort, year: u16, months: &[Month]) {
    for (month, last, first_number, last_number) in months {
        check_day(rt, date(year, *month, 1), *first_number);
        check_day(rt, date(year, *month, *last), *last_number);
        check_no_day(rt, date(year, *month, 0));
        check_no_day(rt, date(year, *month, last.saturating_add(1)));
    }
}

#[test]
fn months_of_a_common_year(rt: HostRuntime) {
    check_year(&rt, 2001, &YEAR_2001);
}

#[test]
fn months_of_a_leap_year(rt: HostRuntime) {
    check_year(&rt, 2004, &YEAR_2004);
}

#[test]
fn ends_of_2000_and_2099(rt: HostRuntime) {
    check_day(&rt, date(2000, 1, 1), 0);
    check_day(&rt, date(2000, 2, 29), 59);
    check_day(&rt, date(2000, 12, 31), 365);
    check_day(&rt, date(2099, 1, 1), 36_160);
    check_day(&rt, date(2099, 12, 31), 36_524);
    check_day(&rt, date(2009, 10, 1), 3_561);
    assert_eq!(rt; Date::from_number(36_525), Err(Refusal::NoSuchDay));
    assert_eq!(rt; Date::from_number(u32::MAX), Err(Refusal::NoSuchDay));
    check_no_day(&rt, date(1999, 12, 31));
    check_no_day(&rt, date(2100, 1, 1));
    check_no_day(&rt, date(2009, 0, 1));
    check_no_day(&rt, date(2009, 13, 1));
    check_no_day(&rt, date(65_535, 255, 255));
}

// The litres of the days of a date's month together.
fn month_sum(litres: u64, first: Date) -> Result<u64, Refusal> {
    (1..=31)
        .map(|day| Date { day, ..first })
        .filter(|date| date.is_day())
        .try_fold(0u64, |sum, date| {
            Ok(sum.saturating_add(flat_rate_day(litres, date)?))
        })
}

#[test]
fn flat_rate_days(rt: HostRuntime) {
    let first = date(2009, 2, 1);
    let second = date(2009, 2, 2);
    assert_eq!(rt; flat_rate_day(29, first), Ok(1));
    assert_eq!(rt; flat_rate_day(55, first), Ok(1));
    assert_eq!(rt; flat_rate_day(55, second), Ok(2));
    assert_eq!(rt; flat_rate_day(1_000_000_000, first), Ok(35_714_285));
    assert_eq!(rt; flat_rate_day(1_000_000_001, first), Err(Refusal::Litres));
}

#[test]
fn flat_rate_months_sum(rt: HostRuntime) {
    assert_eq!(rt;
        month_sum(1_000_000_000, date(2001, 2, 1)),
        Ok(1_000_000_000)
    );
    assert_eq!(rt; month_sum(999_999_999, date(2004, 2, 1)), Ok(999_999_999));
    assert_eq!(rt; month_sum(30, date(2009, 10, 1)), Ok(30));
    assert_eq!(rt; month_sum(0, date(2009, 10, 1)), Ok(0));
}

#[test]
fn litres_are_refused_first(rt: HostRuntime) {
    let no_day = date(2009, 2, 29);
    assert_eq!(rt; flat_rate_day(u64::MAX, no_day), Err(Refusal::Litres));
    assert_eq!(rt;
        flat_rate_day(1_000_000_000, no_day),
        Err(Refusal::NoSuchDay)
    );
}
