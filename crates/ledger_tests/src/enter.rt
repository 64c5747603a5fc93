//! Entering metered litres into an open day.
ghost use Rattle.std.specs.Prelude.{◌≡◌};
ghost use Rattle.scenario.specs.Days.{IsRunning};

use crate::days::{entry, measured, opened};
use crate::seen::Outcome;
use crate::station::two_traders;
use ledger::Ledger;
use scenario::{Day, end};
use std::test::Fail;

// An entry on a day on which so much was metered before, and the number of its refusal, if any.
struct Case {
    metered: u64,
    trader: u32,
    litres: u64,
    number: Option<u8>,
}

// How an entry by a day of this ledger's is answered.
fn tried(ledger: &mut Ledger, case: &Case) -> Result<Outcome, Fail> {
    let day = opened(ledger)?;
    let _ = entry(ledger, &day, 0, case.metered);
    let outcome = entry(ledger, &day, case.trader, case.litres);
    end(ledger, day);
    Ok(outcome)
}

// How an entry by another ledger's open day is answered. This ledger's running day stays.
fn by_theirs(
    ledger: &mut Ledger,
    other: &mut Ledger,
    trader: u32,
    litres: u64,
) -> Result<Outcome, Fail>
    ensures { ledger.new.book.phase ≡ ledger.old.book.phase }
{
    let theirs = opened(other)?;
    let outcome = entry(ledger, &theirs, trader, litres);
    end(other, theirs);
    Ok(outcome)
}

// The same while this day of the ledger's runs, which then ends.
fn beside<D: Day>(
    ledger: &mut Ledger,
    own: D,
    other: &mut Ledger,
    trader: u32,
    litres: u64,
) -> Result<Outcome, Fail>
    requires { IsRunning ledger.old.book (D.Day.token own) }
{
    let outcome = by_theirs(ledger, other, trader, litres);
    end(ledger, own);
    outcome
}

// The same while a day of this ledger's is open.
fn beside_an_open_day(
    ledger: &mut Ledger,
    other: &mut Ledger,
    case: &Case,
) -> Result<Outcome, Fail> {
    let own = opened(ledger)?;
    let _ = entry(ledger, &own, 0, case.metered);
    beside(ledger, own, other, case.trader, case.litres)
}

// The same while the day of this ledger's with the same number is measured.
fn beside_a_measured_day(ledger: &mut Ledger, other: &mut Ledger) -> Result<Outcome, Fail> {
    let own = measured(ledger, [0, 0], 1_000_000, 0)?;
    beside(ledger, own, other, 0, 1)
}

// The last two meet two grounds, and the first is returned.
static ENTRIES: [Case; 6] = [
    Case {
        metered: 0,
        trader: 2,
        litres: 1,
        number: Some(3),
    },
    Case {
        metered: 0,
        trader: 1,
        litres: 1_000_000_001,
        number: Some(6),
    },
    Case {
        metered: 999_999_999,
        trader: 1,
        litres: 2,
        number: Some(24),
    },
    Case {
        metered: 999_999_999,
        trader: 1,
        litres: 1,
        number: None,
    },
    Case {
        metered: 0,
        trader: 2,
        litres: 1_000_000_001,
        number: Some(3),
    },
    Case {
        metered: 1,
        trader: 1,
        litres: 1_000_000_001,
        number: Some(6),
    },
];

#[test]
fn entries_refused(rt: HostRuntime) -> Result<(), Fail> {
    let mut ledger = two_traders()?;
    for case in &ENTRIES {
        assert!(rt; tried(&mut ledger, case)?.is(case.number));
    }
    Ok(())
}

// By another ledger's day. The last two meet two grounds, and the first is returned.
static BY_ANOTHER: [Case; 3] = [
    Case {
        metered: 5,
        trader: 0,
        litres: 1,
        number: Some(20),
    },
    Case {
        metered: 1_000_000_000,
        trader: 0,
        litres: 1,
        number: Some(20),
    },
    Case {
        metered: 5,
        trader: 0,
        litres: 1_000_000_001,
        number: Some(6),
    },
];

// This ledger's days are numbered one ahead of the other's.
#[test]
fn entries_by_another_ledger_s_day(rt: HostRuntime) -> Result<(), Fail> {
    let mut ledger = two_traders()?;
    let mut other = two_traders()?;
    let ahead = opened(&mut ledger)?;
    end(&mut ledger, ahead);
    for case in &BY_ANOTHER {
        assert!(rt; beside_an_open_day(&mut ledger, &mut other, case)?.is(case.number));
    }
    Ok(())
}

#[test]
fn no_entry_once_measured(rt: HostRuntime) -> Result<(), Fail> {
    let mut ledger = two_traders()?;
    let mut other = two_traders()?;
    assert!(rt; beside_a_measured_day(&mut ledger, &mut other)?.refused(20));
    Ok(())
}
