//! Taking the inflow of an open day.
ghost use Rattle.std.specs.Prelude.{◌≡◌, IfSome};

use crate::days::{entry, opened};
use crate::seen::{Outcome, Seen};
use crate::station::two_traders;
use ledger::{Ledger, OpenDay, Refused};
use scenario::{end, take_inflow};
use std::test::Fail;

// An inflow after so much was metered, and the number of its refusal, if any.
struct Case {
    metered: u64,
    litres: u64,
    rate: u32,
    number: Option<u8>,
}

// How taking an inflow by a day is answered. A measured day ends; a day that is handed back is
// returned.
fn tried(ledger: &mut Ledger, day: OpenDay, litres: u64, rate: u32) -> (Outcome, Option<OpenDay>)
    ensures { IfSome result.1
        (λ back. (back ≡ day) × (ledger.new.book.phase ≡ ledger.old.book.phase)) }
{
    let before = Seen::of(ledger);
    match take_inflow(ledger, day, litres, rate) {
        Ok(measured) => {
            end(ledger, measured);
            (Outcome::new(None, before, ledger), None)
        }
        Err(Refused { why, given }) => {
            let outcome = Outcome::new(Some(why.number()), before, ledger);
            (outcome, Some(given))
        }
    }
}

// The same by a day of this ledger's.
fn by_own(ledger: &mut Ledger, case: &Case) -> Result<Outcome, Fail> {
    let day = opened(ledger)?;
    let _ = entry(ledger, &day, 0, case.metered);
    let (outcome, back) = tried(ledger, day, case.litres, case.rate);
    if let Some(day) = back {
        end(ledger, day);
    }
    Ok(outcome)
}

// The same by another ledger's day.
fn by_theirs(
    ledger: &mut Ledger,
    other: &mut Ledger,
    litres: u64,
    rate: u32,
) -> Result<Outcome, Fail> {
    let day = opened(other)?;
    let (outcome, back) = tried(ledger, day, litres, rate);
    if let Some(day) = back {
        end(other, day);
    }
    Ok(outcome)
}

// The loss is rounded down: 2 per cent of 387,755 are 7,755, and of 49 nothing. The last meets two
// grounds, and the first is returned.
static INFLOWS: [Case; 10] = [
    Case {
        metered: 0,
        litres: 1_000_000_001,
        rate: 0,
        number: Some(6),
    },
    Case {
        metered: 0,
        litres: 1_000_000,
        rate: 1_000_001,
        number: Some(6),
    },
    Case {
        metered: 0,
        litres: 1_000_000_000,
        rate: 1_000_000,
        number: None,
    },
    Case {
        metered: 380_000,
        litres: 379_999,
        rate: 0,
        number: Some(25),
    },
    Case {
        metered: 380_000,
        litres: 387_754,
        rate: 20_000,
        number: Some(25),
    },
    Case {
        metered: 380_000,
        litres: 387_755,
        rate: 20_000,
        number: None,
    },
    Case {
        metered: 49,
        litres: 49,
        rate: 20_000,
        number: None,
    },
    Case {
        metered: 49,
        litres: 50,
        rate: 20_000,
        number: None,
    },
    Case {
        metered: 50,
        litres: 50,
        rate: 20_000,
        number: Some(25),
    },
    Case {
        metered: 380_000,
        litres: 1_000,
        rate: 1_000_001,
        number: Some(6),
    },
];

#[test]
fn inflows_refused(rt: HostRuntime) -> Result<(), Fail> {
    let mut ledger = two_traders()?;
    for case in &INFLOWS {
        assert!(rt; by_own(&mut ledger, case)?.is(case.number));
    }
    Ok(())
}

#[test]
fn inflows_by_another_ledger_s_day(rt: HostRuntime) -> Result<(), Fail> {
    let mut ledger = two_traders()?;
    let mut other = two_traders()?;
    assert!(rt; by_theirs(&mut ledger, &mut other, 1_000_000, 0)?.refused(20));
    assert!(rt; by_theirs(&mut ledger, &mut other, 1_000_000, 1_000_001)?.refused(6));
    Ok(())
}
