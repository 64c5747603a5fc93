//! Abandoning days, open and measured.
ghost use Rattle.scenario.specs.Days.{IsRunning};

use crate::days::{entry, measured, opened};
use crate::seen::{Outcome, Seen};
use crate::station::two_traders;
use ledger::{Ledger, Refused};
use scenario::{Day, abandon, end};
use std::test::Fail;

// How a ledger answers where it is to abandon another's day. A day that is handed back ends there.
fn abandoned_on<D: Day>(ledger: &mut Ledger, other: &mut Ledger, day: D) -> Outcome
    requires { IsRunning other.old.book (D.Day.token day) }
{
    let before = Seen::of(ledger);
    match abandon(ledger, day) {
        Ok(()) => Outcome::new(None, before, ledger),
        Err(Refused { why, given }) => {
            end(other, given);
            Outcome::new(Some(why.number()), before, ledger)
        }
    }
}

#[test]
fn another_ledger_s_days(rt: HostRuntime) -> Result<(), Fail> {
    let mut ledger = two_traders()?;
    let mut other = two_traders()?;
    let open = opened(&mut other)?;
    assert!(rt; abandoned_on(&mut ledger, &mut other, open).refused(20));
    let measured = measured(&mut other, [0, 0], 1_000_000, 0)?;
    assert!(rt; abandoned_on(&mut ledger, &mut other, measured).refused(20));
    Ok(())
}

// Whether a ledger's first day, abandoned, counts as opened and leaves nothing else.
fn leaves_no_trace<D: Day>(ledger: &mut Ledger, before: Seen, day: D) -> bool
    requires { IsRunning ledger.old.book (D.Day.token day) }
{
    let number = day.number();
    end(ledger, day);
    number == 1 && Seen::of(ledger) == before.with_opened(1)
}

#[test]
fn an_open_day_abandoned(rt: HostRuntime) -> Result<(), Fail> {
    let mut ledger = two_traders()?;
    let before = Seen::of(&ledger);
    let day = opened(&mut ledger)?;
    let _ = entry(&mut ledger, &day, 1, 40_000);
    let metered = Seen::of(&ledger).metered;
    let abandoned = leaves_no_trace(&mut ledger, before, day);
    assert!(rt; metered == [Ok(0), Ok(40_000)] && abandoned);
    Ok(())
}

#[test]
fn a_measured_day_abandoned(rt: HostRuntime) -> Result<(), Fail> {
    let mut ledger = two_traders()?;
    let before = Seen::of(&ledger);
    let day = measured(&mut ledger, [40_000, 0], 1_000_000, 20_000)?;
    let metered = Seen::of(&ledger).metered;
    let abandoned = leaves_no_trace(&mut ledger, before, day);
    assert!(rt; metered == [Ok(40_000), Ok(0)] && abandoned);
    Ok(())
}
