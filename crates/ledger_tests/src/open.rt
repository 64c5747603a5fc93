//! Opening days.
ghost use Rattle.std.specs.Prelude.{◌≡◌};
ghost use Rattle.ledger.specs.Tokens.{OpenToken};
ghost use Rattle.scenario.specs.Days.{IsRunning};

use crate::days::{WEATHER, opened};
use crate::seen::{Outcome, Seen};
use crate::station::two_traders;
use ledger::{Ledger, OpenDay, Point};
use profiles::{EvenProfile, Weather};
use scenario::{DayInputs, end, open, run_day};
use shares::Running;
use std::test::Fail;

// How an opening is answered. The day ends where there is one.
fn opening(ledger: &mut Ledger, temperature: i16, season: u8) -> Outcome {
    let before = Seen::of(ledger);
    let weather = Weather {
        temperature,
        season,
    };
    match open(ledger, weather) {
        Ok(day) => {
            end(ledger, day);
            Outcome::new(None, before, ledger)
        }
        Err(why) => Outcome::new(Some(why.number()), before, ledger),
    }
}

// The same beside a day that is running.
fn opening_beside(ledger: &mut Ledger, day: &OpenDay, temperature: i16) -> Outcome
    requires { IsRunning ledger.old.book (OpenToken day.now) }
    ensures { IsRunning ledger.new.book (OpenToken day.now) }
{
    let before = Seen::of(ledger);
    let weather = Weather {
        temperature,
        season: 1,
    };
    let why = open(ledger, weather).unwrap_err();
    Outcome::new(Some(why.number()), before, ledger)
}

#[test]
fn weather_past_its_ends(rt: HostRuntime) -> Result<(), Fail> {
    let mut ledger = two_traders()?;
    assert!(rt; opening(&mut ledger, -401, 1).refused(5));
    assert!(rt; opening(&mut ledger, 501, 1).refused(5));
    assert!(rt; opening(&mut ledger, 105, 4).refused(5));
    assert!(rt; opening(&mut ledger, -400, 0).accepted());
    assert!(rt; opening(&mut ledger, 500, 3).accepted());
    Ok(())
}

// A second day beside an open one; bad weather is returned first.
#[test]
fn one_day_at_a_time(rt: HostRuntime) -> Result<(), Fail> {
    let mut ledger = two_traders()?;
    let day = opened(&mut ledger)?;
    let number = day.number();
    let second = opening_beside(&mut ledger, &day, 105);
    let cold = opening_beside(&mut ledger, &day, -401);
    end(&mut ledger, day);
    assert!(rt; number == 1 && second.refused(22) && cold.refused(5));
    let next = opened(&mut ledger)?;
    let number = next.number();
    end(&mut ledger, next);
    assert!(rt; number == 2);
    Ok(())
}

// 31 December 2099 is the last day; bad weather is returned first.
#[test]
fn no_day_past_the_calendar(rt: HostRuntime) {
    let mut ledger = Ledger::new(36_525);
    assert!(rt; opening(&mut ledger, 105, 1).refused(23));
    assert!(rt; opening(&mut ledger, 105, 4).refused(5));
    assert!(rt; opening(&mut Ledger::new(36_524), 105, 1).accepted());
}

// Shares out a day without points.
fn empty_day(ledger: &mut Ledger, profile: &EvenProfile) -> Result<(), Fail> {
    let inputs = DayInputs {
        weather: WEATHER,
        entries: &[],
        inflow: 0,
        rate: 0,
    };
    run_day(
        ledger,
        &inputs,
        &mut [Point::UNUSED; 1],
        profile,
        &Running,
        &mut [0; 1],
        &mut [0; 1],
    )?;
    Ok(())
}

#[test]
fn no_day_after_four_thousand(rt: HostRuntime) -> Result<(), Fail> {
    let mut ledger = Ledger::new(0);
    let profile = EvenProfile::new(0)?;
    for _ in 0..4000u32 {
        empty_day(&mut ledger, &profile)?;
    }
    assert!(rt; ledger.counts().shared == 4000 && ledger.next_day() == 4000);
    assert!(rt; opening(&mut ledger, 105, 1).refused(23));
    Ok(())
}

#[test]
fn no_day_after_a_million_openings(rt: HostRuntime) -> Result<(), Fail> {
    let mut ledger = Ledger::new(0);
    for _ in 0..1_000_000u32 {
        let day = opened(&mut ledger)?;
        end(&mut ledger, day);
    }
    assert!(rt; ledger.counts().opened == 1_000_000 && ledger.next_day() == 0);
    assert!(rt; opening(&mut ledger, 105, 1).refused(23));
    Ok(())
}
