//! Days worked out by hand, and what every account and sheet then holds.
use crate::days::{WEATHER, measured};
use crate::seen::Seen;
use crate::station::{GIVEN, ROW, SECOND, two_points};
use ledger::{Ledger, Particulars, Point, SharedOut};
use profiles::{EvenProfile, SeasonLayer};
use refusals::Refusal;
use scenario::{DayInputs, Entry, end, run_day};
use shares::{LargestRemainder, Running, ShareRule};
use std::test::Fail;

// The day's work sheets: three places, of which two are used at first.
#[derive(Clone, Copy)]
struct Work {
    uses: [u64; 3],
    shares: [u64; 3],
}

const WORK: Work = Work {
    uses: [7; 3],
    shares: [8; 3],
};

// The worked day: 1,000,000 litres of inflow, of which 20,000 are lost and 380,000 metered.
const WORKED: DayInputs<'static> = DayInputs {
    weather: WEATHER,
    entries: &[
        Entry {
            trader: 0,
            litres: 300_000,
        },
        Entry {
            trader: 1,
            litres: 80_000,
        },
    ],
    inflow: 1_000_000,
    rate: 20_000,
};

// A day of the same inflow, and nothing lost or metered.
const PLAIN: DayInputs<'static> = DayInputs {
    weather: WEATHER,
    entries: &[],
    inflow: 1_000_000,
    rate: 0,
};

// Runs a day at a day factor of 764,445.
fn run<R: ShareRule>(
    ledger: &mut Ledger,
    inputs: &DayInputs,
    rule: &R,
    sheet: &mut [Point],
    work: &mut Work,
) -> Result<SharedOut, Refusal> {
    let profile = EvenProfile::new(764_445)?;
    run_day(
        ledger,
        inputs,
        sheet,
        &profile,
        rule,
        &mut work.uses,
        &mut work.shares,
    )
}

// What the worked day's share-out returns.
const RETURNED: SharedOut = SharedOut {
    quantity: 600_000,
    total: 114_666,
    loss: 20_000,
};

// Whether a ledger holds what the worked day brings.
fn is_worked(ledger: &Ledger) -> bool {
    let seen = Seen::of(ledger);
    seen.account == [Ok(700_000), Ok(280_000)]
        && seen.metered == [Ok(0), Ok(0)]
        && seen.accounts == 980_000
        && seen.loss == 20_000
        && seen.correction == 0
        && seen.next_day == 3562
        && seen.counts.opened == 1
        && seen.counts.shared == 1
}

// The sheet after the worked day: shares in the open sums, multipliers in the period sums.
const SHARED: [Point; 3] = [
    Point {
        open_sum: 400_000,
        period_sum: 764_445,
        ..ROW
    },
    Point {
        open_sum: 200_000,
        period_sum: 764_445,
        ..SECOND
    },
    Point::UNUSED,
];

#[test]
fn the_worked_day(rt: HostRuntime) -> Result<(), Fail> {
    let mut sheet = [Point::UNUSED; 3];
    let mut ledger = two_points(&mut sheet, SECOND)?;
    let mut work = WORK;
    let returned = run(&mut ledger, &WORKED, &Running, &mut sheet, &mut work)?;
    assert!(rt; returned == RETURNED && sheet == SHARED && is_worked(&ledger));
    assert!(rt; work.uses == [76_444, 38_222, 7] && work.shares == [400_000, 200_000, 8]);
    assert!(rt; ledger.open_quantity(&sheet, 0)? == 400_000);
    assert!(rt; ledger.open_quantity(&sheet, 1)? == 200_000);
    Ok(())
}

// Both rules agree where the proportions are whole.
#[test]
fn the_worked_day_by_largest_remainder(rt: HostRuntime) -> Result<(), Fail> {
    let mut sheet = [Point::UNUSED; 3];
    let mut ledger = two_points(&mut sheet, SECOND)?;
    let mut work = WORK;
    let rule = LargestRemainder;
    let returned = run(&mut ledger, &WORKED, &rule, &mut sheet, &mut work)?;
    assert!(rt; returned == RETURNED && sheet == SHARED && is_worked(&ledger));
    Ok(())
}

// A day abandoned between two others leaves their accounts and sums.
#[test]
fn accounts_outlast_an_abandoned_day(rt: HostRuntime) -> Result<(), Fail> {
    let mut sheet = [Point::UNUSED; 3];
    let mut ledger = two_points(&mut sheet, SECOND)?;
    let mut work = WORK;
    run(&mut ledger, &WORKED, &Running, &mut sheet, &mut work)?;
    let before = Seen::of(&ledger);
    let day = measured(&mut ledger, [5, 6], 1_000_000, 0)?;
    end(&mut ledger, day);
    assert!(rt; Seen::of(&ledger) == before.with_opened(2) && sheet == SHARED);
    Ok(())
}

// The sheet after one more day, shared among three: the sums of the point that joined begin at 0.
const JOINED: [Point; 3] = [
    Point {
        open_sum: 900_000,
        period_sum: 1_528_890,
        ..ROW
    },
    Point {
        open_sum: 450_000,
        period_sum: 1_528_890,
        ..SECOND
    },
    Point {
        scale_factor: 500_000,
        open_sum: 250_000,
        period_sum: 764_445,
        ..ROW
    },
];

#[test]
fn a_point_joins_between_days(rt: HostRuntime) -> Result<(), Fail> {
    let mut sheet = [Point::UNUSED; 3];
    let mut ledger = two_points(&mut sheet, SECOND)?;
    let mut work = WORK;
    run(&mut ledger, &WORKED, &Running, &mut sheet, &mut work)?;
    let joined = Particulars {
        scale_factor: 500_000,
        ..GIVEN
    };
    let number = ledger.admit_point(&mut sheet, joined)?;
    let returned = run(&mut ledger, &PLAIN, &Running, &mut sheet, &mut work)?;
    assert!(rt; number == 2 && returned.quantity == 1_000_000 && returned.total == 152_888);
    assert!(rt; work.shares == [500_000, 250_000, 250_000] && sheet == JOINED);
    assert!(rt;
        Seen::of(&ledger).account == [Ok(1_450_000), Ok(530_000)] && ledger.next_day() == 3563
    );
    Ok(())
}

// A layer takes all of the first point's segment away outside winter; the day is of season 1, so
// the second point gets all.
#[test]
fn a_day_by_its_own_season(rt: HostRuntime) -> Result<(), Fail> {
    let second = Point {
        segment: 1,
        ..SECOND
    };
    let mut sheet = [Point::UNUSED; 2];
    let mut ledger = two_points(&mut sheet, second)?;
    let Ok(mut layer) = SeasonLayer::new(EvenProfile::new(764_445)?, 0) else {
        return Err(Fail::new("segment 0"));
    };
    let mut numbers = [10_000_000; 1524];
    numbers[381..].fill(0);
    layer.fill(&numbers)?;
    let inputs = DayInputs {
        inflow: 980_000,
        ..PLAIN
    };
    let mut uses = [7; 2];
    let mut shares = [8; 2];
    run_day(
        &mut ledger,
        &inputs,
        &mut sheet,
        &layer,
        &Running,
        &mut uses,
        &mut shares,
    )?;
    assert!(rt; uses == [0, 38_222] && shares == [0, 980_000]);
    assert!(rt; Seen::of(&ledger).account == [Ok(0), Ok(980_000)]);
    Ok(())
}
