//! The station and the days that are timed: 64 traders, and the most points that a ledger has. The
//! sheets lie on the stack, and nothing allocates.
ghost use Rattle.std.specs.Prelude.{◌*◌, ◌<◌, ◌≤◌, IfOk, pos, ◌≤ℤ◌};
ghost use Rattle.ledger.specs.Accounts.{new_book};
ghost use Rattle.scenario.specs.Days.{SharesAtMost};

use ledger::{Ledger, MAX_POINTS, Particulars, Point};
use profiles::{EvenProfile, Weather};
use refusals::Refusal;
use scenario::{DayInputs, Entry, new_ledger, run_day};
use shares::ShareRule;
use std::array;

// Point p is trader p % TRADERS's, and day d has metered litres of trader d % TRADERS.
const TRADERS: u32 = 64;

// The trader whose account is returned.
const TRADER: u32 = 7;

const DAY_FACTOR: u32 = 764_445;

const WEATHER: Weather = Weather {
    temperature: 100,
    season: 0,
};

const METERED: u64 = 1_000;

// Of day 0: each day has one litre more.
const INFLOW: u64 = 900_000_000;

const LOSS_RATE: u32 = 20_000;

// What the point at this place is admitted with.
fn particulars(place: u32) -> Particulars
    requires { place < 4096 }
{
    Particulars {
        trader: place % TRADERS,
        segment: place % 8,
        digits: 5,
        litres_per_unit: 1_000,
        reading: 0,
        scale_factor: place * 7_919 % 2_000_001,
    }
}

// The ledger before its first day.
fn station(sheet: &mut [Point; MAX_POINTS]) -> Result<Ledger, Refusal>
    ensures { IfOk result (λ ledger. SharesAtMost 0 (new_book 0) ledger.book) }
{
    let points: [Particulars; MAX_POINTS] = array::from_fn(|place| particulars(place as u32));
    new_ledger(0, TRADERS, &points, sheet)
}

// Day `number`.
fn run<R: ShareRule>(
    ledger: &mut Ledger,
    number: u32,
    sheet: &mut [Point; MAX_POINTS],
    profile: &EvenProfile,
    rule: &R,
    uses: &mut [u64; MAX_POINTS],
    shares: &mut [u64; MAX_POINTS],
) -> Result<(), Refusal>
    ensures { SharesAtMost 1 ledger.old.book ledger.new.book }
{
    let entries = [Entry {
        trader: number % TRADERS,
        litres: METERED,
    }];
    let inputs = DayInputs {
        weather: WEATHER,
        entries: &entries,
        inflow: INFLOW + u64::from(number),
        rate: LOSS_RATE,
    };
    run_day(ledger, &inputs, sheet, profile, rule, uses, shares)?;
    Ok(())
}

// The account after so many days by this rule.
fn account<R: ShareRule>(rule: &R, days: u32) -> Result<i64, Refusal>
    ensures { IfOk result (λ account. account ≤ℤ pos (days * 1_000_000_000)) }
{
    let even = EvenProfile::new(DAY_FACTOR)?;
    let mut sheet = [Point::UNUSED; MAX_POINTS];
    let mut uses = [0; MAX_POINTS];
    let mut shares = [0; MAX_POINTS];
    let mut ledger = station(&mut sheet)?;
    for number in 0..days {
        run(
            &mut ledger,
            number,
            &mut sheet,
            &even,
            rule,
            &mut uses,
            &mut shares,
        )?;
    }
    ledger.account(TRADER)
}

// The account, and 0 where a call is refused. No account of these days is below zero.
pub(crate) fn account_after<R: ShareRule>(rule: &R, days: u32) -> u64
    ensures { result ≤ days * 1_000_000_000 }
{
    account(rule, days).map_or(0, |account| u64::try_from(account).unwrap_or(0))
}
