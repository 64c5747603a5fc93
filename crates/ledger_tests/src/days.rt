//! Days of two traders, at 10.5 degrees in season 1.
ghost use Rattle.std.specs.Prelude.{◌≡◌, IfOk};
ghost use Rattle.ledger.specs.Tokens.{OpenToken, MeasuredToken};
ghost use Rattle.scenario.specs.Days.{IsRunning};

use crate::seen::{Outcome, Seen, number_of};
use ledger::{Ledger, MeasuredDay, OpenDay};
use profiles::Weather;
use refusals::Refusal;
use scenario::{DayInputs, Entry, enter, measured_day, open};

pub(crate) const WEATHER: Weather = Weather {
    temperature: 105,
    season: 1,
};

// An open day of this ledger's.
pub(crate) fn opened(ledger: &mut Ledger) -> Result<OpenDay, Refusal>
    ensures { IfOk result (λ day. IsRunning ledger.new.book (OpenToken day)) }
{
    open(ledger, WEATHER)
}

// How an entry is answered. It leaves the ledger's running day.
pub(crate) fn entry(ledger: &mut Ledger, day: &OpenDay, trader: u32, litres: u64) -> Outcome
    ensures { ledger.new.book.phase ≡ ledger.old.book.phase }
{
    let before = Seen::of(ledger);
    let number = number_of(enter(ledger, day, trader, litres));
    Outcome::new(number, before, ledger)
}

// A measured day of this ledger's, of so much inflow, and so much metered for its two traders.
pub(crate) fn measured(
    ledger: &mut Ledger,
    metered: [u64; 2],
    inflow: u64,
    rate: u32,
) -> Result<MeasuredDay, Refusal>
    ensures { IfOk result (λ day. IsRunning ledger.new.book (MeasuredToken day)) }
{
    let entries = [
        Entry {
            trader: 0,
            litres: metered[0],
        },
        Entry {
            trader: 1,
            litres: metered[1],
        },
    ];
    let inputs = DayInputs {
        weather: WEATHER,
        entries: &entries,
        inflow,
        rate,
    };
    measured_day(ledger, &inputs)
}
