//! Days run by what is entered into them.
ghost use Rattle.std.specs.Prelude.{◌≡◌, IfOk};
ghost use Rattle.ledger.specs.Tokens.{MeasuredToken};
ghost use Rattle.scenario.specs.Days.{IsRunning, SharesAtMost};

use crate::calls::{enter, open, share_out, take_inflow};
use crate::day::{end, end_refused};
use ledger::{Ledger, MeasuredDay, OpenDay, Point, SharedOut};
use profiles::{Profile, Weather};
use refusals::Refusal;
use shares::ShareRule;

/// An entry: metered litres of a trader.
#[derive(Clone, Copy)]
pub struct Entry {
    /// The trader's number.
    pub trader: u32,
    /// The litres that are added to his metered sum.
    pub litres: u64,
}

/// What a day is run by. Nothing is tested here: the ledger refuses what is out of its range.
#[derive(Clone, Copy)]
pub struct DayInputs<'a> {
    /// The temperature and the season of its opening.
    pub weather: Weather,
    /// The entries, in their order.
    pub entries: &'a [Entry],
    /// The inflow, in litres.
    pub inflow: u64,
    /// The loss rate, in millionths.
    pub rate: u32,
}

// Enters all of them, up to the first that is refused.
fn enter_all(ledger: &mut Ledger, day: &OpenDay, entries: &[Entry]) -> Result<(), Refusal>
    ensures running { ledger.new.book.phase ≡ ledger.old.book.phase }
    ensures shared { SharesAtMost 0 ledger.old.book ledger.new.book }
{
    for entry in entries {
        enter(ledger, day, entry.trader, entry.litres)?;
    }
    Ok(())
}

/// Opens a day, makes its entries and takes its inflow. The first refusal of a call ends the day.
pub fn measured_day(ledger: &mut Ledger, inputs: &DayInputs) -> Result<MeasuredDay, Refusal>
    ensures running { IfOk result (λ day. IsRunning ledger.new.book (MeasuredToken day)) }
    ensures shared { SharesAtMost 0 ledger.old.book ledger.new.book }
{
    let day = open(ledger, inputs.weather)?;
    if let Err(why) = enter_all(ledger, &day, inputs.entries) {
        end(ledger, day);
        return Err(why);
    }
    let answer = take_inflow(ledger, day, inputs.inflow, inputs.rate);
    end_refused(ledger, answer)
}

/// Shares out a day of this ledger's. A refusal ends the day.
pub fn shared_out<P: Profile, R: ShareRule>(
    ledger: &mut Ledger,
    day: MeasuredDay,
    sheet: &mut [Point],
    profile: &P,
    rule: &R,
    uses: &mut [u64],
    shares: &mut [u64],
) -> Result<SharedOut, Refusal>
    requires { IsRunning ledger.old.book (MeasuredToken day) }
    ensures { SharesAtMost 1 ledger.old.book ledger.new.book }
{
    let answer = share_out(ledger, day, sheet, profile, rule, uses, shares);
    end_refused(ledger, answer)
}

/// Runs a day from its opening to its share-out. The first refusal of a call ends the day.
pub fn run_day<P: Profile, R: ShareRule>(
    ledger: &mut Ledger,
    inputs: &DayInputs,
    sheet: &mut [Point],
    profile: &P,
    rule: &R,
    uses: &mut [u64],
    shares: &mut [u64],
) -> Result<SharedOut, Refusal>
    ensures { SharesAtMost 1 ledger.old.book ledger.new.book }
{
    let day = measured_day(ledger, inputs)?;
    shared_out(ledger, day, sheet, profile, rule, uses, shares)
}
