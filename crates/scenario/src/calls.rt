//! The ledger's calls on days, each with what it leaves of the running day.
ghost use Rattle.std.specs.Prelude.{◌≡◌, IfOk, IfErr, IsErr};
ghost use Rattle.ledger.specs.Tokens.{DayToken, OpenToken, MeasuredToken};
ghost use Rattle.scenario.specs.Days.{IsRunning, HandsBack, SharesAtMost};

use crate::day::Day;
use ledger::{Ledger, MeasuredDay, OpenDay, Point, Refused, SharedOut};
use profiles::{Profile, Weather};
use refusals::Refusal;
use shares::ShareRule;

/// Opens a day; or refusal 5, 22 or 23.
pub fn open(ledger: &mut Ledger, weather: Weather) -> Result<OpenDay, Refusal>
    ensures running { IfOk result (λ day. IsRunning ledger.new.book (OpenToken day)) }
    ensures refused { IfErr result (λ _. ledger.new.book ≡ ledger.old.book) }
    ensures one_at_a_time { (day : DayToken) → IsRunning ledger.old.book day → IsErr result }
    ensures shared { SharesAtMost 0 ledger.old.book ledger.new.book }
{
    ledger.open(weather)
}

/// Enters a trader's metered litres; or refusal 3, 6, 20 or 24.
pub fn enter(ledger: &mut Ledger, day: &OpenDay, trader: u32, litres: u64) -> Result<(), Refusal>
    ensures running { ledger.new.book.phase ≡ ledger.old.book.phase }
    ensures shared { SharesAtMost 0 ledger.old.book ledger.new.book }
{
    ledger.enter(day, trader, litres)
}

/// Takes the day's inflow in litres, at a loss rate in millionths; or refusal 6, 20 or 25.
pub fn take_inflow(
    ledger: &mut Ledger,
    day: OpenDay,
    inflow: u64,
    rate: u32,
) -> Result<MeasuredDay, Refused<OpenDay>>
    ensures running { IfOk result (λ measured. IsRunning ledger.new.book (MeasuredToken measured)) }
    ensures refused { HandsBack day ledger.old.book ledger.new.book result }
    ensures shared { SharesAtMost 0 ledger.old.book ledger.new.book }
{
    ledger.take_inflow(day, inflow, rate)
}

/// Shares a day out; or refusal 1, 2, 11, 20, 30, 31 or 32.
pub fn share_out<P: Profile, R: ShareRule>(
    ledger: &mut Ledger,
    day: MeasuredDay,
    sheet: &mut [Point],
    profile: &P,
    rule: &R,
    uses: &mut [u64],
    shares: &mut [u64],
) -> Result<SharedOut, Refused<MeasuredDay>>
    ensures refused { HandsBack day ledger.old.book ledger.new.book result }
    ensures shared { SharesAtMost 1 ledger.old.book ledger.new.book }
{
    ledger.share_out(day, sheet, profile, rule, uses, shares)
}

/// Abandons a day of any kind; or refusal 20.
pub fn abandon<D: Day>(ledger: &mut Ledger, day: D) -> Result<(), Refused<D>>
    ensures refused { HandsBack day ledger.old.book ledger.new.book result }
    ensures shared { SharesAtMost 0 ledger.old.book ledger.new.book }
{
    day.abandon_on(ledger)
}
