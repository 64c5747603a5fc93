//! Ledgers with their traders and points.
ghost use Rattle.std.specs.Prelude.{◌≡◌, IfOk};
ghost use Rattle.ledger.specs.Accounts.{new_book};
ghost use Rattle.scenario.specs.Days.{SharesAtMost};

use ledger::{Ledger, Particulars, Point};
use refusals::Refusal;

fn admit_traders(ledger: &mut Ledger, traders: u32) -> Result<(), Refusal>
    ensures { SharesAtMost 0 ledger.old.book ledger.new.book }
{
    for _ in 0..traders {
        ledger.admit_trader()?;
    }
    Ok(())
}

fn admit_points(
    ledger: &mut Ledger,
    points: &[Particulars],
    sheet: &mut [Point],
) -> Result<(), Refusal>
    ensures { SharesAtMost 0 ledger.old.book ledger.new.book }
{
    for given in points {
        ledger.admit_point(sheet, *given)?;
    }
    Ok(())
}

/// A new ledger with so many traders, and with these points in the first places of the sheet; or
/// the refusal of the first admission that is refused.
pub fn new_ledger(
    first_day: u32,
    traders: u32,
    points: &[Particulars],
    sheet: &mut [Point],
) -> Result<Ledger, Refusal>
    ensures { IfOk result (λ ledger. SharesAtMost 0 (new_book first_day) ledger.book) }
{
    let mut ledger = Ledger::new(first_day);
    admit_traders(&mut ledger, traders)?;
    admit_points(&mut ledger, points, sheet)?;
    Ok(ledger)
}
