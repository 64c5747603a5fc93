//! The open quantity of a trader.
ghost use Rattle.std.specs.Prelude.{◌≡◌, ◌^◌, ◌<◌, sum_by};
ghost use Rattle.std.specs.List.{list_all};
ghost use Rattle.rows.specs.Rows.{is_summable, open_sum_of};
ghost use Rattle.ledger.specs.Days.{open_quantity};

use super::Ledger;
use refusals::Refusal;
use rows::Point;

// Whether the trader's rows lie within their ranges.
fn are_summable(rows: &[Point], trader: u32) -> bool
    ensures { result ≡ list_all (is_summable trader) rows.now }
{
    rows.iter().all(|row| row.is_summable(trader))
}

// The open sums of the trader's rows.
fn open_sums(rows: &[Point], trader: u32) -> u64
    requires { sum_by (open_sum_of trader) rows.now < 2 ^ 64 }
    ensures { result ≡ sum_by (open_sum_of trader) rows.now }
{
    rows.iter().map(|row| row.open_sum_of(trader)).sum()
}

impl Ledger {
    /// The open sums of a trader's points together, in litres; or refusal 1, 3 or 11.
    pub fn open_quantity(&self, sheet: &[Point], trader: u32) -> Result<u64, Refusal>
        ensures { result ≡ open_quantity self.now.book sheet.now trader }
    {
        let rows = self.rows(sheet)?;
        self.trader(trader)?;
        if !are_summable(rows, trader) {
            return Err(Refusal::ForeignSheet);
        }
        Ok(open_sums(rows, trader))
    }
}
