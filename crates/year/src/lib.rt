//! The law of the year, on a public call: the totals of a ledger and its sheet.
#![tactic(auto)]

ghost use Rattle.std.specs.Prelude.{◌≡◌, pos, ◌+ℤ◌};
ghost use Rattle.ledger.specs.Accounts.{all_accounts};
ghost use Rattle.ledger.specs.History.{History, IsHistoryOf};
ghost use Rattle.year.specs.Settlements.{settlements};
ghost use Rattle.year.specs.Quantities.{inflow_of};
ghost use Rattle.year.specs.Law.{YearLaw};

use ledger::{Ledger, Point};

/// Where the litres are: the inflow of the days shared out lies in the loss, the traders' accounts
/// and the correction account (docs/RULES.md).
#[derive(Clone, Copy)]
pub struct Balance {
    /// The inflow of the days shared out, in litres.
    pub inflow: i128,
    /// The loss account, in litres.
    pub loss: u64,
    /// All traders' accounts together, in litres.
    pub accounts: i128,
    /// The distributor's correction account, in litres.
    pub correction: i64,
}

/// The totals of a ledger. Whatever list of calls led to the ledger and this sheet, the law of the
/// year holds of them, and the inflow is that of the days shared out.
pub fn totals(ledger: &Ledger, _sheet: &[Point]) -> Balance
    ensures loss { result.loss ≡ ledger.now.book.loss }
    ensures accounts { result.accounts ≡ all_accounts ledger.now.book.traders }
    ensures correction { result.correction ≡ ledger.now.book.correction }
    ensures sum { result.inflow ≡ pos result.loss +ℤ result.accounts +ℤ result.correction }
    ensures inflow { (h : History) → IsHistoryOf h ledger.now.book _sheet.now →
        result.inflow ≡ pos (inflow_of (settlements h)) }
    ensures law { (h : History) → IsHistoryOf h ledger.now.book _sheet.now →
        YearLaw (settlements h) ledger.now.book _sheet.now }
{
    let loss = ledger.loss();
    let accounts = ledger.accounts();
    let correction = ledger.correction();
    Balance {
        inflow: i128::from(loss) + accounts + i128::from(correction),
        loss,
        accounts,
        correction,
    }
}
