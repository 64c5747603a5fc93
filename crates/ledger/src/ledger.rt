//! The public calls. Each contract says what the call becomes of the ledger and its sheets, and by
//! `run` that it is the next step of the ledger's history. No call asks anything of its caller: bad
//! input is refused by its number (docs/REFUSALS.md) and changes nothing.
ghost use Rattle.std.specs.Prelude.{◌≡◌, ℕ, ◌+◌, ◌*◌, ◌≤◌, true, false, List, [], length, take, MatchResult};
ghost use Rattle.refusals.specs.declared.Refusal.TheVariants.{PointSheetLength};
ghost use Rattle.rows.specs.declared.point.Point.{Point as Row};
ghost use Rattle.rows.specs.Rows.{sheet_fits};
ghost use Rattle.rows.specs.Within.{IsWithin};
ghost use Rattle.ledger.specs.Accounts.{new_book, trader_at, IsSound, all_accounts};
ghost use Rattle.ledger.specs.Days.{trader_fault, account_answer, metered_answer};
ghost use Rattle.ledger.specs.Grounds.{call_answer};
ghost use Rattle.ledger.specs.History.{IsHistoryOf};

use crate::book::{Book, Counts, Trader};
use refusals::Refusal;
use rows::{MAX_POINTS, Point};

mod admit;
mod days;
mod quantity;
mod readings;
mod share;

/// A ledger. What always holds of its book is in its type.
#[derive(Drop)]
pub struct Ledger {
    book: Book,
    ghost sound: { IsSound book },
}

impl Ledger {
    /// A new ledger, whose first day may be any day number: past 36,524, which is 31 December 2099,
    /// no day will open.
    pub fn new(first_day: u32) -> Ledger
        ensures state { result.book ≡ new_book first_day }
        ensures run { (s : List Row) → IsHistoryOf [] result.book s }
    {
        Ledger {
            book: Book::new(first_day),
        }
    }

    // The rows of the points admitted: the sheet's first ones, where it is long enough for them and
    // not over the limit.
    fn rows<'a>(&self, sheet: &'a [Point]) -> Result<&'a [Point], Refusal>
        ensures { let n = self.now.book.counts.points in
            MatchResult result
            (λ rows. (sheet_fits n sheet.now ≡ true) × (rows.now ≡ take n sheet.now))
            (λ why. (sheet_fits n sheet.now ≡ false) × (why ≡ PointSheetLength)) }
    {
        if sheet.len() > MAX_POINTS {
            return Err(Refusal::PointSheetLength);
        }
        sheet
            .get(..self.book.counts.points)
            .ok_or(Refusal::PointSheetLength)
    }

    // A trader's record.
    fn trader(&self, number: u32) -> Result<Trader, Refusal>
        ensures { result ≡ call_answer (trader_fault self.now.book number)
            (trader_at self.now.book.traders number) }
    {
        if number < self.book.counts.traders {
            Ok(self.book.traders[number as usize])
        } else {
            Err(Refusal::NoSuchTrader)
        }
    }

    /// A trader's account in litres, below 0 where he owes; or refusal 3.
    pub fn account(&self, trader: u32) -> Result<i64, Refusal>
        ensures { result ≡ account_answer self.now.book trader }
    {
        Ok(self.trader(trader)?.account)
    }

    /// A trader's metered sum of today in litres; or refusal 3.
    pub fn metered(&self, trader: u32) -> Result<u64, Refusal>
        ensures { result ≡ metered_answer self.now.book trader }
    {
        Ok(self.trader(trader)?.metered)
    }

    /// All traders' accounts together, in litres.
    pub fn accounts(&self) -> i128
        ensures value { result ≡ all_accounts self.now.book.traders }
        ensures bound { IsWithin result 400_000_000_000_000_000_000 }
    {
        let mut all = 0;
        for trader in &self.book.traders {
            all += i128::from(trader.account);
        }
        all
    }

    /// How many traders, points, days and readings there have been.
    pub fn counts(&self) -> Counts
        ensures { result ≡ self.now.book.counts }
    {
        self.book.counts
    }

    /// The day number that is shared out next.
    pub fn next_day(&self) -> u32
        ensures { result ≡ self.now.book.next_day }
    {
        self.book.next_day
    }

    /// The loss account, in litres.
    pub fn loss(&self) -> u64
        ensures { result ≡ self.now.book.loss }
    {
        self.book.loss
    }

    /// The distributor's correction account, in litres.
    pub fn correction(&self) -> i64
        ensures { result ≡ self.now.book.correction }
    {
        self.book.correction
    }
}
