//! Admitting traders and points.
ghost use Rattle.std.specs.Prelude.{◌≡◌, List};
ghost use Rattle.rows.specs.declared.point.Point.{Point as Row};
ghost use Rattle.ledger.specs.Days.{trader_admission, point_admission_fault, point_admission};
ghost use Rattle.ledger.specs.Grounds.{call_answer};
ghost use Rattle.ledger.specs.History.{Step, TraderAdmitted, PointAdmitted};
ghost use Rattle.ledger.specs.Outcomes.{Became};

use super::Ledger;
use refusals::Refusal;
use rows::{MAX_TRADERS, Particulars, Point};

impl Ledger {
    /// Admits a trader: his number, 0 to 63; or refusal 26.
    pub fn admit_trader(&mut self) -> Result<u32, Refusal>
        ensures became { (s : List Row) →
            Became (trader_admission self.old.book s) result self.new.book s }
        ensures run { (s : List Row) →
            Step (TraderAdmitted result) self.old.book s self.new.book s }
    {
        let number = self.book.counts.traders;
        if number >= MAX_TRADERS {
            return Err(Refusal::NoPlace);
        }
        self.book.counts.traders += 1;
        Ok(number)
    }

    fn check_point(&self, sheet: &[Point], given: Particulars) -> Result<(), Refusal>
        ensures { result ≡ call_answer (point_admission_fault self.now.book sheet.now given) tt }
    {
        let rows = self.rows(sheet)?;
        self.trader(given.trader)?;
        if !given.fit() {
            return Err(Refusal::Particulars);
        }
        if rows.len() >= sheet.len() {
            return Err(Refusal::NoPlace);
        }
        Ok(())
    }

    /// Admits a point: writes its row at the next place of the sheet, and gives its number, from 0;
    /// or refusal 1, 3, 7 or 26.
    pub fn admit_point(&mut self, sheet: &mut [Point], given: Particulars) -> Result<usize, Refusal>
        ensures became { Became (point_admission self.old.book sheet.old given)
            result self.new.book sheet.new }
        ensures run { Step (PointAdmitted given result)
            self.old.book sheet.old self.new.book sheet.new }
    {
        self.check_point(sheet, given)?;
        let number = self.book.counts.points;
        sheet[number] = given.into();
        self.book.counts.points += 1;
        Ok(number)
    }
}
