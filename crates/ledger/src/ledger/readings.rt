//! Readings: a slip is opened, and ended by a booking, a hand-over or a withdrawal.
ghost use Rattle.std.specs.Prelude.{◌≡◌, ◌<◌, Some, None, MatchResult};
ghost use Rattle.rows.specs.Bookings.{kept_correction};
ghost use Rattle.rows.specs.Rows.{row_at};
ghost use Rattle.ledger.specs.Grounds.{call_answer};
ghost use Rattle.ledger.specs.History.{Step, PointRead, Booked, HandedOver, Withdrawn};
ghost use Rattle.ledger.specs.Outcomes.{Became};
ghost use Rattle.ledger.specs.Readings.{row_fault, reading_fault, reading_at, booked_book, booking_fault, booking};
ghost use Rattle.ledger.specs.Readings.{hand_over_fault, hand_over, withdrawal_fault, withdrawal};

use super::Ledger;
use crate::limits::MAX_READINGS;
use crate::slip::Slip;
use refusals::{Refusal, Refused};
use rows::{FitRow, Point, dial_end};

impl Ledger {
    // The row of a point admitted.
    fn row(&self, sheet: &[Point], point: usize) -> Result<Point, Refusal>
        ensures { result ≡ call_answer (row_fault self.now.book.counts.points sheet.now point)
            (row_at sheet.now point) }
    {
        self.rows(sheet)?
            .get(point)
            .copied()
            .ok_or(Refusal::NoSuchPoint)
    }

    // The row of a point that can be read.
    fn readable(&self, sheet: &[Point], point: usize, reading: u32) -> Result<Point, Refusal>
        ensures { result ≡ call_answer (reading_fault self.now.book sheet.now point reading)
            (row_at sheet.now point) }
    {
        let row = self.row(sheet, point)?;
        if !row.fits() {
            return Err(Refusal::ForeignSheet);
        }
        if reading >= dial_end(row.digits) {
            return Err(Refusal::Particulars);
        }
        if !row.is_free() {
            return Err(Refusal::SlipOpen);
        }
        if self.book.counts.readings >= MAX_READINGS {
            return Err(Refusal::NoMoreReadings);
        }
        Ok(row)
    }

    /// Reads a point: its row keeps the reading, in dial units, until the slip ends; or refusal 1,
    /// 4, 11, 7, 27 or 28.
    pub fn read(&mut self, sheet: &mut [Point], point: usize, reading: u32) -> Result<Slip, Refusal>
        ensures became { Became (reading_at self.old.book sheet.old point reading)
            result self.new.book sheet.new }
        ensures run { Step (PointRead point reading result)
            self.old.book sheet.old self.new.book sheet.new }
    {
        let row = self.readable(sheet, point, reading)?;
        let number = self.book.counts.readings + 1;
        self.book.counts.readings = number;
        sheet[point] = row.with_slip(number, reading);
        Ok(Slip { number, point })
    }

    // The row of a slip that can be booked: its own open one, where there are fewer bookings than
    // readings.
    fn bookable(&self, sheet: &[Point], slip: &Slip) -> Result<FitRow, Refusal>
        ensures { let fault = booking_fault self.now.book sheet.now slip.now in
            MatchResult result
            (λ fit. (fault ≡ None) × (fit.row ≡ row_at sheet.now slip.now.point))
            (λ why. fault ≡ Some why) }
    {
        let row = self.row(sheet, slip.point)?;
        if !row.may_book(self.book.counts.traders) {
            return Err(Refusal::ForeignSheet);
        }
        if !row.is_slip(slip.number) || self.book.counts.bookings >= self.book.counts.readings {
            return Err(Refusal::NotOpenSlip);
        }
        Ok(FitRow { row })
    }

    // Adds the row's correction to its trader's account, and takes it from the distributor's.
    fn book_row(&mut self, fit: &FitRow) -> i64
        requires owned { fit.now.row.trader < self.old.book.counts.traders }
        requires left { self.old.book.counts.bookings < self.old.book.counts.readings }
        ensures moved { result ≡ kept_correction fit.now.row }
        ensures state { self.new.book ≡ booked_book self.old.book fit.now.row }
    {
        let by = fit.correction();
        self.book.traders[fit.row.trader as usize].account += by;
        self.book.correction -= by;
        self.book.counts.bookings += 1;
        by
    }

    /// Books a reading: the correction, in litres, is added to the trader's account and taken from
    /// the distributor's; or refusal 1, 4, 11 or 21, which hands the slip back.
    pub fn book(&mut self, sheet: &mut [Point], slip: Slip) -> Result<i64, Refused<Slip>>
        ensures became { Became (booking self.old.book sheet.old slip)
            result self.new.book sheet.new }
        ensures run { Step (Booked slip result) self.old.book sheet.old self.new.book sheet.new }
    {
        match self.bookable(sheet, &slip) {
            Err(why) => Err(Refused { why, given: slip }),
            Ok(fit) => {
                let Slip { number: _, point } = slip;
                let correction = self.book_row(&fit);
                sheet[point] = fit.booked(fit.row.trader);
                Ok(correction)
            }
        }
    }

    // The row of a point that can be handed over.
    fn transferable(&self, sheet: &[Point], slip: &Slip, trader: u32) -> Result<FitRow, Refusal>
        ensures { let fault = hand_over_fault self.now.book sheet.now slip.now trader in
            MatchResult result
            (λ fit. (fault ≡ None) × (fit.row ≡ row_at sheet.now slip.now.point))
            (λ why. fault ≡ Some why) }
    {
        self.rows(sheet)?;
        self.trader(trader)?;
        let fit = self.bookable(sheet, slip)?;
        if fit.row.trader == trader {
            return Err(Refusal::SameTrader);
        }
        Ok(fit)
    }

    /// Hands a point over: books the reading for the trader who had it, and then the point is the
    /// new trader's. The correction, in litres; or refusal 1, 3, 4, 11, 21 or 29, which hands the
    /// slip back.
    pub fn hand_over(
        &mut self,
        sheet: &mut [Point],
        slip: Slip,
        trader: u32,
    ) -> Result<i64, Refused<Slip>>
        ensures became { Became (hand_over self.old.book sheet.old slip trader)
            result self.new.book sheet.new }
        ensures run { Step (HandedOver slip trader result)
            self.old.book sheet.old self.new.book sheet.new }
    {
        match self.transferable(sheet, &slip, trader) {
            Err(why) => Err(Refused { why, given: slip }),
            Ok(fit) => {
                let Slip { number: _, point } = slip;
                let by = self.book_row(&fit);
                sheet[point] = fit.booked(trader);
                Ok(by)
            }
        }
    }

    // The row of a point whose open slip this is.
    fn withdrawable(&self, sheet: &[Point], slip: &Slip) -> Result<Point, Refusal>
        ensures { result ≡ call_answer (withdrawal_fault self.now.book sheet.now slip.now)
            (row_at sheet.now slip.now.point) }
    {
        let row = self.row(sheet, slip.point)?;
        if !row.is_slip(slip.number) {
            return Err(Refusal::NotOpenSlip);
        }
        Ok(row)
    }

    /// Withdraws a reading: the slip ends and nothing is booked; or refusal 1, 4 or 21, which hands
    /// the slip back.
    pub fn withdraw(&self, sheet: &mut [Point], slip: Slip) -> Result<(), Refused<Slip>>
        ensures became { Became (withdrawal self.now.book sheet.old slip)
            result self.now.book sheet.new }
        ensures run { Step (Withdrawn slip result) self.now.book sheet.old self.now.book sheet.new }
    {
        match self.withdrawable(sheet, &slip) {
            Err(why) => Err(Refused { why, given: slip }),
            Ok(row) => {
                let Slip { number: _, point } = slip;
                sheet[point] = row.with_slip(0, 0);
                Ok(())
            }
        }
    }
}
