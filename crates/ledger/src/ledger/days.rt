//! The day but for its share-out: opening, entering, taking the inflow, abandoning.
ghost use Rattle.std.specs.Prelude.{◌≡◌, ◌≤◌, List};
ghost use Rattle.rows.specs.declared.point.Point.{Point as Row};
ghost use Rattle.ledger.specs.Accounts.{metered_sum};
ghost use Rattle.ledger.specs.Days.{opening_fault, opening, entry_fault, metered_entry, loss_of, measurement_fault, measurement, abandonment};
ghost use Rattle.ledger.specs.Grounds.{call_answer};
ghost use Rattle.ledger.specs.History.{Step, Opened, Entered, InflowTaken, Abandoned};
ghost use Rattle.ledger.specs.Outcomes.{Became};
ghost use Rattle.ledger.specs.Tokens.{OpenToken, MeasuredToken, answer_with_day_token};

use super::Ledger;
use crate::day::{OpenDay, Phase, Token};
use crate::limits::{LAST_DAY, MAX_LITRES, MAX_OPENED, MAX_RATE, MAX_SHARED};
use crate::measured::MeasuredDay;
use profiles::Weather;
use refusals::{Refusal, Refused};

impl Ledger {
    fn check_opening(&self, weather: Weather) -> Result<(), Refusal>
        ensures { result ≡ call_answer (opening_fault self.now.book weather) tt }
    {
        if !weather.is_in_range() {
            return Err(Refusal::Weather);
        }
        if !self.book.phase.is_idle() {
            return Err(Refusal::DayRunning);
        }
        if self.book.counts.shared >= MAX_SHARED
            || self.book.counts.opened >= MAX_OPENED
            || self.book.next_day > LAST_DAY
        {
            return Err(Refusal::NoMoreDays);
        }
        Ok(())
    }

    /// Opens a day at a temperature and in a season; or refusal 5, 22 or 23.
    pub fn open(&mut self, weather: Weather) -> Result<OpenDay, Refusal>
        ensures became { (s : List Row) →
            Became (opening self.old.book s weather) result self.new.book s }
        ensures run { (s : List Row) →
            Step (Opened weather result) self.old.book s self.new.book s }
    {
        self.check_opening(weather)?;
        let number = self.book.counts.opened + 1;
        self.book.counts.opened = number;
        self.book.phase = Phase::Open { number, weather };
        Ok(OpenDay { number })
    }

    // The metered litres of all traders today.
    fn metered_sum(&self) -> u64
        ensures value { result ≡ metered_sum self.now.book.traders }
        ensures bound { result ≤ 1_000_000_000 }
    {
        self.book.traders.iter().map(|trader| trader.metered).sum()
    }

    fn check_entry(&self, day: &OpenDay, trader: u32, litres: u64) -> Result<(), Refusal>
        ensures { result ≡ call_answer (entry_fault self.now.book day.now trader litres) tt }
    {
        self.trader(trader)?;
        if litres > MAX_LITRES {
            return Err(Refusal::Litres);
        }
        if !day.is_running(self.book.phase) {
            return Err(Refusal::NotRunning);
        }
        if self.metered_sum() + litres > MAX_LITRES {
            return Err(Refusal::TooMuchMetered);
        }
        Ok(())
    }

    /// Adds litres, up to 1,000,000,000, to a trader's metered sum of today; or refusal 3, 6, 20 or
    /// 24.
    pub fn enter(&mut self, day: &OpenDay, trader: u32, litres: u64) -> Result<(), Refusal>
        ensures became { (s : List Row) →
            Became (metered_entry self.old.book s day.now trader litres) result self.new.book s }
        ensures run { (s : List Row) →
            Step (Entered day.now trader litres result) self.old.book s self.new.book s }
    {
        self.check_entry(day, trader, litres)?;
        self.book.traders[trader as usize].metered += litres;
        Ok(())
    }

    fn check_inflow(&self, day: &OpenDay, inflow: u64, rate: u32) -> Result<(), Refusal>
        ensures { result ≡ call_answer (measurement_fault self.now.book day.now inflow rate) tt }
    {
        if inflow > MAX_LITRES || rate > MAX_RATE {
            return Err(Refusal::Litres);
        }
        if !day.is_running(self.book.phase) {
            return Err(Refusal::NotRunning);
        }
        if loss_of(inflow, rate) + self.metered_sum() > inflow {
            return Err(Refusal::InflowTooSmall);
        }
        Ok(())
    }

    /// Takes the day's inflow, up to 1,000,000,000 litres, and its loss rate, up to 1,000,000
    /// millionths; or refusal 6, 20 or 25, which hands the day back.
    pub fn take_inflow(
        &mut self,
        day: OpenDay,
        inflow: u64,
        rate: u32,
    ) -> Result<MeasuredDay, Refused<OpenDay>>
        ensures became { (s : List Row) →
            Became (measurement self.old.book s day inflow rate) result self.new.book s }
        ensures run { (s : List Row) →
            Step (InflowTaken day inflow rate result) self.old.book s self.new.book s }
    {
        if let Err(why) = self.check_inflow(&day, inflow, rate) {
            return Err(Refused { why, given: day });
        }
        let loss = loss_of(inflow, rate);
        let quantity = inflow - loss - self.metered_sum();
        let weather = self.book.phase.weather();
        let OpenDay { number } = day;
        self.book.phase = Phase::Measured {
            number,
            weather,
            inflow,
            loss,
            quantity,
        };
        Ok(MeasuredDay { number })
    }

    // Ends the running day with nothing settled.
    fn abandon<T: Token>(&mut self, day: T) -> Result<(), Refused<T>>
        ensures became { (s : List Row) →
            Became (abandonment self.old.book s (T.Token.token day) day) result self.new.book s }
        ensures run { let returned = answer_with_day_token T.Token.token result in
            (s : List Row) →
            Step (Abandoned (T.Token.token day) returned) self.old.book s self.new.book s }
    {
        if !day.is_running(self.book.phase) {
            return Err(Refused {
                why: Refusal::NotRunning,
                given: day,
            });
        }
        day.end();
        self.book.end_day();
        Ok(())
    }

    /// Ends an open day with nothing settled; or refusal 20, which hands the day back.
    pub fn abandon_open(&mut self, day: OpenDay) -> Result<(), Refused<OpenDay>>
        ensures became { (s : List Row) →
            Became (abandonment self.old.book s (OpenToken day) day) result self.new.book s }
        ensures run { let returned = answer_with_day_token OpenToken result in
            (s : List Row) →
            Step (Abandoned (OpenToken day) returned) self.old.book s self.new.book s }
    {
        self.abandon(day)
    }

    /// Ends a measured day with nothing settled; or refusal 20, which hands the day back.
    pub fn abandon_measured(&mut self, day: MeasuredDay) -> Result<(), Refused<MeasuredDay>>
        ensures became { (s : List Row) →
            Became (abandonment self.old.book s (MeasuredToken day) day) result self.new.book s }
        ensures run { let returned = answer_with_day_token MeasuredToken result in
            (s : List Row) →
            Step (Abandoned (MeasuredToken day) returned) self.old.book s self.new.book s }
    {
        self.abandon(day)
    }
}

// The network loss of an inflow at a rate in millionths.
fn loss_of(inflow: u64, rate: u32) -> u64
    requires inflow { inflow ≤ 1_000_000_000 }
    requires rate { rate ≤ 1_000_000 }
    ensures value { result ≡ loss_of inflow rate }
    ensures bound { result ≤ inflow }
{
    inflow * u64::from(rate) / u64::from(MAX_RATE)
}
