//! A ledger with the one day that runs on it. The day's token is held here, so that a journal need
//! not name it.
ghost use Rattle.std.specs.Prelude.{◌≡◌, List, true};
ghost use Rattle.rows.specs.declared.point.Point.{Point as Row};
ghost use Rattle.ledger.specs.Accounts.{new_book};
ghost use Rattle.ledger.specs.Days.{trader_admission, point_admission};
ghost use Rattle.ledger.specs.Grounds.{call_answer};
ghost use Rattle.ledger.specs.Outcomes.{Became};
ghost use Rattle.ledger.specs.Readings.{reading_at, booking, hand_over};
ghost use Rattle.ledger.specs.Sharing.{inputs_of, work_sheets_of};
ghost use Rattle.player.specs.RunningDay.{is_tied, number_of, idle_fault};
ghost use Rattle.player.specs.Station.{day_opening, day_entry, day_measurement, day_abandonment, closed_book, SharesDayOut};

use crate::sheets::Sheets;
use ledger::{
    Ledger, MAX_LITRES, MAX_POINTS, MAX_RATE, MeasuredDay, OpenDay, Particulars, Point, Refused,
    SharedOut, Slip,
};
use profiles::{Profile, Weather};
use refusals::Refusal;
use shares::ShareRule;
use std::mem::replace;

/// The token of the running day.
pub enum RunningDay {
    Idle,
    Open(OpenDay),
    Measured(MeasuredDay),
}

impl RunningDay {
    // The day's number, by openings from 1; or refusal 20.
    fn number(&self) -> Result<u32, Refusal>
        ensures { result ≡ call_answer (idle_fault self.now) (number_of self.now) }
    {
        match self {
            RunningDay::Idle => Err(Refusal::NotRunning),
            RunningDay::Open(day) => Ok(day.number()),
            RunningDay::Measured(day) => Ok(day.number()),
        }
    }

    // Lets a day run where none does.
    fn begin(&mut self, day: RunningDay)
        requires { self.old ≡ RunningDay.Idle }
        ensures { self.new ≡ day }
    {
        match replace(self, day) {
            RunningDay::Idle => {}
            _ => unreachable(),
        }
    }
}

/// A ledger and its running day. Each call is the ledger's; refusals are by number
/// (docs/REFUSALS.md).
pub struct Station {
    ledger: Ledger,
    running: RunningDay,
    ghost tied: { is_tied ledger.book.phase running ≡ true },
}

impl Station {
    /// A new ledger, whose first day is `first_day` (docs/CALENDAR.md), and no day running.
    pub fn new(first_day: u32) -> Station
        ensures state { result.ledger.book ≡ new_book first_day }
        ensures idle { result.running ≡ RunningDay.Idle }
    {
        Station {
            ledger: Ledger::new(first_day),
            running: RunningDay::Idle,
        }
    }

    pub(crate) fn ledger(&self) -> &Ledger
        ensures { result.now ≡ self.now.ledger }
    {
        &self.ledger
    }

    // Admits a trader: his number; or refusal 26.
    pub(crate) fn admit_trader(&mut self) -> Result<u32, Refusal>
        ensures became { (s : List Row) →
            Became (trader_admission self.old.ledger.book s) result self.new.ledger.book s }
        ensures day { self.new.running ≡ self.old.running }
    {
        self.ledger.admit_trader()
    }

    // Admits a point: its number; or refusal 1, 3, 7 or 26.
    pub(crate) fn admit_point(
        &mut self,
        sheet: &mut [Point],
        given: Particulars,
    ) -> Result<usize, Refusal>
        ensures became { Became (point_admission self.old.ledger.book sheet.old given)
            result self.new.ledger.book sheet.new }
        ensures day { self.new.running ≡ self.old.running }
    {
        self.ledger.admit_point(sheet, given)
    }

    // Reads a point: its slip; or refusal 1, 4, 7, 11, 27 or 28.
    pub(crate) fn read(
        &mut self,
        sheet: &mut [Point],
        point: usize,
        reading: u32,
    ) -> Result<Slip, Refusal>
        ensures became { Became (reading_at self.old.ledger.book sheet.old point reading)
            result self.new.ledger.book sheet.new }
    {
        self.ledger.read(sheet, point, reading)
    }

    // Books a slip: the correction in litres; or refusal 1, 4, 11 or 21.
    pub(crate) fn book(&mut self, sheet: &mut [Point], slip: Slip) -> Result<i64, Refused<Slip>>
        ensures became { Became (booking self.old.ledger.book sheet.old slip)
            result self.new.ledger.book sheet.new }
    {
        self.ledger.book(sheet, slip)
    }

    // Hands a slip's point over: the correction in litres; or refusal 1, 3, 4, 11, 21 or 29.
    pub(crate) fn hand_over(
        &mut self,
        sheet: &mut [Point],
        slip: Slip,
        trader: u32,
    ) -> Result<i64, Refused<Slip>>
        ensures became { Became (hand_over self.old.ledger.book sheet.old slip trader)
            result self.new.ledger.book sheet.new }
    {
        self.ledger.hand_over(sheet, slip, trader)
    }

    // Opens a day: its number, by openings from 1; or refusal 5, 22 or 23.
    pub(crate) fn open(&mut self, weather: Weather) -> Result<u32, Refusal>
        ensures became { (s : List Row) →
            Became (day_opening self.old.ledger.book s weather) result self.new.ledger.book s }
    {
        match &self.running {
            RunningDay::Idle => {
                let day = self.ledger.open(weather)?;
                let number = day.number();
                self.running.begin(RunningDay::Open(day));
                Ok(number)
            }
            _ if weather.is_in_range() => Err(Refusal::DayRunning),
            _ => Err(Refusal::Weather),
        }
    }

    // Enters metered litres into the open day: the trader's metered sum of the day, in litres; or
    // refusal 3, 6, 20 or 24.
    pub(crate) fn enter(&mut self, trader: u32, litres: u64) -> Result<u64, Refusal>
        ensures became { (s : List Row) →
            Became (day_entry self.old.ledger.book s self.old.running trader litres)
            result self.new.ledger.book s }
        ensures day { self.new.running ≡ self.old.running }
    {
        match &self.running {
            RunningDay::Open(day) => {
                self.ledger.enter(day, trader, litres)?;
                self.ledger.metered(trader)
            }
            _ if trader >= self.ledger.counts().traders => Err(Refusal::NoSuchTrader),
            _ if litres > MAX_LITRES => Err(Refusal::Litres),
            _ => Err(Refusal::NotRunning),
        }
    }

    // Takes the open day's inflow in litres, at a loss rate in millionths: the day's number; or
    // refusal 6, 20 or 25.
    pub(crate) fn take_inflow(&mut self, litres: u64, rate: u32) -> Result<u32, Refusal>
        ensures became { (s : List Row) →
            Became (day_measurement self.old.ledger.book s self.old.running litres rate)
            result self.new.ledger.book s }
    {
        match replace(&mut self.running, RunningDay::Idle) {
            RunningDay::Open(day) => {
                let number = day.number();
                match self.ledger.take_inflow(day, litres, rate) {
                    Ok(day) => {
                        self.running.begin(RunningDay::Measured(day));
                        Ok(number)
                    }
                    Err(Refused { why, given }) => {
                        self.running.begin(RunningDay::Open(given));
                        Err(why)
                    }
                }
            }
            running => {
                self.running.begin(running);
                Err(if litres > MAX_LITRES || rate > MAX_RATE {
                    Refusal::Litres
                } else {
                    Refusal::NotRunning
                })
            }
        }
    }

    // Shares the measured day out by a profile and a share rule; or refusal 1, 2, 11, 20, 30, 31 or
    // 32.
    pub(crate) fn share<P: Profile, R: ShareRule>(
        &mut self,
        profile: &P,
        rule: &R,
        sheets: &mut Sheets,
    ) -> Result<SharedOut, Refusal>
        ensures { let tells = P.Profile.tells profile.now in
            let handed = inputs_of tells P.Profile.segments R.ShareRule.shares
            sheets.old.uses.items sheets.old.shares.items in
            SharesDayOut self.old.ledger.book sheets.old.points.items self.old.running handed
            result self.new.ledger.book sheets.new.points.items
            (work_sheets_of sheets.new.uses.items sheets.new.shares.items) }
    {
        match replace(&mut self.running, RunningDay::Idle) {
            RunningDay::Measured(day) => match self.ledger.share_out(
                day,
                sheets.points.as_mut_slice(),
                profile,
                rule,
                sheets.uses.as_mut_slice(),
                sheets.shares.as_mut_slice(),
            ) {
                Ok(out) => Ok(out),
                Err(Refused { why, given }) => {
                    self.running.begin(RunningDay::Measured(given));
                    Err(why)
                }
            },
            running => {
                self.running.begin(running);
                Err(if sheets.points.len() > MAX_POINTS {
                    Refusal::PointSheetLength
                } else {
                    Refusal::NotRunning
                })
            }
        }
    }

    // Abandons the running day: its number; or refusal 20.
    pub(crate) fn abandon(&mut self) -> Result<u32, Refusal>
        ensures became { (s : List Row) →
            Became (day_abandonment self.old.ledger.book s self.old.running)
            result self.new.ledger.book s }
        ensures idle { self.new.running ≡ RunningDay.Idle }
    {
        let number = self.running.number()?;
        match replace(&mut self.running, RunningDay::Idle) {
            RunningDay::Idle => {}
            RunningDay::Open(day) => self.ledger.abandon_open(day).unwrap(),
            RunningDay::Measured(day) => self.ledger.abandon_measured(day).unwrap(),
        }
        Ok(number)
    }

    /// The ledger, its running day abandoned.
    pub fn close(mut self) -> Ledger
        ensures { result.book ≡ closed_book self.ledger.book self.running }
    {
        let _answer = self.abandon();
        let Station { ledger, running } = self;
        match running {
            RunningDay::Idle => ledger,
            _ => unreachable(),
        }
    }
}
