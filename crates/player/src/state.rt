//! What a call works on: the station, its open slips and the sheets.
ghost use Rattle.std.specs.Prelude.{◌≡◌};

use crate::sheets::Sheets;
use crate::slips::Slips;
use crate::station::Station;
use ledger::MAX_POINTS;
use refusals::Refusal;
use std::alloc::AllocError;

/// The station, its open slips and the sheets.
pub struct State {
    pub(crate) station: Station,
    pub(crate) slips: Slips,
    pub(crate) sheets: Sheets,
}

impl State {
    // Reads a point: the number of its slip. Only a lack of memory ends the playing.
    pub(crate) fn read(
        &mut self,
        point: usize,
        reading: u32,
    ) -> Result<Result<u32, Refusal>, AllocError> {
        self.slips.reserve()?;
        let sheet = self.sheets.points.as_mut_slice();
        Ok(
            self.station.read(sheet, point, reading).map(|slip| {
                let number = slip.number();
                self.slips.put(slip);
                number
            }),
        )
    }

    // Books the point's open slip: the correction in litres.
    pub(crate) fn book(&mut self, point: usize) -> Result<i64, Refusal> {
        let none = self.no_slip(point);
        let slip = self.slips.take(point).ok_or(none)?;
        let answer = self.station.book(self.sheets.points.as_mut_slice(), slip);
        self.slips.keep(answer)
    }

    // Hands the point of an open slip over: the correction in litres.
    pub(crate) fn hand_over(&mut self, point: usize, trader: u32) -> Result<i64, Refusal> {
        let fits = self.sheets.points.len() <= MAX_POINTS;
        let none = if fits && trader >= self.station.ledger().counts().traders {
            Refusal::NoSuchTrader
        } else {
            self.no_slip(point)
        };
        let slip = self.slips.take(point).ok_or(none)?;
        let sheet = self.sheets.points.as_mut_slice();
        let answer = self.station.hand_over(sheet, slip, trader);
        self.slips.keep(answer)
    }

    // Withdraws the point's open slip: its number.
    pub(crate) fn withdraw(&mut self, point: usize) -> Result<u32, Refusal>
        ensures { self.new.station.ledger.book ≡ self.old.station.ledger.book }
    {
        let none = self.no_slip(point);
        let slip = self.slips.take(point).ok_or(none)?;
        let number = slip.number();
        let sheet = self.sheets.points.as_mut_slice();
        let answer = self.station.ledger().withdraw(sheet, slip);
        self.slips.keep(answer)?;
        Ok(number)
    }

    // Why a call that needs an open slip of a point is refused where it has none.
    fn no_slip(&self, point: usize) -> Refusal {
        if self.sheets.points.len() > MAX_POINTS {
            Refusal::PointSheetLength
        } else if point >= self.station.ledger().counts().points {
            Refusal::NoSuchPoint
        } else {
            Refusal::NotOpenSlip
        }
    }
}
