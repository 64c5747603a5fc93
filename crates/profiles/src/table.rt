//! The published table: residential and business customers, by temperature.
ghost use Rattle.std.specs.Prelude.{◌≡◌, true, replicate, is_ok, if◌then◌else◌};
ghost use Rattle.profiles.specs.Laws.{whole, factors_of, SameTells};
ghost use Rattle.profiles.specs.Sheets.{fill_answer};
ghost use Rattle.profiles.specs.Tables.{table_segments, table_cells, table_tells, Reads};
ghost use Rattle.profiles.specs.ProfileLaws.{table_few, table_tells_factors, table_tells_outside};

use crate::factors::{Factors, WHOLE};
use crate::profile::Profile;
use crate::sheet::Sheet;
use crate::weather::Weather;
use refusals::Refusal;

const TABLE_CELLS: usize = 762;

/// A sheet of factors, each both multiplier and day factor. Segment 0 is residential, segment 1
/// business.
#[derive(Drop)]
pub struct TableProfile {
    sheet: Sheet<TABLE_CELLS, WHOLE>,
}

impl TableProfile {
    /// A table of zeros, until a sheet is filled in.
    pub fn new() -> TableProfile
        ensures holds { result.sheet.numbers ≡ replicate table_cells 0 }
        ensures zero { SameTells (table_tells result.sheet.numbers) (λ _ _. factors_of 0 0) }
    {
        TableProfile {
            sheet: Sheet::filled(0),
        }
    }

    /// Takes a sheet of 2 x 381 factors over: the residential row first, then the business row,
    /// tenths rising from -8.0 to 30.0. Refused by 8 where it is of another length or a number is
    /// above one.
    pub fn fill(&mut self, sheet: &[u32]) -> Result<(), Refusal>
        ensures taken { result ≡ fill_answer table_cells whole sheet.now }
        ensures after { self.new.sheet.numbers
            ≡ (if is_ok result then sheet.now else self.old.sheet.numbers) }
        ensures read { is_ok result ≡ true → Reads sheet.now (table_tells self.new.sheet.numbers) }
    {
        self.sheet.fill(sheet)
    }
}

impl Profile for TableProfile {
    const SEGMENTS: u32 = 2;

    ghost segments = { table_segments };

    ghost tells = { λ p. table_tells p.sheet.numbers };

    ghost few = { table_few };

    ghost are_factors = { λ p. table_tells_factors p.sheet.numbers p.sheet.in_range };

    ghost outside = { λ p. table_tells_outside p.sheet.numbers };

    fn segments_of() -> u32 {
        Self::SEGMENTS
    }

    fn tell(&self, segment: u32, weather: Weather) -> Factors {
        if segment >= Self::SEGMENTS || !weather.is_in_range() {
            return Factors::NONE;
        }
        Factors::both(self.sheet.at(weather.place(segment)))
    }
}
