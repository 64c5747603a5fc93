//! A layer over any profile that scales the day factor of one segment by season and temperature.
ghost use Rattle.std.specs.Prelude.{◌≡◌, ◌<◌, ◌≤◌, true, replicate, is_ok, IfOk, if◌then◌else◌, MatchResult};
ghost use Rattle.refusals.specs.declared.Refusal.TheVariants.{Particulars};
ghost use Rattle.profiles.specs.Laws.{whole, SameTells};
ghost use Rattle.profiles.specs.Layers.{last_segment, layer_cells, max_season_number, layer_tells, Scales};
ghost use Rattle.profiles.specs.Sheets.{fill_answer};
ghost use Rattle.profiles.specs.ProfileLaws.{layer_tells_factors, layer_tells_outside};

use crate::factors::{Factors, WHOLE};
use crate::profile::Profile;
use crate::sheet::Sheet;
use crate::weather::{SEASONS, Weather};
use refusals::{Refusal, Refused};

const LAYER_CELLS: usize = 1524;

const MAX_SEASON_NUMBER: u32 = 20_000_000;

const LAST_SEGMENT: u32 = 7;

/// A sheet of season numbers for one segment, in ten-millionths, over the profile `P`.
#[derive(Drop)]
pub struct SeasonLayer<P> {
    below: P,
    segment: u32,
    sheet: Sheet<LAYER_CELLS, MAX_SEASON_NUMBER>,
    ghost in_range: { segment ≤ last_segment },
}

impl<P: Profile> SeasonLayer<P> {
    /// A layer for one segment, 0 to 7, that changes nothing until a sheet is filled in. Refused by
    /// 7 for another segment, with the profile handed back.
    pub fn new(below: P, segment: u32) -> Result<SeasonLayer<P>, Refused<P>>
        ensures holds { MatchResult result
            (λ l. (l.below ≡ below) × (l.segment ≡ segment)
            × (l.sheet.numbers ≡ replicate layer_cells whole))
            (λ e. (e.why ≡ Particulars) × (e.given ≡ below) × (last_segment < segment)) }
        ensures idle { IfOk result (λ l.
            SameTells (layer_tells l.segment l.sheet.numbers (P.Profile.tells l.below))
            (P.Profile.tells below)) }
    {
        if segment > LAST_SEGMENT {
            return Err(Refused {
                why: Refusal::Particulars,
                given: below,
            });
        }
        Ok(SeasonLayer {
            below,
            segment,
            sheet: Sheet::filled(WHOLE),
        })
    }

    /// Takes a sheet of 4 x 381 season numbers over: season 0 first, tenths rising from -8.0 to
    /// 30.0. Refused by 8 where it is of another length or a number is above two.
    pub fn fill(&mut self, sheet: &[u32]) -> Result<(), Refusal>
        ensures taken { result ≡ fill_answer layer_cells max_season_number sheet.now }
        ensures after { self.new.sheet.numbers
            ≡ (if is_ok result then sheet.now else self.old.sheet.numbers) }
        ensures rest { (self.new.below ≡ self.old.below) × (self.new.segment ≡ self.old.segment) }
        ensures scales { is_ok result ≡ true →
            Scales self.old.segment sheet.now
            (P.Profile.tells self.old.below)
            (layer_tells self.new.segment self.new.sheet.numbers
            (P.Profile.tells self.new.below)) }
    {
        self.sheet.fill(sheet)
    }
}

impl<P: Profile> Profile for SeasonLayer<P> {
    const SEGMENTS: u32 = P::SEGMENTS;

    ghost segments = { P.Profile.segments };

    ghost tells = { λ l. layer_tells l.segment l.sheet.numbers (P.Profile.tells l.below) };

    ghost few = { P.Profile.few };

    ghost are_factors = { λ l. layer_tells_factors l.segment l.sheet.numbers
        (P.Profile.tells l.below) (P.Profile.are_factors l.below) };

    ghost outside = { λ l. layer_tells_outside l.segment l.sheet.numbers
        (P.Profile.tells l.below) P.Profile.segments (P.Profile.outside l.below) };

    fn segments_of() -> u32 {
        P::segments_of()
    }

    fn tell(&self, segment: u32, weather: Weather) -> Factors {
        let below = self.below.tell(segment, weather);
        if segment != self.segment || weather.season >= SEASONS {
            return below;
        }
        let number = self.sheet.at(weather.place(u32::from(weather.season)));
        let day = u64::from(below.day) * u64::from(number) / u64::from(WHOLE);
        Factors {
            multiplier: below.multiplier,
            day: day.min(u64::from(WHOLE)) as u32,
        }
    }
}
