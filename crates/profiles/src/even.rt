//! The even profile: one factor for every segment and weather.
ghost use Rattle.std.specs.Prelude.{◌≡◌, ◌<◌, ◌≤◌, MatchResult};
ghost use Rattle.refusals.specs.declared.Refusal.TheVariants.{ProfileSheet};
ghost use Rattle.profiles.specs.Laws.{whole};
ghost use Rattle.profiles.specs.Even.{even_segments, even_tells};
ghost use Rattle.profiles.specs.ProfileLaws.{even_few, even_tells_factors, even_tells_outside};

use crate::factors::{Factors, WHOLE};
use crate::profile::Profile;
use crate::weather::Weather;
use refusals::Refusal;

/// One factor, as multiplier and as day factor, for 8 segments.
#[derive(Drop)]
pub struct EvenProfile {
    factor: u32,
    ghost in_range: { factor ≤ whole },
}

impl EvenProfile {
    /// Refused by 8 where the factor is above one.
    pub fn new(factor: u32) -> Result<EvenProfile, Refusal>
        ensures { MatchResult result
            (λ p. p.factor ≡ factor)
            (λ why. (why ≡ ProfileSheet) × (whole < factor)) }
    {
        if factor > WHOLE {
            return Err(Refusal::ProfileSheet);
        }
        Ok(EvenProfile { factor })
    }
}

impl Profile for EvenProfile {
    const SEGMENTS: u32 = 8;

    ghost segments = { even_segments };

    ghost tells = { λ p. even_tells p.factor };

    ghost few = { even_few };

    ghost are_factors = { λ p. even_tells_factors p.factor p.in_range };

    ghost outside = { λ p. even_tells_outside p.factor };

    fn segments_of() -> u32 {
        Self::SEGMENTS
    }

    fn tell(&self, segment: u32, weather: Weather) -> Factors {
        if segment >= Self::SEGMENTS || !weather.is_in_range() {
            return Factors::NONE;
        }
        Factors::both(self.factor)
    }
}
