//! What every profile keeps.
ghost use Rattle.std.specs.Prelude.{◌≡◌, ℕ, ◌≤◌};
ghost use Rattle.profiles.specs.declared.factors.Factors.{Factors};
ghost use Rattle.profiles.specs.declared.weather.Weather.{Weather};
ghost use Rattle.profiles.specs.Laws.{TellsFactors, TellsZeroOutside};

use crate::factors::Factors;
use crate::weather::Weather;

/// Two factors for each segment and weather (docs/RULES.md, "Profiles"). They depend on these and
/// on what the profile holds; asking changes nothing.
pub trait Profile {
    /// The number of segments served, 1 to 8: segments 0 up to it.
    const SEGMENTS: u32;

    // The number that `segments_of` returns. It is not tied to the constant, which the check cannot
    // do for a type that borrows.
    ghost segments: { ℕ };

    ghost tells: { Self → ℕ → Weather → Factors };

    /// The number of segments served, for code over any profile.
    fn segments_of() -> u32
        ensures { result ≡ segments };

    /// The factors of a segment in a weather, and 0 and 0 where either is out of range. It never
    /// refuses.
    fn tell(&self, segment: u32, weather: Weather) -> Factors
        ensures { result ≡ tells self.now segment weather };

    ghost few: { (1 ≤ segments) × (segments ≤ 8) };

    ghost are_factors: { (p : Self) → TellsFactors (tells p) };

    ghost outside: { (p : Self) → TellsZeroOutside segments (tells p) };
}
