//! What a profile gives.
ghost use Rattle.std.specs.Prelude.{◌≡◌};
ghost use Rattle.profiles.specs.Laws.{factors_of};

/// The factor one: a factor is a whole number of ten-millionths, from 0 to this.
pub const WHOLE: u32 = 10_000_000;

/// Two factors, in ten-millionths.
#[derive(Clone, Copy, Debug, PartialEq)]
pub struct Factors {
    /// Adds to a point's period sum.
    pub multiplier: u32,
    /// Makes a point's profile consumption from its scale factor.
    pub day: u32,
}

impl Factors {
    // One factor for both.
    pub(crate) fn both(factor: u32) -> Factors
        ensures { result ≡ factors_of factor factor }
    {
        Factors {
            multiplier: factor,
            day: factor,
        }
    }

    /// What a profile gives where it may not be asked.
    pub const NONE: Factors = Factors {
        multiplier: 0,
        day: 0,
    };
}
