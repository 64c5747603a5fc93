//! An energy quantity in whole MJ.
ghost use Rattle.std.specs.Prelude.{◌≡◌, ℕ, ◌≤◌};
ghost use Rattle.std.specs.Int.{abs_diff};
ghost use Rattle.charges.specs.Quantity.{max_mj, fits, value_in_limits};
ghost use Rattle.charges.specs.Tolerance.{tolerance};

use super::limit::at_most;
use refusals::Refusal;
use std::marker::Model;

/// The largest quantity, in MJ.
pub const MAX_MJ: u64 = 1_000_000_000_000;

/// A quantity of 0 to 1,000,000,000,000 MJ (docs/CHARGES.md). In contracts it is its number of MJ.
#[derive(Clone, Copy)]
pub struct Megajoules(u64);

impl Model for Megajoules {
    ghost Value = { ℕ };

    ghost view = { λ q. q.0 };

    ghost invariant = { λ q. q.0 ≤ max_mj };

    ghost inverse = { λ mj. record { 0 = mj } };
}

/// From a number of MJ. One above 1,000,000,000,000 is refused by 10.
impl TryFrom<u64> for Megajoules {
    type Error = Refusal;

    ghost try_from_gives = { λ mj r. r ≡ value_in_limits fits mj };

    fn try_from(mj: u64) -> Result<Megajoules, Refusal> {
        Ok(Megajoules(at_most(MAX_MJ, mj)?))
    }
}

impl Megajoules {
    /// A quantity of so many MJ. More than 1,000,000,000,000 are refused by 10.
    pub fn new(mj: u64) -> Result<Megajoules, Refusal>
        ensures { result ≡ value_in_limits fits mj }
    {
        mj.try_into()
    }

    /// The number of MJ.
    pub fn mj(self) -> u64
        ensures value { result ≡ self }
        ensures bound { result ≤ max_mj }
    {
        self.0
    }

    /// How far apart two quantities are.
    pub(super) fn abs_diff(self, other: Megajoules) -> Megajoules
        ensures { result ≡ abs_diff self other }
    {
        Megajoules(self.0.abs_diff(other.0))
    }

    /// The whole MJ in so many per cent of this quantity.
    pub(super) fn per_cent(self, percent: u64) -> u64
        requires { percent ≤ 100 }
        ensures { result ≡ tolerance self percent }
    {
        self.mj() * percent / 100
    }
}
