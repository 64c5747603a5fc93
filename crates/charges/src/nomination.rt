//! The charge on what was drawn beside the nomination.
ghost use Rattle.std.specs.Prelude.{◌≡◌, refl};

use super::megajoules::Megajoules;
use super::rules::{Allowance, Charge, Tolerance, beyond, is_within};
use refusals::Refusal;

/// What was nominated for a day, and what was then drawn. 12 per cent of what was nominated are
/// tolerated (docs/CHARGES.md).
#[derive(Clone, Copy)]
pub struct Nomination {
    pub nominated: Megajoules,
    pub actual: Megajoules,
}

/// From the MJ nominated and the MJ drawn. One above 1,000,000,000,000 is refused by 10.
impl TryFrom<(u64, u64)> for Nomination {
    ghost use Rattle.charges.specs.Quantity.{value_in_limits};
    ghost use Rattle.charges.specs.Nomination.{nomination_of, nomination_fits};

    type Error = Refusal;

    ghost try_from_gives = { λ p r. r ≡ value_in_limits nomination_fits (nomination_of p.0 p.1) };

    fn try_from(mj: (u64, u64)) -> Result<Nomination, Refusal> {
        Ok(Nomination {
            nominated: mj.0.try_into()?,
            actual: mj.1.try_into()?,
        })
    }
}

impl Tolerance for Nomination {
    ghost use Rattle.charges.specs.Nomination.{is_nomination_inside};

    const PERCENT: u64 = 12;

    ghost is_inside = { is_nomination_inside };

    fn is_inside(&self) -> bool {
        is_within(self.deviation(), self.allowance())
    }
}

impl Charge for Nomination {
    ghost use Rattle.charges.specs.Nomination.{nomination_deviation, nomination_charge};

    ghost deviation = { nomination_deviation };

    ghost charge = { nomination_charge };

    fn charge(&self) -> u64 {
        beyond(self.deviation(), self.allowance())
    }
}

impl Allowance for Nomination {
    ghost use Rattle.charges.specs.Nomination.{nomination_tolerance};

    ghost percent = { 12 };

    ghost basis = { λ n. n.nominated };

    ghost allowance = { nomination_tolerance };

    ghost is_inside_by_allowance = { λ _. refl };

    ghost charge_beyond_allowance = { λ _. refl };

    fn percent() -> u64 {
        Self::PERCENT
    }

    fn deviation(&self) -> Megajoules {
        self.actual.abs_diff(self.nominated)
    }

    fn allowance(&self) -> u64 {
        self.nominated.per_cent(Self::PERCENT)
    }
}
