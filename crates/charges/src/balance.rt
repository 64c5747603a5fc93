//! The charge on the balance of a source and its consumption, without offers and with them.
ghost use Rattle.std.specs.Prelude.{◌≡◌, ◌*◌, ◌≤◌, refl};
ghost use Rattle.charges.specs.Quantity.{max_mj, value_in_limits};

use super::megajoules::Megajoules;
use super::rules::{Allowance, Charge, Tolerance, beyond, is_within};
use refusals::Refusal;

/// What a source gave, and what was consumed from it: a surplus where the source is not below the
/// consumption, else a deficit. 2 per cent of the source are tolerated (docs/CHARGES.md).
#[derive(Clone, Copy)]
pub struct Balance {
    pub source: Megajoules,
    pub consumption: Megajoules,
}

/// From the MJ of the source and the MJ consumed. One above 1,000,000,000,000 is refused by 10.
impl TryFrom<(u64, u64)> for Balance {
    ghost use Rattle.charges.specs.Balance.{balance_of, balance_fits};

    type Error = Refusal;

    ghost try_from_gives = { λ p r. r ≡ value_in_limits balance_fits (balance_of p.0 p.1) };

    fn try_from(mj: (u64, u64)) -> Result<Balance, Refusal> {
        Ok(Balance {
            source: mj.0.try_into()?,
            consumption: mj.1.try_into()?,
        })
    }
}

impl Tolerance for Balance {
    ghost use Rattle.charges.specs.Balance.{is_balance_inside};

    const PERCENT: u64 = 2;

    ghost is_inside = { is_balance_inside };

    fn is_inside(&self) -> bool {
        is_within(self.deviation(), self.allowance())
    }
}

impl Charge for Balance {
    ghost use Rattle.charges.specs.Balance.{balance_deviation, balance_charge};

    ghost deviation = { balance_deviation };

    ghost charge = { balance_charge };

    fn charge(&self) -> u64 {
        beyond(self.deviation(), self.allowance())
    }
}

impl Allowance for Balance {
    ghost use Rattle.charges.specs.Balance.{balance_tolerance};

    ghost percent = { 2 };

    ghost basis = { λ b. b.source };

    ghost allowance = { balance_tolerance };

    ghost is_inside_by_allowance = { λ _. refl };

    ghost charge_beyond_allowance = { λ _. refl };

    fn percent() -> u64 {
        Self::PERCENT
    }

    fn deviation(&self) -> Megajoules {
        self.source.abs_diff(self.consumption)
    }

    fn allowance(&self) -> u64 {
        self.source.per_cent(Self::PERCENT)
    }
}

/// The offers of one direction, by their two kinds, HEG and HEGO.
#[derive(Clone, Copy)]
pub struct Offers {
    pub heg: Megajoules,
    pub hego: Megajoules,
}

/// From the MJ of HEG and the MJ of HEGO. One above 1,000,000,000,000 is refused by 10.
impl TryFrom<(u64, u64)> for Offers {
    ghost use Rattle.charges.specs.Offers.{offers_of, offers_fit};

    type Error = Refusal;

    ghost try_from_gives = { λ p r. r ≡ value_in_limits offers_fit (offers_of p.0 p.1) };

    fn try_from(mj: (u64, u64)) -> Result<Offers, Refusal> {
        Ok(Offers {
            heg: mj.0.try_into()?,
            hego: mj.1.try_into()?,
        })
    }
}

impl Offers {
    ghost use Rattle.charges.specs.Offers.{total};

    /// The MJ of both kinds together.
    pub fn total(self) -> u64
        ensures value { result ≡ total self }
        ensures bound { result ≤ 2 * max_mj }
    {
        self.heg.mj() + self.hego.mj()
    }
}

/// A balance with offers against it: negative ones serve a surplus, positive ones a deficit
/// (docs/CHARGES.md).
#[derive(Clone, Copy)]
pub struct OfferedBalance {
    pub balance: Balance,
    pub negative: Offers,
    pub positive: Offers,
}

impl OfferedBalance {
    ghost use Rattle.charges.specs.OfferedBalance.{usable_offers};

    /// The MJ of the offers that serve this balance.
    pub fn usable_offers(self) -> u64
        ensures value { result ≡ usable_offers self }
        ensures bound { result ≤ 2 * max_mj }
    {
        if self.balance.source.mj() >= self.balance.consumption.mj() {
            self.negative.total()
        } else {
            self.positive.total()
        }
    }
}

impl Tolerance for OfferedBalance {
    ghost use Rattle.charges.specs.OfferedBalance.{is_offered_balance_inside};

    const PERCENT: u64 = Balance::PERCENT;

    ghost is_inside = { is_offered_balance_inside };

    fn is_inside(&self) -> bool {
        let deviation = self.deviation();
        is_within(deviation, self.allowance())
    }
}

impl Charge for OfferedBalance {
    ghost use Rattle.charges.specs.Balance.{balance_deviation};
    ghost use Rattle.charges.specs.OfferedBalance.{offered_balance_charge};

    ghost deviation = { λ b. balance_deviation b.balance };

    ghost charge = { offered_balance_charge };

    fn charge(&self) -> u64 {
        let deviation = self.deviation();
        beyond(deviation, self.allowance())
    }
}

impl Allowance for OfferedBalance {
    ghost use Rattle.charges.specs.OfferedBalance.{offered_balance_allowance};
    ghost use Rattle.charges.specs.OfferedBalanceLaws.{is_offered_balance_inside_lem};

    ghost percent = { 2 };

    ghost basis = { λ b. b.balance.source };

    ghost allowance = { offered_balance_allowance };

    ghost is_inside_by_allowance = { is_offered_balance_inside_lem };

    ghost charge_beyond_allowance = { λ _. refl };

    fn percent() -> u64 {
        Self::PERCENT
    }

    fn deviation(&self) -> Megajoules {
        self.balance.deviation()
    }

    fn allowance(&self) -> u64 {
        self.balance.allowance().max(self.usable_offers())
    }
}
