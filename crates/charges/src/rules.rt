//! What a tolerance rule and a charge rule are, and one that charges what lies beyond an allowance.
ghost use Rattle.std.specs.Prelude.{◌≡◌, ℕ, ◌-◌, ◌≤◌, ◌↔◌, Bool, IsTrue, nat_le};
ghost use Rattle.charges.specs.Quantity.{max_mj};
ghost use Rattle.charges.specs.Tolerance.{tolerance};

use super::megajoules::Megajoules;

/// A rule that says whether a deviation is inside what is free of charge (docs/CHARGES.md).
pub trait Tolerance {
    /// How many per cent of the rule's basis are tolerated.
    const PERCENT: u64;

    ghost is_inside: { Self → Bool };

    /// Whether the deviation is free of charge.
    fn is_inside(&self) -> bool
        ensures { result ≡ is_inside self.now };
}

/// A tolerance rule that also gives the MJ to be charged: none exactly where the deviation is
/// inside, and never more than the deviation (docs/CHARGES.md).
pub trait Charge: Tolerance {
    // The size of the deviation, in MJ.
    ghost deviation: { Self → ℕ };

    ghost charge: { Self → ℕ };

    /// The MJ to be charged, 0 to 1,000,000,000,000.
    fn charge(&self) -> u64
        ensures value { result ≡ charge self.now }
        ensures none_inside { (result ≡ 0) ↔ IsTrue (Self.is_inside self.now) }
        ensures at_most { result ≤ deviation self.now }
        ensures bound { result ≤ max_mj };
}

/// A charge rule that charges what lies beyond an allowance: a deviation of at most that is inside,
/// and of a larger one the rest is charged (docs/CHARGES.md).
pub trait Allowance: Charge {
    // The number that `percent` returns. It is not tied to the constant, which the check cannot do
    // for a type that borrows.
    ghost percent: { ℕ };

    // The MJ that the percentage is taken of.
    ghost basis: { Self → ℕ };

    ghost allowance: { Self → ℕ };

    /// How many per cent of the basis are free of charge at least, for code over any rule.
    fn percent() -> u64
        ensures { result ≡ percent };

    /// How far apart the rule's two quantities are.
    fn deviation(&self) -> Megajoules
        ensures { result ≡ Self.deviation self.now };

    /// The MJ of a deviation that are free of charge.
    fn allowance(&self) -> u64
        ensures value { result ≡ allowance self.now }
        ensures tolerance { tolerance (basis self.now) percent ≤ result };

    // A rule's own meaning of inside is a deviation of at most its allowance.
    ghost is_inside_by_allowance: { (r : Self)
        → Self.is_inside r ≡ nat_le (Self.deviation r) (allowance r) };

    // A rule's own meaning of the charge is the deviation beyond its allowance.
    ghost charge_beyond_allowance: { (r : Self) → Self.charge r ≡ Self.deviation r - allowance r };
}

/// Whether a deviation is at most an allowance of so many MJ: the judgement of every rule here.
pub(super) fn is_within(deviation: Megajoules, allowance: u64) -> bool
    ensures { result ≡ nat_le deviation allowance }
{
    deviation.mj() <= allowance
}

/// The MJ of a deviation beyond an allowance of so many MJ: the charge of every rule here.
pub(super) fn beyond(deviation: Megajoules, allowance: u64) -> u64
    ensures value { result ≡ deviation - allowance }
    ensures bound { result ≤ max_mj }
{
    deviation.mj().saturating_sub(allowance)
}
