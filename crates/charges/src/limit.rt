//! Numbers that have a limit.
ghost use Rattle.std.specs.Prelude.{◌≡◌, nat_le};
ghost use Rattle.charges.specs.Quantity.{ok_or_energy};

use refusals::Refusal;

/// The number itself, unless it is above its limit.
pub(super) fn at_most(limit: u64, number: u64) -> Result<u64, Refusal>
    ensures { result ≡ ok_or_energy (nat_le number limit) number }
{
    if number > limit {
        return Err(Refusal::Energy);
    }
    Ok(number)
}
