//! A tariff: its rate, and how often that was set.
ghost use Rattle.std.specs.Prelude.{◌≡◌, ◌*◌, ◌<◌, ◌≤◌, IsTrue, IfOk, IfErr, OnOk, OnErr};
ghost use Rattle.refusals.specs.declared.Refusal.TheVariants.{Energy};
ghost use Rattle.charges.specs.Quantity.{max_mj, ok_or_energy};
ghost use Rattle.charges.specs.Tariff.{max_rate, rate_fits, next_count};

use super::limit::at_most;
use super::rules::Charge;
use refusals::Refusal;

/// The highest rate, in thousandths of a forint for each MJ.
pub const MAX_RATE: u64 = 1_000_000;

/// The rate of a fee, in thousandths of a forint for each MJ, and the count of its settings
/// (docs/CHARGES.md).
#[derive(Drop)]
pub struct Tariff {
    rate: u64,
    settings: u32,
    ghost limit: { rate ≤ max_rate },
}

impl Tariff {
    /// A tariff of a rate that was not yet set again. A rate above 1,000,000 is refused by 10.
    pub fn new(rate: u64) -> Result<Tariff, Refusal>
        ensures ok { IfOk result (λ t. (rate ≤ max_rate) × (t.rate ≡ rate) × (t.settings ≡ 0)) }
        ensures err { IfErr result (λ e. (max_rate < rate) × (e ≡ Energy)) }
    {
        Ok(Tariff {
            rate: at_most(MAX_RATE, rate)?,
            settings: 0,
        })
    }

    /// The rate, in thousandths of a forint for each MJ.
    pub fn rate(&self) -> u64
        ensures value { result ≡ self.now.rate }
        ensures bound { result ≤ max_rate }
    {
        self.rate
    }

    /// How often the rate was set since the tariff was new; 4,294,967,295 stands for that many and
    /// more.
    pub fn settings(&self) -> u32
        ensures { result ≡ self.now.settings }
    {
        self.settings
    }

    /// Sets the rate, also to what it is, and counts it. A rate above 1,000,000 is refused by 10.
    pub fn set_rate(&mut self, rate: u64) -> Result<(), Refusal>
        ensures answer { result ≡ ok_or_energy (rate_fits rate) tt }
        ensures ok { OnOk result
            ((self.new.rate ≡ rate) × (self.new.settings ≡ next_count self.old.settings)) }
        ensures err { OnErr result (self.new ≡ self.old) }
    {
        *self = Tariff {
            rate: at_most(MAX_RATE, rate)?,
            settings: self.settings.saturating_add(1),
        };
        Ok(())
    }

    /// The fee for a charge of any rule, in thousandths of a forint: the MJ charged times the rate.
    pub fn fee<C: Charge>(&self, rule: &C) -> u64
        ensures value { result ≡ C.charge rule.now * self.now.rate }
        ensures none_inside { IsTrue (C.is_inside rule.now) → result ≡ 0 }
        ensures bound { result ≤ max_mj * max_rate }
    {
        rule.charge() * self.rate
    }
}

#[cfg(test)]
mod tests {
    use super::*;
    use std::test::Fail;

    // A tariff whose rate was set so often.
    fn set_often(settings: u32) -> Tariff {
        Tariff { rate: 7, settings }
    }

    #[test]
    fn the_last_setting_counts(rt: HostRuntime) -> Result<(), Fail> {
        let mut tariff = set_often(4_294_967_294);
        tariff.set_rate(8)?;
        assert_eq!(rt; tariff.rate(), 8);
        assert_eq!(rt; tariff.settings(), 4_294_967_295);
        Ok(())
    }

    #[test]
    fn the_count_stays_at_its_end(rt: HostRuntime) -> Result<(), Fail> {
        let mut tariff = set_often(4_294_967_295);
        tariff.set_rate(7)?;
        tariff.set_rate(0)?;
        assert_eq!(rt; tariff.rate(), 0);
        assert_eq!(rt; tariff.settings(), 4_294_967_295);
        Ok(())
    }
}
