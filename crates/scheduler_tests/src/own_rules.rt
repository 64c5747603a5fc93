//! Charge rules that are written outside `charges`: a rule owes what the traits say, and no more.
ghost use Rattle.std.specs.Prelude.{◌≤◌, ◌<◌, min};
ghost use Rattle.charges.specs.Balance.{balance_deviation, balance_charge, is_balance_inside};
ghost use Rattle.charges.specs.Nomination.{nomination_deviation, nomination_charge, is_nomination_inside};

use charges::balance::Balance;
use charges::nomination::Nomination;
use charges::rules::{Charge, Tolerance};
use charges::tariff::Tariff;
use std::process::Abort;
use std::test::Fail;

// A nomination's charge, but never more than a cap.
#[derive(Clone, Copy)]
struct Capped {
    nomination: Nomination,
    // with a cap of 0 a deviation outside would cost nothing
    cap: u64,
    ghost some: { 0 < cap },
}

impl Tolerance for Capped {
    const PERCENT: u64 = Nomination::PERCENT;

    ghost is_inside = { λ c. is_nomination_inside c.nomination };

    fn is_inside(&self) -> bool {
        self.nomination.is_inside()
    }
}

impl Charge for Capped {
    ghost deviation = { λ c. nomination_deviation c.nomination };

    ghost charge = { λ c. min (nomination_charge c.nomination) c.cap };

    fn charge(&self) -> u64 {
        self.nomination.charge().min(self.cap)
    }
}

// A balance that is only lent.
#[derive(Clone, Copy)]
struct Lent<'a> {
    balance: &'a Balance,
}

impl<'a> Tolerance for Lent<'a> {
    const PERCENT: u64 = Balance::PERCENT;

    ghost is_inside = { λ l. is_balance_inside l.balance.now };

    fn is_inside(&self) -> bool {
        self.balance.is_inside()
    }
}

impl<'a> Charge for Lent<'a> {
    ghost deviation = { λ l. balance_deviation l.balance.now };

    ghost charge = { λ l. balance_charge l.balance.now };

    fn charge(&self) -> u64 {
        self.balance.charge()
    }
}

// 12 per cent of 1,000 are 120: 180 of 300 are charged, of which the cap leaves 100.
#[test]
fn a_capped_rule(rt: HostRuntime) -> Result<(), Fail> {
    let nomination = Nomination::try_from((1000, 1300))?;
    let tariff = Tariff::new(3)?;
    let rule = Capped {
        nomination,
        cap: 100,
    };
    assert!(rt; !rule.is_inside() && rule.charge() == 100 && tariff.fee(&rule) == 300);
    Ok(())
}

// 2 per cent of 5,049 are 100, and 101 are off.
#[test]
fn a_rule_over_a_lent_balance(rt: HostRuntime) -> Result<(), Fail> {
    let balance = Balance::try_from((5049, 4948))?;
    let tariff = Tariff::new(3)?;
    let rule = Lent { balance: &balance };
    assert!(rt; !rule.is_inside() && rule.charge() == 1 && tariff.fee(&rule) == 3);
    Ok(())
}
