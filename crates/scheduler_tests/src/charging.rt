//! The charges: each rule at, just inside and just past its tolerance and its offers, at 0 and at
//! the limit; fee and tariff.
use charges::balance::{Balance, OfferedBalance};
use charges::megajoules::Megajoules;
use charges::nomination::Nomination;
use charges::rules::{Charge, Tolerance};
use charges::tariff::Tariff;
use refusals::Refusal;
use std::process::Abort;
use std::test::Fail;

// The largest quantity, in MJ.
const LIMIT: u64 = 1_000_000_000_000;

// Nominated, actual, and the MJ charged. 12 per cent of 1,000 are 120, and of 1,008 they are 120
// too.
const NOMINATIONS: [(u64, u64, u64); 16] = [
    (1000, 1000, 0),
    (1000, 1119, 0),
    (1000, 1120, 0),
    (1000, 1121, 1),
    (1000, 881, 0),
    (1000, 880, 0),
    (1000, 879, 1),
    (1008, 1128, 0),
    (1008, 1129, 1),
    (0, 0, 0),
    (0, 1, 1),
    (0, LIMIT, LIMIT),
    (LIMIT, LIMIT, 0),
    (LIMIT, 880_000_000_000, 0),
    (LIMIT, 879_999_999_999, 1),
    (LIMIT, 0, 880_000_000_000),
];

// Source, consumption, and the MJ charged. 2 per cent of 5,049 are 100.
const BALANCES: [(u64, u64, u64); 13] = [
    (5049, 4950, 0),
    (5049, 4949, 0),
    (5049, 4948, 1),
    (5049, 5148, 0),
    (5049, 5149, 0),
    (5049, 5150, 1),
    (0, 0, 0),
    (0, 1, 1),
    (0, LIMIT, LIMIT),
    (LIMIT, LIMIT, 0),
    (LIMIT, 980_000_000_000, 0),
    (LIMIT, 979_999_999_999, 1),
    (LIMIT, 0, 980_000_000_000),
];

// Source, consumption, negative and positive offers, each as HEG and HEGO, and the MJ charged.
type Offered = (u64, u64, (u64, u64), (u64, u64), u64);

// A surplus of 1,000, of which 200 are tolerated; the offers lie below, just below, at and above
// it, or below the tolerance.
const SURPLUSES: [Offered; 8] = [
    (10_000, 9000, (400, 300), (0, 0), 300),
    (10_000, 9000, (600, 399), (0, 0), 1),
    (10_000, 9000, (600, 400), (0, 0), 0),
    (10_000, 9000, (600, 401), (0, 0), 0),
    (10_000, 9000, (100, 50), (0, 0), 800),
    (10_000, 9000, (100, 100), (0, 0), 800),
    (10_000, 9000, (100, 101), (0, 0), 799),
    (10_000, 9000, (0, 0), (600, 400), 800),
];

// A deficit of 1,000, of which 180 are tolerated, in the same way.
const DEFICITS: [Offered; 8] = [
    (9000, 10_000, (0, 0), (400, 300), 300),
    (9000, 10_000, (0, 0), (600, 399), 1),
    (9000, 10_000, (0, 0), (600, 400), 0),
    (9000, 10_000, (0, 0), (600, 401), 0),
    (9000, 10_000, (0, 0), (100, 50), 820),
    (9000, 10_000, (0, 0), (100, 80), 820),
    (9000, 10_000, (0, 0), (100, 81), 819),
    (9000, 10_000, (600, 400), (0, 0), 820),
];

// At the tolerance without any offers, at 0 and at the limit.
const ENDS: [Offered; 12] = [
    (5049, 4950, (0, 0), (0, 0), 0),
    (5049, 4949, (0, 0), (0, 0), 0),
    (5049, 4948, (0, 0), (0, 0), 1),
    (5049, 5148, (0, 0), (0, 0), 0),
    (5049, 5149, (0, 0), (0, 0), 0),
    (5049, 5150, (0, 0), (0, 0), 1),
    (5000, 5000, (0, 0), (0, 0), 0),
    (0, 0, (0, 0), (0, 0), 0),
    (0, LIMIT, (LIMIT, LIMIT), (0, 0), LIMIT),
    (0, LIMIT, (0, 0), (LIMIT, 0), 0),
    (LIMIT, 0, (0, 0), (LIMIT, LIMIT), 980_000_000_000),
    (LIMIT, 0, (LIMIT, LIMIT), (0, 0), 0),
];

// The rule charges so much, and says that it is inside exactly where that is nothing.
fn check_rule<C: Charge>(rt: &impl Abort, rule: &C, charged: u64) {
    assert_eq!(rt; rule.charge(), charged);
    assert_eq!(rt; rule.is_inside(), charged == 0);
}

// Each rule of two quantities charges what its row says.
fn check_rows<C: Charge + TryFrom<(u64, u64), Error = Refusal> + Drop>(
    rt: &impl Abort,
    rows: &[(u64, u64, u64)],
) -> Result<(), Fail> {
    for (basis, other, charged) in rows {
        check_rule(rt, &C::try_from((*basis, *other))?, *charged);
    }
    Ok(())
}

// Each balance with offers charges what its row says.
fn check_offered(rt: &impl Abort, rows: &[Offered]) -> Result<(), Fail> {
    for (source, consumption, negative, positive, charged) in rows {
        let rule = OfferedBalance {
            balance: (*source, *consumption).try_into()?,
            negative: (*negative).try_into()?,
            positive: (*positive).try_into()?,
        };
        check_rule(rt, &rule, *charged);
    }
    Ok(())
}

#[test]
fn nominations(rt: HostRuntime) -> Result<(), Fail> {
    check_rows::<Nomination>(&rt, &NOMINATIONS)
}

#[test]
fn balances(rt: HostRuntime) -> Result<(), Fail> {
    check_rows::<Balance>(&rt, &BALANCES)
}

#[test]
fn surpluses_with_offers(rt: HostRuntime) -> Result<(), Fail> {
    check_offered(&rt, &SURPLUSES)
}

#[test]
fn deficits_with_offers(rt: HostRuntime) -> Result<(), Fail> {
    check_offered(&rt, &DEFICITS)
}

#[test]
fn ends_with_offers(rt: HostRuntime) -> Result<(), Fail> {
    check_offered(&rt, &ENDS)
}

#[test]
fn quantities(rt: HostRuntime) {
    assert_eq!(rt; Megajoules::new(0).err(), None);
    assert_eq!(rt; Megajoules::new(LIMIT).err(), None);
    assert_eq!(rt; Megajoules::new(LIMIT + 1).err(), Some(Refusal::Energy));
    assert_eq!(rt; Megajoules::new(u64::MAX).err(), Some(Refusal::Energy));
}

#[test]
fn fees(rt: HostRuntime) -> Result<(), Fail> {
    let largest = Nomination::try_from((0, LIMIT))?;
    let mut tariff = Tariff::new(1_000_000)?;
    assert_eq!(rt; tariff.fee(&largest), 1_000_000_000_000_000_000);
    assert_eq!(rt; tariff.fee(&Nomination::try_from((1000, 1120))?), 0);
    tariff.set_rate(250)?;
    assert_eq!(rt; tariff.fee(&Nomination::try_from((1000, 1121))?), 250);
    assert_eq!(rt; tariff.fee(&Balance::try_from((5049, 4948))?), 250);
    tariff.set_rate(0)?;
    assert_eq!(rt; tariff.fee(&largest), 0);
    Ok(())
}

#[test]
fn settings_of_a_tariff(rt: HostRuntime) -> Result<(), Fail> {
    let mut tariff = Tariff::new(12)?;
    assert_eq!(rt; tariff.settings(), 0);
    tariff.set_rate(12)?;
    tariff.set_rate(1_000_000)?;
    assert_eq!(rt; tariff.settings(), 2);
    assert_eq!(rt; tariff.set_rate(1_000_001), Err(Refusal::Energy));
    assert_eq!(rt; tariff.set_rate(u64::MAX), Err(Refusal::Energy));
    assert_eq!(rt; tariff.rate(), 1_000_000);
    assert_eq!(rt; tariff.settings(), 2);
    Ok(())
}

#[test]
fn a_tariff_above_the_limit(rt: HostRuntime) {
    assert_eq!(rt; Tariff::new(1_000_001).err(), Some(Refusal::Energy));
}
