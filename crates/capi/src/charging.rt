//! The charge and the fee of each charge rule (docs/CHARGES.md). Quantities are in MJ, 0 to
//! 1,000,000,000,000, and rates in thousandths of a forint for each MJ, 0 to 1,000,000; where one
//! is above its limit, the call is refused by 10. The C interface takes each number by itself.
ghost use Rattle.std.specs.Prelude.{◌≡◌, ◌*◌};
ghost use Rattle.charges.specs.Quantity.{ok_or_energy, value_in_limits};
ghost use Rattle.charges.specs.Nomination.{nomination_of, nomination_fits, nomination_charge};
ghost use Rattle.charges.specs.Balance.{balance_of, balance_fits, balance_charge};
ghost use Rattle.charges.specs.Offers.{offers_of};
ghost use Rattle.charges.specs.OfferedBalance.{offered_balance_of, offered_balance_fits, offered_balance_charge};
ghost use Rattle.charges.specs.Tariff.{rate_fits};
ghost use Rattle.capi.specs.Charging.{charge_answer, fee_answer};

use super::answer::Answer;
use charges::balance::{Balance, OfferedBalance};
use charges::nomination::Nomination;
use charges::rules::Charge;
use charges::tariff::Tariff;
use refusals::Refusal;

// A balance with its negative and its positive offers, each given by HEG and HEGO.
fn offered_balance(
    balance: (u64, u64),
    negative: (u64, u64),
    positive: (u64, u64),
) -> Result<OfferedBalance, Refusal>
    ensures { let offered =
        offered_balance_of (balance_of balance.0 balance.1)
        (offers_of negative.0 negative.1) (offers_of positive.0 positive.1)
        in
        result ≡ value_in_limits offered_balance_fits offered }
{
    Ok(OfferedBalance {
        balance: balance.try_into()?,
        negative: negative.try_into()?,
        positive: positive.try_into()?,
    })
}

// The fee for a charge of any rule.
fn fee<C: Charge>(rule: &C, rate: u64) -> Result<u64, Refusal>
    ensures { result ≡ ok_or_energy (rate_fits rate) (C.charge rule.now * rate) }
{
    Ok(Tariff::new(rate)?.fee(rule))
}

/// The MJ to be charged on a nomination.
#[unsafe(no_mangle)]
pub extern "C" fn keldrava_nomination_charge(nominated: u64, actual: u64) -> Answer
    ensures { let nomination = nomination_of nominated actual in
        result ≡ charge_answer nomination_fits nomination_charge nomination }
{
    Nomination::try_from((nominated, actual))
        .map(|nomination| nomination.charge())
        .into()
}

/// The fee for the charge on a nomination, in thousandths of a forint.
#[unsafe(no_mangle)]
pub extern "C" fn keldrava_nomination_fee(nominated: u64, actual: u64, rate: u64) -> Answer
    ensures { let nomination = nomination_of nominated actual in
        result ≡ fee_answer nomination_fits nomination_charge nomination rate }
{
    Nomination::try_from((nominated, actual))
        .and_then(|nomination| fee(&nomination, rate))
        .into()
}

/// The MJ to be charged on a balance without offers.
#[unsafe(no_mangle)]
pub extern "C" fn keldrava_balance_charge(source: u64, consumption: u64) -> Answer
    ensures { let balance = balance_of source consumption in
        result ≡ charge_answer balance_fits balance_charge balance }
{
    Balance::try_from((source, consumption))
        .map(|balance| balance.charge())
        .into()
}

/// The fee for the charge on a balance without offers, in thousandths of a forint.
#[unsafe(no_mangle)]
pub extern "C" fn keldrava_balance_fee(source: u64, consumption: u64, rate: u64) -> Answer
    ensures { let balance = balance_of source consumption in
        result ≡ fee_answer balance_fits balance_charge balance rate }
{
    Balance::try_from((source, consumption))
        .and_then(|balance| fee(&balance, rate))
        .into()
}

/// The MJ to be charged on a balance with offers: negative ones serve a surplus, positive ones a
/// deficit.
#[unsafe(no_mangle)]
pub extern "C" fn keldrava_offered_balance_charge(
    source: u64,
    consumption: u64,
    negative_heg: u64,
    negative_hego: u64,
    positive_heg: u64,
    positive_hego: u64,
) -> Answer
    ensures { let offered =
        offered_balance_of (balance_of source consumption)
        (offers_of negative_heg negative_hego) (offers_of positive_heg positive_hego)
        in
        result ≡ charge_answer offered_balance_fits offered_balance_charge offered }
{
    let negative = (negative_heg, negative_hego);
    let positive = (positive_heg, positive_hego);
    offered_balance((source, consumption), negative, positive)
        .map(|offered| offered.charge())
        .into()
}

/// The fee for the charge on a balance with offers, in thousandths of a forint.
#[unsafe(no_mangle)]
pub extern "C" fn keldrava_offered_balance_fee(
    source: u64,
    consumption: u64,
    negative_heg: u64,
    negative_hego: u64,
    positive_heg: u64,
    positive_hego: u64,
    rate: u64,
) -> Answer
    ensures { let offered =
        offered_balance_of (balance_of source consumption)
        (offers_of negative_heg negative_hego) (offers_of positive_heg positive_hego)
        in
        result ≡ fee_answer offered_balance_fits offered_balance_charge offered rate }
{
    let negative = (negative_heg, negative_hego);
    let positive = (positive_heg, positive_hego);
    offered_balance((source, consumption), negative, positive)
        .and_then(|offered| fee(&offered, rate))
        .into()
}
