//! Charges for deviations from what was nominated or balanced, and the fee for them, as
//! docs/CHARGES.md has them.
#![tactic(auto)]

pub mod balance;
mod limit;
pub mod megajoules;
pub mod nomination;
pub mod rules;
pub mod tariff;
