//! Shares a quantity of gas among points by their weights, to the litre.
#![tactic(auto)]

mod cut;
mod largest;
mod rule;
mod running;
mod sharing;

pub use largest::LargestRemainder;
pub use rule::{ProportionalRule, ShareRule};
pub use running::Running;
pub use sharing::{MAX_QUANTITY, MAX_WEIGHT, MAX_WEIGHTS, Sharing};

#[cfg(test)]
mod tests;
