//! Profiles: which factors belong to a segment of customers in a weather (docs/RULES.md,
//! "Profiles").
#![tactic(auto)]

mod even;
mod factors;
mod profile;
mod season;
mod sheet;
mod table;
mod weather;

pub use even::EvenProfile;
pub use factors::{Factors, WHOLE};
pub use profile::Profile;
pub use season::SeasonLayer;
pub use table::TableProfile;
pub use weather::Weather;

#[cfg(test)]
mod tests;
