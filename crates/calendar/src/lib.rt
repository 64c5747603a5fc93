//! The days of the years 2000 to 2099, as docs/CALENDAR.md has them.
#![tactic(auto)]

pub mod date;
pub mod flat_rate;
mod months;
mod years;
