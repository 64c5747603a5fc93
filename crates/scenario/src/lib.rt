//! Ledgers and gas days made ready, for the crates that try, print and time them. A day cannot be
//! let go, so each function here returns the day that it is handed or ends it.
#![tactic(auto)]

mod calls;
mod day;
mod running;
mod station;

pub use calls::{abandon, enter, open, share_out, take_inflow};
pub use day::{Day, end, end_refused};
pub use running::{DayInputs, Entry, measured_day, run_day, shared_out};
pub use station::new_ledger;
