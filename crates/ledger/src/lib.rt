//! The station's ledger: traders and their accounts, the running gas day, and the calls that change
//! them. The points lie in a sheet that the caller owns and hands in.
#![tactic(auto)]

mod book;
mod day;
mod ledger;
mod limits;
mod measured;
mod slip;

pub use book::Counts;
pub use day::{OpenDay, SharedOut};
pub use ledger::Ledger;
pub use limits::{MAX_LITRES, MAX_RATE};
pub use measured::MeasuredDay;
pub use refusals::Refused;
pub use rows::{MAX_POINTS, Particulars, Point};
pub use slip::Slip;
