//! Plays the calls of a journal on one ledger and prints what each returned (docs/JOURNAL.md).
#![tactic(auto)]

mod closing;
mod named;
pub mod player;
mod recipe;
pub mod report;
pub mod sheets;
pub mod slips;
pub mod state;
pub mod station;
pub mod trouble;
