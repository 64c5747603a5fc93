//! The limits of the ledger (docs/RULES.md); those of rows stand in `rows`.

/// The most litres of a day's inflow, of one entry, and of a day's metered litres together.
pub const MAX_LITRES: u64 = 1_000_000_000;

/// The highest loss rate, in millionths: all of the inflow.
pub const MAX_RATE: u32 = 1_000_000;

pub(crate) const MAX_SHARED: u32 = 4000;

pub(crate) const MAX_OPENED: u32 = 1_000_000;

pub(crate) const MAX_READINGS: u32 = 1_000_000;

// 31 December 2099. The calendar has the number too; the ledger does not stand on it.
pub(crate) const LAST_DAY: u32 = 36524;
