//! The limits of rows and of their sheet (docs/RULES.md).

/// The most traders: their numbers are 0 to 63.
pub const MAX_TRADERS: u32 = 64;

/// The most places of a point sheet.
pub const MAX_POINTS: usize = 4096;

/// The largest scale factor, in litres at a day factor of one.
pub const MAX_SCALE_FACTOR: u32 = 2_000_000;

// Of a row's open sum in litres and of its period sum in ten-millionths.
pub(crate) const MAX_OPEN_SUM: u64 = 5_000_000_000_000;

pub(crate) const MAX_PERIOD_SUM: u64 = 40_000_000_000;

// What the two may be before one more day is shared out.
pub(crate) const FULL_OPEN_SUM: u64 = 4_500_000_000_000;

pub(crate) const FULL_PERIOD_SUM: u64 = 39_990_000_000;
