//! Readings: each refusal once, with ledger and sheet seen before and after, and bookings worked
//! out by hand.
mod foreign;
mod read;
mod refused;
mod slips;
mod station;
mod worked;
