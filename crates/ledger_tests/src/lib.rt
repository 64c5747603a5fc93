//! Tests of the ledger's calls: each refusal once, with ledger and sheets seen before and after,
//! and days and bookings worked out by hand.
#![tactic(auto)]

#[cfg(test)]
mod abandon;
#[cfg(test)]
mod admit;
#[cfg(test)]
mod days;
#[cfg(test)]
mod enter;
#[cfg(test)]
mod inflow;
#[cfg(test)]
mod open;
#[cfg(test)]
mod quantity;
#[cfg(test)]
mod readings;
#[cfg(test)]
mod seen;
#[cfg(test)]
mod share;
#[cfg(test)]
mod station;
#[cfg(test)]
mod worked;
