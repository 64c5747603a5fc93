//! Tests of the calendar and of the charges, at the ends of every range. What is expected was
//! worked out from the rules.
#![tactic(auto)]

#[cfg(test)]
mod charging;
#[cfg(test)]
mod days;
#[cfg(test)]
mod own_rules;
