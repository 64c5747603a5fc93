//! The charges and the calendar for C (docs/C-INTERFACE.md): plain numbers in, a status and plain
//! numbers out. Any number may be handed in: what the rules do not allow is answered by the
//! refusal's number. `include/keldrava.h` declares these functions.
#![tactic(auto)]

mod answer;
pub mod charging;
pub mod days;
