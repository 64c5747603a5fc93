//! The text of a journal, as docs/JOURNAL.md has it: lines, words, numbers, and the calls that they
//! say.
#![tactic(auto)]

pub mod call;
pub mod fault;
pub mod kind;
pub mod lines;
pub mod number;
pub mod table;
pub mod words;
