//! Why a line is malformed.
use crate::kind::Kind;
use thiserror::Error;

/// Why a line is no call, as docs/JOURNAL.md has it ("Malformed lines"). A fault is no refusal of
/// the ledger: it has no number, and the run ends there.
#[derive(Clone, Copy, PartialEq, Eq, Debug, Error)]
pub enum Fault {
    #[error("no such call; `station --help` lists them")]
    UnknownCall,
    /// The call is known, and its words are not as it has them.
    #[error("the call is written: {}", .0.row())]
    Form(Kind),
    #[error("not a number: the digits 0 to 9 and nothing else")]
    NotNumber,
    #[error("a number too large for its place")]
    TooLarge,
    #[error("not a temperature: degrees with at most one decimal, as 10.5 or -8.1")]
    NotTemperature,
    #[error("not a name: letters, digits, - _ and . only")]
    NotName,
    #[error("a control character in a file's name")]
    NotFile,
    #[error("the share rule is `running` or `largest`")]
    NotRule,
}
