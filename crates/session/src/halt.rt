//! Why the playing of a journal stopped, and how the program ends.
use journal::fault::Fault;
use journal::lines::SheetFault;
use player::slips::Unended;
use player::trouble::Trouble;
use std::alloc::AllocError;
use std::io;
use thiserror::Error;

/// Why a journal is played no further. It is printed on standard error with the line, and the
/// status is then 1: docs/JOURNAL.md, "Malformed lines".
#[derive(Clone, Copy, Debug, Error)]
pub enum Halt {
    #[error("no call: a journal begins with `ledger DAY`; `station --help` says more")]
    Empty,
    #[error("{0}")]
    Line(#[from] Fault),
    #[error("{0}")]
    Place(#[from] Trouble),
    #[error("the file's name is not UTF-8 text")]
    FileName,
    #[error("there is no such file; it is looked for from the journal's folder")]
    NoFile,
    #[error("the file cannot be read")]
    Unreadable,
    #[error("{0}")]
    Sheet(#[from] SheetFault),
    #[error("no memory left")]
    Memory,
    #[error("standard output cannot be written")]
    Output,
}

impl From<AllocError> for Halt {
    fn from(_e: AllocError) -> Halt {
        Halt::Memory
    }
}

/// How the program ends: with what was asked for done, or after an error that is printed already.
#[derive(Clone, Copy)]
pub enum Ending {
    Done,
    Failed,
}

/// Why the program ends with an error that is not printed yet.
pub enum Stop {
    Error(anyhow::Error),
    /// Slips that the ledger did not take back. A slip cannot be dropped, so they are handed on to
    /// be ended elsewhere. A ledger takes back each slip of its own, so this does not happen.
    Unended(Unended),
}

impl From<anyhow::Error> for Stop {
    fn from(e: anyhow::Error) -> Stop {
        Stop::Error(e)
    }
}

impl From<io::Error> for Stop {
    fn from(e: io::Error) -> Stop {
        Stop::Error(e.into())
    }
}

impl From<Unended> for Stop {
    fn from(unended: Unended) -> Stop {
        Stop::Unended(unended)
    }
}
