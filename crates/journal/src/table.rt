//! The table of calls: a row a call, in the order of `station --help`. The reader of lines, the
//! reason of a fault and `--help` all read it.
ghost use Rattle.std.specs.Prelude.{◌≡◌, map};
ghost use Rattle.journal.specs.Vocabulary.{kind_word, kinds};

use crate::kind::{Kind, Worded};
use std::fmt;

/// A way in which a call is written.
#[derive(Clone, Copy, Debug)]
pub struct Form {
    /// The call's word, and in capitals what the journal puts in that place (docs/JOURNAL.md).
    pub text: &'static str,
    /// What `--help` adds.
    pub note: Option<&'static str>,
}

/// A call of the journal.
#[derive(Clone, Copy, Debug)]
pub struct Row {
    /// The call. The rows are in the order of `Kind`.
    pub kind: Kind,
    /// The first word of its line.
    pub word: &'static str,
    /// One form, or one for each of its shapes or rules.
    pub forms: &'static [Form],
}

pub(crate) static CALLS: [Row; 15] = [
    Row {
        kind: Kind::Ledger,
        word: "ledger",
        forms: &[Form {
            text: "ledger DAY",
            note: Some("the first call; day 0 is 1 January 2000"),
        }],
    },
    Row {
        kind: Kind::Sheet,
        word: "sheet",
        forms: &[Form {
            text: "sheet PLACES",
            note: Some("places of the point sheet, else 4096"),
        }],
    },
    Row {
        kind: Kind::Profile,
        word: "profile",
        forms: &[
            Form {
                text: "profile NAME table FILE",
                note: Some("2 x 381 factors"),
            },
            Form {
                text: "profile NAME even FACTOR",
                note: None,
            },
            Form {
                text: "profile NAME season SEGMENT FILE over NAME",
                note: Some("4 x 381 season numbers"),
            },
        ],
    },
    Row {
        kind: Kind::Trader,
        word: "trader",
        forms: &[Form {
            text: "trader [NAME]",
            note: None,
        }],
    },
    Row {
        kind: Kind::Point,
        word: "point",
        forms: &[Form {
            text: "point TRADER SEGMENT DIGITS LITRES_PER_UNIT READING SCALE_FACTOR",
            note: None,
        }],
    },
    Row {
        kind: Kind::Open,
        word: "open",
        forms: &[Form {
            text: "open TEMPERATURE SEASON",
            note: Some("degrees with at most one decimal, as -8.1"),
        }],
    },
    Row {
        kind: Kind::Enter,
        word: "enter",
        forms: &[Form {
            text: "enter TRADER LITRES",
            note: None,
        }],
    },
    Row {
        kind: Kind::Inflow,
        word: "inflow",
        forms: &[Form {
            text: "inflow LITRES RATE",
            note: Some("the loss rate in millionths"),
        }],
    },
    Row {
        kind: Kind::Share,
        word: "share",
        forms: &[
            Form {
                text: "share PROFILE running",
                note: None,
            },
            Form {
                text: "share PROFILE largest",
                note: None,
            },
        ],
    },
    Row {
        kind: Kind::Abandon,
        word: "abandon",
        forms: &[Form {
            text: "abandon",
            note: None,
        }],
    },
    Row {
        kind: Kind::Read,
        word: "read",
        forms: &[Form {
            text: "read POINT READING",
            note: Some("opens the point's slip, until one of the next three"),
        }],
    },
    Row {
        kind: Kind::Book,
        word: "book",
        forms: &[Form {
            text: "book POINT",
            note: None,
        }],
    },
    Row {
        kind: Kind::HandOver,
        word: "hand-over",
        forms: &[Form {
            text: "hand-over POINT TRADER",
            note: Some("books, and the point is then TRADER's"),
        }],
    },
    Row {
        kind: Kind::Withdraw,
        word: "withdraw",
        forms: &[Form {
            text: "withdraw POINT",
            note: None,
        }],
    },
    Row {
        kind: Kind::Quantity,
        word: "quantity",
        forms: &[Form {
            text: "quantity TRADER",
            note: None,
        }],
    },
];

/// The table: a row for each call.
pub fn calls() -> &'static [Row]
    ensures kinds { map (λ row. row.kind) result.now ≡ kinds }
    ensures words { map (λ row. row.word.now) result.now ≡ map kind_word kinds }
{
    &CALLS
}

impl Worded for Row {
    ghost word_of = { λ row. row.word.now };

    fn word(&self) -> &'static str {
        self.word
    }
}

/// How the call is written: its forms, parted by ` | `.
impl fmt::Display for Row {
    fn fmt<W: fmt::Write>(&self, f: &mut fmt::Formatter<W>) -> fmt::Result {
        for (i, form) in self.forms.iter().enumerate() {
            if i > 0 {
                f.write_str(" | ")?;
            }
            f.write_str(form.text)?;
        }
        Ok(())
    }
}
