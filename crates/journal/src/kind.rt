//! The fixed words of the journal.
ghost use Rattle.std.specs.Prelude.{◌≡◌, ℕ, List, Some};
ghost use Rattle.std.specs.Str.{bytes_eq};
ghost use Rattle.journal.specs.Vocabulary.{item_by_word, kind_by_word-kind_word, kind_word, kinds, rule_by_word-rule_word, rule_word, rules, shape_by_word-shape_word, shape_word, shapes};

use crate::table::{CALLS, Row, calls};

/// A call of the journal, which the first word of its line names. The order is that of the table.
#[derive(Clone, Copy, PartialEq, Eq, Debug)]
pub enum Kind {
    Ledger,
    Sheet,
    Profile,
    Trader,
    Point,
    Open,
    Enter,
    Inflow,
    Share,
    Abandon,
    Read,
    Book,
    HandOver,
    Withdraw,
    Quantity,
}

/// How a profile is made: the word behind its name.
#[derive(Clone, Copy, PartialEq, Eq, Debug)]
pub enum Shape {
    Table,
    Even,
    Season,
}

/// By which rule a quantity is shared out, as docs/RULES.md has them: the last word of `share`.
#[derive(Clone, Copy, PartialEq, Eq, Debug)]
pub enum Rule {
    Running,
    Largest,
}

/// What goes by a fixed word of the journal.
pub trait Worded {
    // the word's bytes
    ghost word_of: { Self → List ℕ };

    /// The word.
    fn word(&self) -> &'static str
        ensures { result.now ≡ word_of self.now };
}

/// What is read from its word, one of a fixed few.
pub trait FromWord: Worded + Copy + 'static {
    // all that there are
    ghost all: { List Self };

    /// The first of all that goes by a word, or `None`.
    fn from_word(word: &[u8]) -> Option<Self>
        ensures value { result ≡ item_by_word Self.word_of all word.now }
        ensures own { (x : Self) → word.now ≡ Self.word_of x → result ≡ Some x };

    // each is the first that goes by its own word
    ghost own: { (x : Self) → item_by_word Self.word_of all (Self.word_of x) ≡ Some x };
}

impl Kind {
    /// The call's row in the table of calls.
    pub fn row(self) -> Row
        ensures kind { result.kind ≡ self }
        ensures word { result.word.now ≡ kind_word self }
    {
        CALLS[self as usize]
    }
}

impl Worded for Kind {
    ghost word_of = { kind_word };

    fn word(&self) -> &'static str {
        self.row().word
    }
}

impl FromWord for Kind {
    ghost all = { kinds };

    fn from_word(word: &[u8]) -> Option<Kind> {
        let row = find(calls(), word)?;
        Some(row.kind)
    }

    ghost own = { kind_by_word-kind_word };
}

impl Worded for Shape {
    ghost word_of = { shape_word };

    fn word(&self) -> &'static str {
        match self {
            Shape::Table => "table",
            Shape::Even => "even",
            Shape::Season => "season",
        }
    }
}

impl FromWord for Shape {
    ghost all = { shapes };

    fn from_word(word: &[u8]) -> Option<Shape> {
        find(&[Shape::Table, Shape::Even, Shape::Season], word)
    }

    ghost own = { shape_by_word-shape_word };
}

impl Worded for Rule {
    ghost word_of = { rule_word };

    fn word(&self) -> &'static str {
        match self {
            Rule::Running => "running",
            Rule::Largest => "largest",
        }
    }
}

impl FromWord for Rule {
    ghost all = { rules };

    fn from_word(word: &[u8]) -> Option<Rule> {
        find(&[Rule::Running, Rule::Largest], word)
    }

    ghost own = { rule_by_word-rule_word };
}

// Whether a word is a given text.
pub(crate) fn is_word(word: &[u8], text: &str) -> bool
    ensures { result ≡ bytes_eq word.now text.now }
{
    word == text.as_bytes()
}

// The first of a list that goes by a word.
fn find<W: Worded + Copy>(items: &[W], word: &[u8]) -> Option<W>
    ensures { result ≡ item_by_word W.word_of items.now word.now }
{
    items
        .iter()
        .find(|item| is_word(word, item.word()))
        .copied()
}
