//! What is printed: lines of fields, separated by a space, or by a comma (docs/JOURNAL.md).
ghost use Rattle.std.specs.Prelude.{◌≡◌, [], ◌∷◌, ◌++◌, OnOk};
ghost use Rattle.player.specs.Printed.{Adds, separator, named_field, point_line};

use itoa::Integer;
use journal::kind::{Kind, Worded};
use journal::number::put_number;
use refusals::Refusal;
use std::alloc::{AllocError, Global};

/// The bytes to be printed. The program lends it to each call, then prints and clears it, also
/// where there is no `Player` yet or any longer.
#[derive(Drop)]
pub struct Report {
    heap: Global,
    bytes: Vec<u8>,
    csv: bool,
    // of the call that is played
    line: u64,
}

impl Report {
    /// Nothing to be printed yet; `csv`: with commas.
    pub fn new(heap: Global, csv: bool) -> Report
        ensures empty { result.bytes.items ≡ [] }
        ensures form { result.csv ≡ csv }
    {
        Report {
            heap,
            bytes: Vec::new(heap),
            csv,
            line: 0,
        }
    }

    // Goes on to the call of a line.
    pub(crate) fn go_to(&mut self, line: u64)
        ensures bytes { self.new.bytes.items ≡ self.old.bytes.items }
        ensures line { self.new.line ≡ line }
    {
        self.line = line;
    }

    /// What is to be printed.
    pub fn as_bytes(&self) -> &[u8]
        ensures { result.now ≡ self.now.bytes.items }
    {
        self.bytes.as_slice()
    }

    /// Forgets what was printed.
    pub fn clear(&mut self)
        ensures empty { self.new.bytes.items ≡ [] }
        ensures form { self.new.csv ≡ self.old.csv }
        ensures line { self.new.line ≡ self.old.line }
    {
        self.bytes.clear();
    }

    fn separate(&mut self) -> Result<(), AllocError>
        ensures { OnOk result (Adds self.old self.new (separator self.old.csv ∷ [])) }
    {
        self.bytes.push(if self.csv { b',' } else { b' ' })?;
        Ok(())
    }

    // A field of text.
    pub(crate) fn text(&mut self, text: &[u8]) -> Result<(), AllocError>
        ensures { OnOk result (Adds self.old self.new (separator self.old.csv ∷ text.now)) }
    {
        self.separate()?;
        self.bytes.extend_from_slice(text)
    }

    // A field of a number.
    pub(crate) fn number<N: Integer>(&mut self, n: N) -> Result<(), AllocError>
        ensures { OnOk result (Adds self.old self.new (separator self.old.csv ∷ N.text n)) }
    {
        self.separate()?;
        put_number(&mut self.bytes, n)
    }

    // A field that names the next, and the number in that.
    pub(crate) fn field<N: Integer>(&mut self, name: &str, n: N) -> Result<(), AllocError>
        ensures { OnOk result
            (Adds self.old self.new (named_field self.old.csv name.now (N.text n))) }
    {
        self.text(name.as_bytes())?;
        self.number(n)
    }

    // The line of a point in a share-out: its consumption and share, in litres.
    pub(crate) fn print_point(
        &mut self,
        point: u64,
        consumption: u64,
        share: u64,
    ) -> Result<(), AllocError>
        ensures { OnOk result (Adds self.old self.new
            (point_line self.old.csv self.old.line point consumption share)) }
    {
        put_number(&mut self.bytes, self.line)?;
        self.field("point", point)?;
        self.field("consumption", consumption)?;
        self.field("share", share)?;
        self.end()
    }

    // The line of the call: the fields of its answer, or why it was refused.
    pub(crate) fn print_call<T: Drop, F: FnOnce(&mut Report, T) -> Result<(), AllocError> + Drop>(
        &mut self,
        kind: Kind,
        answer: Result<T, Refusal>,
        fields: F,
    ) -> Result<(), AllocError>
        requires { F.IsAlwaysCallable fields }
    {
        put_number(&mut self.bytes, self.line)?;
        self.text(kind.word().as_bytes())?;
        match answer {
            Ok(value) => fields(self, value)?,
            Err(why) => self.refusal(why)?,
        }
        self.end()
    }

    // A line of the closing report.
    pub(crate) fn print_closing<F: FnOnce(&mut Report) -> Result<(), AllocError> + Drop>(
        &mut self,
        name: &str,
        fields: F,
    ) -> Result<(), AllocError>
        requires { F.IsAlwaysCallable fields }
    {
        self.bytes.extend_from_slice(b"end")?;
        self.text(name.as_bytes())?;
        fields(self)?;
        self.end()
    }

    // The refusal, by number and in words.
    pub(crate) fn refusal(&mut self, why: Refusal) -> Result<(), AllocError> {
        self.field("refused", why.number())?;
        let words = why.to_string(self.heap)?;
        if self.csv {
            self.bytes.extend_from_slice(b",\"")?;
            self.bytes.extend_from_slice(words.as_bytes())?;
            self.bytes.extend_from_slice(b"\"")
        } else {
            self.bytes.extend_from_slice(b": ")?;
            self.bytes.extend_from_slice(words.as_bytes())
        }
    }

    pub(crate) fn end(&mut self) -> Result<(), AllocError>
        ensures { OnOk result (Adds self.old self.new (10 ∷ [])) }
    {
        self.bytes.push(b'\n')?;
        Ok(())
    }
}
