//! The text that is printed: lines of words and numbers, with a single space between them.
use std::alloc::Global;
use std::fmt;
use std::fmt::Write;

#[derive(Drop)]
pub(crate) struct Page {
    pub(crate) heap: Global,
    text: String,
}

impl Page {
    pub(crate) fn new(heap: Global) -> Page {
        Page {
            heap,
            text: String::new(heap),
        }
    }

    // The first word of a line.
    pub(crate) fn begin(&mut self, word: &str) -> fmt::Result {
        self.text.write_str(word)
    }

    // A further word.
    pub(crate) fn name(&mut self, word: &str) -> fmt::Result {
        self.text.write_str(" ")?;
        self.text.write_str(word)
    }

    pub(crate) fn number<N: fmt::Display + Drop>(&mut self, n: N) -> fmt::Result {
        write!(self.text, " {n}")?;
        Ok(())
    }

    pub(crate) fn numbers(&mut self, ns: &[u64]) -> fmt::Result {
        for n in ns {
            self.number(*n)?;
        }
        Ok(())
    }

    // Between what a line was worked out from and what came out.
    pub(crate) fn colon(&mut self) -> fmt::Result {
        self.text.write_str(" :")
    }

    pub(crate) fn end(&mut self) -> fmt::Result {
        self.text.write_str("\n")
    }

    pub(crate) fn as_bytes(&self) -> &[u8] {
        self.text.as_bytes()
    }
}
