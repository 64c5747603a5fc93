//! A text as lines, and a file of numbers.
ghost use Rattle.std.specs.Prelude.{◌≡◌, ◌<◌, length};
ghost use Rattle.std.specs.Iterator.{YieldsFirstBy, item_count};
ghost use Rattle.journal.specs.Words.{text_after_line, line_of, lines_of, texts_of, text_before_comment, words_in, words_of};
ghost use Rattle.journal.specs.Sheets.{AddsNumbers, ReadsSheet};
ghost use Rattle.journal.specs.declared.lines.SheetFault.TheVariants.{Memory};

use crate::fault::Fault;
use crate::number::read;
use crate::words::{cut_at, split, uncommented};
use std::alloc::{AllocError, AllocFailed, Global};
use thiserror::Error;

/// The first line without its line feed, and what stands behind the line feed.
pub fn cut_line(text: &[u8]) -> (&[u8], &[u8])
    ensures line { result.0.now ≡ line_of text.now }
    ensures rest { result.1.now ≡ text_after_line text.now }
    ensures shorter { 0 < length text.now → length result.1.now < length text.now }
{
    cut_at(text, b'\n')
}

/// The lines of a text, each without its line feed. A carriage return before a line feed stays.
#[derive(Drop)]
pub struct Lines<'a> {
    rest: &'a [u8],
}

impl<'a> Lines<'a> {
    /// The lines of a whole text.
    pub fn of(text: &'a [u8]) -> Lines<'a>
        ensures { lines_of result.rest.now ≡ lines_of text.now }
    {
        Lines { rest: text }
    }
}

impl<'a> Iterator for Lines<'a> {
    type Item = &'a [u8];

    ghost next_gives = { YieldsFirstBy (λ line. line.now) (λ lines. lines_of lines.rest.now) };

    ghost remaining = { item_count (λ lines. lines_of lines.rest.now) };

    fn next(&mut self) -> Option<&'a [u8]> {
        if self.rest.is_empty() {
            return None;
        }
        let (line, rest) = cut_line(self.rest);
        self.rest = rest;
        Some(line)
    }
}

/// Why a file of numbers is not read: there is no memory for it, or one of its lines is malformed.
#[derive(Clone, Copy, Debug, Error)]
pub enum SheetFault {
    #[error("no memory left")]
    Memory,
    #[error("line {line} of the file: {fault}")]
    Malformed {
        /// The line of the file, from 1.
        line: u64,
        fault: Fault,
    },
}

impl From<AllocError> for SheetFault {
    ghost from_gives = { λ _ fault. fault ≡ Memory };

    fn from(_e: AllocError) -> SheetFault {
        SheetFault::Memory
    }
}

impl<T: Drop> From<AllocFailed<T>> for SheetFault {
    ghost from_gives = { λ _ fault. fault ≡ Memory };

    fn from(_e: AllocFailed<T>) -> SheetFault {
        SheetFault::Memory
    }
}

// Adds the numbers that words write to a sheet. The words are those of a line of the file.
fn add_words(line: u64, words: &[&[u8]], sheet: &mut Vec<u32>) -> Result<(), SheetFault>
    ensures { AddsNumbers result sheet.old.items (texts_of words.now) sheet.new.items }
{
    for word in words {
        let n: u32 = read(word).map_err(|fault| SheetFault::Malformed { line, fault })?;
        sheet.push(n)?;
    }
    Ok(())
}

// Adds the numbers of one line.
fn add_line<'a>(
    line: u64,
    text: &'a [u8],
    words: &mut Vec<&'a [u8]>,
    sheet: &mut Vec<u32>,
) -> Result<(), SheetFault>
    ensures { AddsNumbers result sheet.old.items
        (words_of (text_before_comment text.now))
        sheet.new.items }
{
    split(uncommented(text), words)?;
    add_words(line, words.as_slice(), sheet)
}

/// The numbers of a file, in order, each of 32 bits.
pub fn read_sheet(heap: Global, text: &[u8]) -> Result<Vec<u32>, SheetFault>
    ensures { ReadsSheet result (words_in text.now) }
{
    let mut sheet = Vec::new(heap);
    let mut words = Vec::new(heap);
    for (before, line) in (0u64..).zip(Lines::of(text)) {
        add_line(before + 1, line, &mut words, &mut sheet)?;
    }
    Ok(sheet)
}
