//! A line as a list of words.
ghost use Rattle.std.specs.Prelude.{◌≡◌, ◌==◌, OnOk};
ghost use Rattle.std.specs.List.{after_first, before_first, list_all, position};
ghost use Rattle.journal.specs.Words.{is_blank_byte, is_file_byte, is_name_byte, texts_of, text_before_comment, words_of};

use std::alloc::AllocError;

fn place_of(text: &[u8], mark: u8) -> Option<usize>
    ensures { result ≡ position (λ b. b == mark) text.now }
{
    text.iter().position(|b| *b == mark)
}

// The text up to the first mark, and what stands behind that.
pub(crate) fn cut_at(text: &[u8], mark: u8) -> (&[u8], &[u8])
    ensures front { result.0.now ≡ before_first (λ b. b == mark) text.now }
    ensures rest { result.1.now ≡ after_first (λ b. b == mark) text.now }
{
    match place_of(text, mark) {
        Some(end) => (&text[..end], &text[end + 1..]),
        None => (text, &[]),
    }
}

/// The line without its comment.
pub fn uncommented(line: &[u8]) -> &[u8]
    ensures { result.now ≡ text_before_comment line.now }
{
    cut_at(line, b'#').0
}

// Blanks stand between words.
fn is_blank(b: u8) -> bool
    ensures { result ≡ is_blank_byte b }
{
    b == b' ' || b == b'\t' || b == b'\r'
}

/// Takes the words of a line, in order, in place of those of the line before. The line is one
/// without its comment.
pub fn split<'a>(line: &'a [u8], words: &mut Vec<&'a [u8]>) -> Result<(), AllocError>
    ensures { OnOk result (texts_of words.new.items ≡ words_of line.now) }
{
    words.clear();
    words.extend(line.split(|b| is_blank(*b)).filter(|word| !word.is_empty()))
}

// A name has letters, digits, a few signs, and whatever is not ASCII.
fn is_of_name(b: u8) -> bool
    ensures { result ≡ is_name_byte b }
{
    b >= 128 || b.is_ascii_alphanumeric() || b == b'-' || b == b'_' || b == b'.'
}

pub(crate) fn is_name(word: &[u8]) -> bool
    ensures { result ≡ list_all is_name_byte word.now }
{
    word.iter().all(|b| is_of_name(*b))
}

// A file's name has no blank and no control character.
pub(crate) fn is_file(word: &[u8]) -> bool
    ensures { result ≡ list_all is_file_byte word.now }
{
    word.iter().all(|b| *b > 32 && *b != 127)
}
