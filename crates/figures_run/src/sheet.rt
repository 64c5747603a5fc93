//! A sheet of numbers, as text: numbers apart by blanks and lines, and `#` before a comment. This
//! program has a reader of its own, so that a fault in the journal's cannot hide in both.
use anyhow::anyhow;
use std::alloc::Global;

// A line without its comment.
fn uncommented(line: &str) -> &str {
    line.split_once('#')
        .map_or(line, |(numbers, _comment)| numbers)
}

// Adds the numbers of a line, which is the given one of its text, to a sheet.
fn add_line(heap: Global, number: u64, line: &str, sheet: &mut Vec<u32>) -> anyhow::Result<()> {
    for word in uncommented(line).split_ascii_whitespace() {
        match word.parse::<u32>() {
            Ok(n) => sheet.push(n)?,
            Err(why) => return Err(anyhow!(format!(in heap; "line {number}: {word}: {why}")?)),
        }
    }
    Ok(())
}

// The numbers of a text.
pub(crate) fn numbers_of(heap: Global, text: &str) -> anyhow::Result<Vec<u32>> {
    let mut sheet = Vec::new(heap);
    for (number, line) in (1u64..).zip(text.lines()) {
        add_line(heap, number, line, &mut sheet)?;
    }
    Ok(sheet)
}
