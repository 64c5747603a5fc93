//! What `station --help` prints.
use journal::table::calls;
use std::fmt;
use std::io::Write;

// The text of `station --help`. Its list of calls is the journal's table.
struct Help;

const HEAD: &str = "station: plays a journal of calls on a gas station's ledger

usage: station [--csv] [JOURNAL]

JOURNAL is a text file, one call a line; without one, or with -, standard input is read.
Prints a line for each call, what was told or the refusal's number and words, and at the end the
accounts and the balance. --csv prints the same with commas.

";

const TAIL: &str = "    # a comment

Status 0 where the journal was played to its end, refusals or not; 1 after an error.
docs/JOURNAL.md has the whole format, and examples/ a journal to start from.
";

impl fmt::Display for Help {
    fn fmt<W: fmt::Write>(&self, f: &mut fmt::Formatter<W>) -> fmt::Result {
        f.write_str(HEAD)?;
        for form in calls().iter().flat_map(|row| row.forms) {
            match form.note {
                Some(note) => writeln!(f, "    {:<52}{note}", form.text)?,
                None => writeln!(f, "    {}", form.text)?,
            }
        }
        f.write_str(TAIL)
    }
}

/// Prints the text of `station --help`, at one go; where there is no memory for it, piece by piece.
pub fn print_help(rt: &HostRuntime) -> anyhow::Result<()> {
    match format!(in rt.alloc(); "{Help}") {
        Ok(text) => rt.stdout().write_all(text.as_bytes())?,
        Err(_) => print!(rt; "{Help}")?,
    }
    Ok(())
}

/// What is printed where the journal's file is not there, before its path.
pub const MAKE_ONE: &str = "A journal is a plain text file, one call a line. To make one: \
    printf 'ledger 3561\\ntrader north\\n'";
