//! The program `station`: plays a journal of calls on a station's ledger, and prints the answer to
//! each. docs/JOURNAL.md has its command line, its input and its output.
#![tactic(auto)]

ghost use Rattle.std.specs.Prelude.{◌≤◌};
ghost use Rattle.std.specs.Process.{exit_status};

mod halt;
mod help;
mod session;

use halt::{Ending, Stop};
use help::{MAKE_ONE, print_help};
use player::slips::Unended;
use session::play;
use std::io::{ErrorKind, Read};
use std::process::ExitCode;
use std::{env, fs};

// What the command line asks for.
#[derive(Drop)]
enum Asked {
    Help,
    Wrong,
    Play { csv: bool, path: Option<String> },
}

impl Asked {
    // What is asked for with one argument more: help before all else, and what is wrong stays so.
    fn with(self, arg: String) -> Asked {
        match (self, arg.as_str()) {
            (Asked::Help, _) | (_, "--help" | "-h") => Asked::Help,
            (Asked::Wrong, _) => Asked::Wrong,
            (Asked::Play { csv: _, path }, "--csv") => Asked::Play { csv: true, path },
            (play, "-") => play,
            (Asked::Play { csv, path: None }, name) if !name.starts_with('-') => Asked::Play {
                csv,
                path: Some(arg),
            },
            _ => Asked::Wrong,
        }
    }
}

fn read_args(rt: &HostRuntime) -> anyhow::Result<Asked> {
    let mut asked = Asked::Play {
        csv: false,
        path: None,
    };
    for arg in env::args(rt)?.skip(1) {
        asked = asked.with(arg);
    }
    Ok(asked)
}

// The journal's bytes, or `None` once it is printed why there are none.
fn read_journal(rt: &HostRuntime, path: Option<&str>) -> anyhow::Result<Option<Vec<u8>>> {
    let Some(path) = path else {
        let mut text = Vec::new(rt.alloc());
        rt.stdin().read_to_end(&mut text)?;
        return Ok(Some(text));
    };
    match fs::read(rt, path) {
        Ok(text) => Ok(Some(text)),
        Err(e) => {
            eprintln!(rt; "station: {path}: {e}")?;
            if let ErrorKind::NotFound = e.kind() {
                eprintln!(rt; "{MAKE_ONE} > {path}")?;
            }
            Ok(None)
        }
    }
}

fn try_file(rt: &HostRuntime, path: Option<&str>, csv: bool) -> Result<Ending, Stop> {
    match read_journal(rt, path)? {
        Some(text) => play(rt, path, text.as_slice(), csv),
        None => Ok(Ending::Failed),
    }
}

fn answer(rt: &HostRuntime) -> Result<Ending, Stop> {
    match read_args(rt)? {
        Asked::Help => {
            print_help(rt)?;
            Ok(Ending::Done)
        }
        Asked::Wrong => {
            eprintln!(rt;
                "station: one journal, or none for standard input; `station --help` says more"
            )?;
            Ok(Ending::Failed)
        }
        Asked::Play { csv, path } => try_file(rt, path.as_deref(), csv),
    }
}

// The status that the program ends with: 0 where it is done, 1 where it failed or where an error
// ended it, which is printed here.
fn status(rt: &HostRuntime, ending: Result<Ending, Stop>) -> ExitCode
    ensures { exit_status result ≤ 1 }
{
    match ending {
        Ok(Ending::Done) => ExitCode::SUCCESS,
        Ok(Ending::Failed) => ExitCode::FAILURE,
        Err(Stop::Error(e)) => {
            let _printed = eprintln!(rt; "Error: {e:?}");
            ExitCode::FAILURE
        }
        Err(Stop::Unended(Unended { slips })) => {
            let _ended = slips.end_elsewhere();
            ExitCode::FAILURE
        }
    }
}

/// Plays the journal of a file, or of standard input where there is no path. With `csv` the fields
/// of a line are separated by commas. The status is 0 where the journal was played to its end, and
/// 1 after an error. No clause says which of the two it is, nor what is printed.
pub fn play_file(rt: &HostRuntime, path: Option<&str>, csv: bool) -> ExitCode
    ensures { exit_status result ≤ 1 }
{
    status(rt, try_file(rt, path, csv))
}

/// Does what the command line asks for: prints help, or plays a journal. The status is 1 after an
/// error, else 0.
pub fn run(rt: &HostRuntime) -> ExitCode
    ensures { exit_status result ≤ 1 }
{
    status(rt, answer(rt))
}
