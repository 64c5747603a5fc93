//! The lines of a journal, one after the other.
use crate::halt::{Ending, Halt, Stop};
use journal::call::{Call, parse};
use journal::lines::{Lines, read_sheet};
use journal::words::{split, uncommented};
use player::player::Player;
use player::report::Report;
use player::trouble::Trouble;
use std::alloc::Global;
use std::fs;
use std::io::{ErrorKind, Write};
use std::iter::Zip;
use std::ops::RangeFrom;
use std::path::Path;

// Lines and their numbers.
type Numbered<'a> = Zip<RangeFrom<u64>, Lines<'a>>;

// What is gathered is printed once it has so many bytes.
const FULL: usize = 65_536;

// How many bytes of a malformed line are shown.
const LONGEST: usize = 200;

// A journal that is played, at the line that was begun last.
#[derive(Drop)]
struct Session<'a> {
    rt: &'a HostRuntime,
    // the journal's file, and none for standard input
    path: Option<&'a str>,
    line: u64,
    text: &'a [u8],
    words: Vec<&'a [u8]>,
    report: Report,
}

impl<'a> Session<'a> {
    fn flush(&mut self) -> Result<(), Halt> {
        let done = self.rt.stdout().write_all(self.report.as_bytes());
        self.report.clear();
        done.map_err(|_| Halt::Output)
    }

    // Goes on to a line, and reads the call that it says.
    fn call_at(&mut self, line: u64, text: &'a [u8]) -> Result<Option<Call<'a>>, Halt> {
        self.line = line;
        self.text = text;
        split(uncommented(text), &mut self.words)?;
        Ok(parse(self.words.as_slice())?)
    }

    // The bytes of a file that the journal names, which is looked for from the journal's folder.
    fn file_bytes(&self, name: &str) -> Result<Vec<u8>, Halt> {
        let rt = self.rt;
        let read = match self.path.and_then(|path| Path::new(path).parent()) {
            Some(folder) => fs::read(rt, folder.join(rt.alloc(), name)?.as_path()),
            None => fs::read(rt, name),
        };
        read.map_err(|e| match e.kind() {
            ErrorKind::NotFound => Halt::NoFile,
            _ => Halt::Unreadable,
        })
    }

    // The numbers of a call's file: none where it has no file.
    fn numbers(&self, call: Call<'_>) -> Result<Vec<u32>, Halt> {
        let (Call::Table { file, .. } | Call::Season { file, .. }) = call else {
            return Ok(Vec::new(self.rt.alloc()));
        };
        let name = std::str::from_utf8(file).map_err(|_| Halt::FileName)?;
        let bytes = self.file_bytes(name)?;
        Ok(read_sheet(self.rt.alloc(), bytes.as_slice())?)
    }

    // Plays the first call, which has to be `ledger`.
    fn begin(&mut self, lines: &mut Numbered<'a>) -> Result<Player, Halt> {
        for (line, text) in lines.by_ref() {
            match self.call_at(line, text)? {
                None => {}
                Some(Call::Ledger { first_day }) => {
                    let heap = self.rt.alloc();
                    return Ok(Player::begin(heap, line, first_day, &mut self.report)?);
                }
                Some(_) => return Err(Halt::Place(Trouble::LedgerFirst)),
            }
        }
        Err(Halt::Empty)
    }

    // Plays one line.
    fn step(&mut self, player: &mut Player, line: u64, text: &'a [u8]) -> Result<(), Halt> {
        let Some(call) = self.call_at(line, text)? else {
            return Ok(());
        };
        let numbers = self.numbers(call)?;
        player.play(line, call, numbers, &mut self.report)?;
        if self.report.as_bytes().len() < FULL {
            return Ok(());
        }
        self.flush()
    }

    // Plays the lines behind the first call, and ends what they leave open.
    fn play_on(&mut self, mut player: Player, mut lines: Numbered<'a>) -> Result<Ending, Stop> {
        let played = match lines.try_for_each(|(line, text)| self.step(&mut player, line, text)) {
            Ok(()) => player.close(&mut self.report)?.map_err(Halt::Place),
            Err(halt) => {
                player.end()?;
                Err(halt)
            }
        };
        self.end(played)
    }

    // Prints what is left, and where the journal stopped, if it did.
    fn end(&mut self, played: Result<(), Halt>) -> Result<Ending, Stop> {
        match self.flush().and(played) {
            Ok(()) => Ok(Ending::Done),
            Err(why) => {
                self.complain(why)?;
                Ok(Ending::Failed)
            }
        }
    }

    // Prints where the journal stopped: the file, the line, the line itself and the reason.
    fn complain(&self, why: Halt) -> anyhow::Result<()> {
        let (rt, line) = (self.rt, self.line);
        let file = self.path.unwrap_or("standard input");
        match why {
            Halt::Empty => eprintln!(rt; "station: {file}: {why}")?,
            _ => {
                let text = shown(rt.alloc(), self.text)?;
                eprintln!(rt; "station: {file}:{line}: {why}")?;
                rt.stderr().write_all(text.as_slice())?;
            }
        }
        Ok(())
    }
}

// A line as it can be shown: not too long, and with a mark in place of what is no text.
fn shown(heap: Global, line: &[u8]) -> anyhow::Result<Vec<u8>> {
    let wide = std::str::from_utf8(line).is_ok() && line.len() <= LONGEST;
    let mut text = Vec::from_slice(heap, b"    ")?;
    text.extend(
        line.iter().take(LONGEST).map(|b| match *b {
            32..=126 => *b,
            128.. if wide => *b,
            _ => b'?',
        }),
    )?;
    text.push(b'\n')?;
    Ok(text)
}

// Plays a journal, and prints the answers to its calls and where it stopped.
pub(crate) fn play<'a>(
    rt: &'a HostRuntime,
    path: Option<&'a str>,
    text: &'a [u8],
    csv: bool,
) -> Result<Ending, Stop> {
    let heap = rt.alloc();
    let mut session = Session {
        rt,
        path,
        line: 0,
        text: b"",
        words: Vec::new(heap),
        report: Report::new(heap, csv),
    };
    let mut lines = (1u64..).zip(Lines::of(text));
    match session.begin(&mut lines) {
        Ok(player) => session.play_on(player, lines),
        Err(halt) => session.end(Err(halt)),
    }
}
