//! figures_run SHEET: prints figures by the proved crates, to be held against what another program
//! prints. SHEET is a table profile's sheet. In order: what the table tells, what a season layer
//! over it tells, shares by both rules, and a worked day by both rules.
#![tactic(auto)]

mod cases;
mod day;
mod page;
mod sheet;
mod tells;

use anyhow::anyhow;
use cases::case_lines;
use day::day_lines;
use page::Page;
use profiles::TableProfile;
use shares::{LargestRemainder, Running};
use sheet::numbers_of;
use std::io::Write;
use std::process::ExitCode;
use std::{env, fs};
use tells::{layer_lines, table_lines};

fn listing(rt: &HostRuntime, path: &str) -> anyhow::Result<Page> {
    let heap = rt.alloc();
    let text = fs::read_to_string(rt, path)?;
    let mut table = TableProfile::new();
    table.fill(numbers_of(heap, text.as_str())?.as_slice())?;
    let mut page = Page::new(heap);
    table_lines(&mut page, &table)?;
    layer_lines(&mut page, table)?;
    case_lines(&mut page)?;
    day_lines(&mut page, "running", &Running)?;
    day_lines(&mut page, "largest", &LargestRemainder)?;
    Ok(page)
}

fn run(rt: &HostRuntime) -> anyhow::Result<()> {
    let mut args = env::args(rt)?;
    let _program = args.next();
    let Some(path) = args.next() else {
        return Err(anyhow!("figures_run SHEET: the file of the table's factors is missing"));
    };
    let path = path.as_str();
    match listing(rt, path) {
        Ok(page) => rt.stdout().write_all(page.as_bytes())?,
        Err(why) => return Err(anyhow!(format!(in rt.alloc(); "{path}: {why}")?)),
    }
    Ok(())
}

fn main(rt: HostRuntime) -> ExitCode {
    match run(&rt) {
        Ok(()) => ExitCode::SUCCESS,
        Err(why) => {
            let _told = eprintln!(rt; "{why}");
            ExitCode::FAILURE
        }
    }
}
