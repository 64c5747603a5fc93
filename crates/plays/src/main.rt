//! Plays one journal after the other, each as text and then with commas, under a line with its
//! name: so the proved program is held against every stored output. tools/copies writes what it is
//! run on and what it has to print.
#![tactic(auto)]

use session::play_file;
use std::env;
use std::process::ExitCode;

fn play_each(rt: &HostRuntime) -> anyhow::Result<()> {
    for path in env::args(rt)?.skip(1) {
        let path = path.as_str();
        println!(rt; "== {path}")?;
        let _code = play_file(rt, Some(path), false);
        println!(rt; "== --csv {path}")?;
        let _code = play_file(rt, Some(path), true);
    }
    Ok(())
}

fn main(rt: HostRuntime) -> ExitCode {
    match play_each(&rt) {
        Ok(()) => ExitCode::SUCCESS,
        Err(_) => ExitCode::FAILURE,
    }
}
