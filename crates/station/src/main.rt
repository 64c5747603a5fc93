//! Plays a journal of calls on a station's ledger, and prints the answer to each.
#![tactic(auto)]

use session::run;
use std::process::ExitCode;

fn main(rt: HostRuntime) -> ExitCode {
    run(&rt)
}
