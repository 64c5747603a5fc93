//! Whole gas days of the proved ledger, for a C or Rust program to time: tools/bench builds this
//! library, links it to rust/src/bin/bench.rs, where the days are told in words, and runs both
//! sides.
#![tactic(auto)]

ghost use Rattle.std.specs.Prelude.{◌*◌, ◌≤◌};

mod days;

use days::account_after;
use shares::{LargestRemainder, Running};

/// The account of trader 7, in litres, after so many days by the running rule, up to 4,000; else 0.
/// The contract bounds it alone; what it comes to is compared with the plain Rust program's.
#[unsafe(no_mangle)]
pub extern "C" fn keldrava_bench_running(days: u32) -> u64
    ensures { result ≤ days * 1_000_000_000 }
{
    account_after(&Running, days)
}

/// The same account after so many days by the largest remainder.
#[unsafe(no_mangle)]
pub extern "C" fn keldrava_bench_largest(days: u32) -> u64
    ensures { result ≤ days * 1_000_000_000 }
{
    account_after(&LargestRemainder, days)
}
