//! The ledger's record, plain and private. What always holds of it is in the type `Ledger`.
ghost use Rattle.std.specs.Prelude.{◌≡◌, ◌≤◌, map, pos, ◌+ℤ◌, ◌≤ℤ◌};
ghost use Rattle.ledger.specs.Accounts.{new_book, settled_trader, unmetered_trader};
ghost use Rattle.ledger.specs.Days.{ended_book};

use crate::day::Phase;

// One trader: his account in litres, below zero where he owes, and what was metered for him today.
#[derive(Clone, Copy, Default)]
pub(crate) struct Trader {
    pub(crate) account: i64,
    pub(crate) metered: u64,
}

impl Trader {
    // Some litres join the account.
    pub(crate) fn credit(&mut self, litres: u64)
        requires account { self.old.account ≤ℤ pos 6_000_000_000_000_000_000 }
        requires litres { litres ≤ 1_000_000_000 }
        ensures { self.new ≡ record self.old { account = self.old.account +ℤ pos litres } }
    {
        self.account += litres as i64;
    }

    // The metered sum of today moves to the account.
    pub(crate) fn settle(&mut self)
        requires account { self.old.account ≤ℤ pos 6_000_000_000_000_000_000 }
        requires metered { self.old.metered ≤ 1_000_000_000 }
        ensures { self.new ≡ settled_trader self.old }
    {
        self.credit(self.metered);
        self.metered = 0;
    }
}

/// How many there have been.
#[derive(Clone, Copy, PartialEq, Default)]
pub struct Counts {
    /// Traders admitted.
    pub traders: u32,
    /// Points admitted.
    pub points: usize,
    /// Days opened.
    pub opened: u32,
    /// Days shared out.
    pub shared: u32,
    /// Readings taken.
    pub readings: u32,
    /// Readings booked, with the hand-overs.
    pub bookings: u32,
}

#[derive(Drop)]
pub(crate) struct Book {
    // the first `counts.traders` places are admitted
    pub(crate) traders: [Trader; 64],
    pub(crate) counts: Counts,
    pub(crate) loss: u64,
    pub(crate) correction: i64,
    pub(crate) next_day: u32,
    pub(crate) phase: Phase,
}

impl Book {
    pub(crate) fn new(first_day: u32) -> Book
        ensures { result ≡ new_book first_day }
    {
        Book {
            traders: [Trader::default(); 64],
            counts: Counts::default(),
            loss: 0,
            correction: 0,
            next_day: first_day,
            phase: Phase::Idle,
        }
    }

    // Ends the running day with nothing settled.
    pub(crate) fn end_day(&mut self)
        ensures { self.new ≡ ended_book self.old }
    {
        clear_metered(&mut self.traders);
        self.phase = Phase::Idle;
    }
}

// Gives up the metered sums of today.
fn clear_metered(traders: &mut [Trader; 64])
    ensures { traders.new ≡ map unmetered_trader traders.old }
{
    for trader in traders.iter_mut() {
        trader.metered = 0;
    }
}
