//! What a test sees of a ledger before and after a call.
use ledger::{Counts, Ledger};
use refusals::Refusal;

// All that a ledger gives out, of its traders the first two.
#[derive(Clone, Copy, PartialEq)]
pub(crate) struct Seen {
    pub(crate) counts: Counts,
    pub(crate) next_day: u32,
    pub(crate) loss: u64,
    pub(crate) correction: i64,
    pub(crate) accounts: i128,
    pub(crate) account: [Result<i64, Refusal>; 2],
    pub(crate) metered: [Result<u64, Refusal>; 2],
}

impl Seen {
    pub(crate) fn of(ledger: &Ledger) -> Seen {
        Seen {
            counts: ledger.counts(),
            next_day: ledger.next_day(),
            loss: ledger.loss(),
            correction: ledger.correction(),
            accounts: ledger.accounts(),
            account: [ledger.account(0), ledger.account(1)],
            metered: [ledger.metered(0), ledger.metered(1)],
        }
    }

    // The same after so many readings.
    pub(crate) fn with_readings(self, readings: u32) -> Seen {
        Seen {
            counts: Counts {
                readings,
                ..self.counts
            },
            ..self
        }
    }

    // The same after one booking, which moved so much from the distributor to a trader.
    pub(crate) fn with_booking(self, account: [i64; 2], correction: i64) -> Seen {
        Seen {
            counts: Counts {
                bookings: 1,
                ..self.counts
            },
            account: account.map(Ok),
            correction,
            accounts: i128::from(account[0]) + i128::from(account[1]),
            ..self
        }
    }

    // The same but for the number of days opened.
    pub(crate) fn with_opened(self, opened: u32) -> Seen {
        Seen {
            counts: Counts {
                opened,
                ..self.counts
            },
            ..self
        }
    }
}

// How a call was answered: the number of its refusal, if it was refused, and whether the ledger
// stayed as it was.
#[derive(Clone, Copy)]
pub(crate) struct Outcome {
    pub(crate) number: Option<u8>,
    pub(crate) unchanged: bool,
}

impl Outcome {
    pub(crate) fn new(number: Option<u8>, before: Seen, ledger: &Ledger) -> Outcome {
        Outcome {
            number,
            unchanged: Seen::of(ledger) == before,
        }
    }

    // The same where a sheet had to stay as it was, too.
    pub(crate) fn with_sheet(self, stayed: bool) -> Outcome {
        Outcome {
            unchanged: self.unchanged && stayed,
            ..self
        }
    }

    pub(crate) fn accepted(self) -> bool {
        self.number.is_none()
    }

    // Whether this number refused the call, and the ledger stayed as it was.
    pub(crate) fn refused(self, number: u8) -> bool {
        self.number == Some(number) && self.unchanged
    }

    // The same, or, where there is no number, whether the call was accepted.
    pub(crate) fn is(self, number: Option<u8>) -> bool {
        self.number == number && (self.accepted() || self.unchanged)
    }
}

// The number of the refusal, if the answer is one.
pub(crate) fn number_of<T: Drop>(answer: Result<T, Refusal>) -> Option<u8> {
    answer.err().map(Refusal::number)
}
