//! The token of a measured day.
ghost use Rattle.std.specs.Prelude.{◌≡◌};
ghost use Rattle.ledger.specs.Tokens.{MeasuredToken};

use crate::day::{Phase, Token};

/// The right to share out the running day, whose inflow was taken. As an open day, it has to be
/// ended.
pub struct MeasuredDay {
    pub(crate) number: u32,
}

impl MeasuredDay {
    /// The day's number, by openings from 1.
    pub fn number(&self) -> u32
        ensures { result ≡ self.now.number }
    {
        self.number
    }
}

impl Token for MeasuredDay {
    ghost token = { MeasuredToken };

    fn is_running(&self, phase: Phase) -> bool {
        matches!(phase, Phase::Measured { number, .. } if number == self.number)
    }

    fn end(self) {
        let MeasuredDay { number: _ } = self;
    }
}
