//! The days that a ledger hands out, whatever their kind.
ghost use Rattle.std.specs.Prelude.{◌≡◌, ℕ, List, IfErr, MatchResult};
ghost use Rattle.rows.specs.declared.point.Point.{Point as Row};
ghost use Rattle.ledger.specs.Days.{abandonment, ended_book};
ghost use Rattle.ledger.specs.Outcomes.{Became};
ghost use Rattle.ledger.specs.Tokens.{DayToken, OpenToken, MeasuredToken};
ghost use Rattle.scenario.specs.Days.{IsRunning, SharesAtMost};

use ledger::{Ledger, MeasuredDay, OpenDay, Refused};
use refusals::Refusal;

/// A day's token. A further kind of day needs one `impl`, and no other function here.
pub trait Day: Sized {
    // Which day of which phase it stands for.
    ghost token: { Self → DayToken };

    // Its number.
    ghost number_of: { Self → ℕ };

    /// The day's number, by openings from 1.
    fn number(&self) -> u32
        ensures { result ≡ number_of self.now };

    /// The ledger's own call to abandon a day of this kind; or refusal 20, which hands it back.
    fn abandon_on(self, ledger: &mut Ledger) -> Result<(), Refused<Self>>
        ensures { (s : List Row) →
            Became (abandonment ledger.old.book s (token self) self) result ledger.new.book s };
}

impl Day for OpenDay {
    ghost token = { OpenToken };

    ghost number_of = { λ day. day.number };

    fn number(&self) -> u32 {
        self.number()
    }

    fn abandon_on(self, ledger: &mut Ledger) -> Result<(), Refused<OpenDay>> {
        ledger.abandon_open(self)
    }
}

impl Day for MeasuredDay {
    ghost token = { MeasuredToken };

    ghost number_of = { λ day. day.number };

    fn number(&self) -> u32 {
        self.number()
    }

    fn abandon_on(self, ledger: &mut Ledger) -> Result<(), Refused<MeasuredDay>> {
        ledger.abandon_measured(self)
    }
}

/// Ends a day of this ledger's with nothing settled.
pub fn end<D: Day>(ledger: &mut Ledger, day: D)
    requires { IsRunning ledger.old.book (D.Day.token day) }
    ensures { ledger.new.book ≡ ended_book ledger.old.book }
{
    day.abandon_on(ledger).unwrap();
}

/// A call's answer. Where the call handed back a day, that day is this ledger's and ends.
pub fn end_refused<D: Day, T>(
    ledger: &mut Ledger,
    answer: Result<T, Refused<D>>,
) -> Result<T, Refusal>
    requires { IfErr answer (λ e. IsRunning ledger.old.book (D.Day.token e.given)) }
    ensures answer { MatchResult answer
        (λ given. (result ≡ Ok given) × (ledger.new.book ≡ ledger.old.book))
        (λ e. result ≡ Err e.why) }
    ensures shared { SharesAtMost 0 ledger.old.book ledger.new.book }
{
    match answer {
        Ok(given) => Ok(given),
        Err(Refused { why, given }) => {
            end(ledger, given);
            Err(why)
        }
    }
}
