//! Slips for the tests. A slip cannot be let go, so each function here ends the slip that it is
//! handed, or says how it can be ended.
ghost use Rattle.std.specs.Prelude.{◌≡◌, IfOk, IfErr};
ghost use Rattle.ledger_tests.specs.Slips.{IsEndable};

use crate::seen::{Outcome, Seen, number_of};
use crate::station::ROW;
use ledger::{Ledger, Point, Refused, Slip};
use refusals::Refusal;

// Ends a slip of a point of this ledger's. A slip is only its number and its point: any sheet on
// which it is open will do.
pub(crate) fn end_slip(ledger: &Ledger, slip: Slip)
    requires { IsEndable ledger.now.book slip }
{
    let row = Point {
        slip: slip.number(),
        ..ROW
    };
    ledger.withdraw(&mut [row; 4096], slip).unwrap();
}

// Reads a point. The running day stays.
pub(crate) fn reading(
    ledger: &mut Ledger,
    sheet: &mut [Point],
    point: usize,
    dial: u32,
) -> Result<Slip, Refusal>
    ensures slip { IfOk result (λ s. IsEndable ledger.new.book s) }
    ensures day { ledger.new.book.phase ≡ ledger.old.book.phase }
{
    ledger.read(sheet, point, dial)
}

// A call that ends a slip.
#[derive(Clone, Copy)]
pub(crate) enum Call {
    Book,
    HandOver(u32),
    Withdraw,
}

// Makes the call, and gives its correction, 0 of a withdrawal. A refusal hands the slip back;
// points and running day stay.
fn make(
    call: Call,
    ledger: &mut Ledger,
    sheet: &mut [Point],
    slip: Slip,
) -> Result<i64, Refused<Slip>>
    ensures slip { IfErr result (λ e. e.given ≡ slip) }
    ensures points { ledger.new.book.counts.points ≡ ledger.old.book.counts.points }
    ensures day { ledger.new.book.phase ≡ ledger.old.book.phase }
{
    match call {
        Call::Book => ledger.book(sheet, slip),
        Call::HandOver(trader) => ledger.hand_over(sheet, slip, trader),
        Call::Withdraw => ledger.withdraw(sheet, slip).map(|()| 0),
    }
}

// A call's answer. A slip that it handed back is of a point of this ledger's, and ends.
fn end_refused(ledger: &Ledger, answer: Result<i64, Refused<Slip>>) -> Result<i64, Refusal>
    requires { IfErr answer (λ e. IsEndable ledger.now.book e.given) }
{
    match answer {
        Ok(by) => Ok(by),
        Err(Refused { why, given }) => {
            end_slip(ledger, given);
            Err(why)
        }
    }
}

// The answer of a call with a slip of a point of this ledger's. The slip ends in any case.
pub(crate) fn answer_of(
    call: Call,
    ledger: &mut Ledger,
    sheet: &mut [Point],
    slip: Slip,
) -> Result<i64, Refusal>
    requires { IsEndable ledger.old.book slip }
    ensures day { ledger.new.book.phase ≡ ledger.old.book.phase }
{
    let answer = make(call, ledger, sheet, slip);
    end_refused(ledger, answer)
}

// How a call with a slip of a point of another ledger's is answered. The slip ends in any case.
pub(crate) fn outcome_of<const N: usize>(
    call: Call,
    ledger: &mut Ledger,
    sheet: &mut [Point; N],
    other: &Ledger,
    slip: Slip,
) -> Outcome
    requires { IsEndable other.now.book slip }
    ensures { ledger.new.book.counts.points ≡ ledger.old.book.counts.points }
{
    let before = Seen::of(ledger);
    let rows = *sheet;
    let answer = make(call, ledger, sheet, slip);
    let number = number_of(end_refused(other, answer));
    Outcome::new(number, before, ledger).with_sheet(*sheet == rows)
}
