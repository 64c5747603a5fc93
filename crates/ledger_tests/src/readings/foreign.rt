//! Slips of another ledger. A slip is only its number and its point, so wherever these two are this
//! ledger's, it is taken for this ledger's own.
ghost use Rattle.std.specs.Prelude.{◌≡◌};

use crate::readings::slips::{Call, answer_of, outcome_of, reading};
use crate::readings::station::{TWIN, twins};
use crate::seen::{Outcome, Seen, number_of};
use crate::station::ROW;
use ledger::{Ledger, Point};
use std::test::Fail;

// How a call is answered with the slip of another ledger's first reading.
fn tried(ledger: &mut Ledger, sheet: &mut [Point; 2], call: Call) -> Result<Outcome, Fail>
    ensures { ledger.new.book.counts.points ≡ ledger.old.book.counts.points }
{
    let mut other = twins()?;
    let theirs = reading(&mut other, &mut [ROW, TWIN], 0, 77)?;
    Ok(outcome_of(call, ledger, sheet, &other, theirs))
}

// The first row while its first slip is open.
const KEPT: Point = Point {
    slip: 1,
    kept_reading: 15,
    ..ROW
};

// This ledger has made a reading, and its row's open slip has the number 2; the other's has the
// number 1.
#[test]
fn another_number(rt: HostRuntime) -> Result<(), Fail> {
    let mut ledger = twins()?;
    let mut sheet = [Point { slip: 2, ..KEPT }, TWIN];
    let slip = reading(&mut ledger, &mut sheet, 1, 15)?;
    answer_of(Call::Withdraw, &mut ledger, &mut sheet, slip)?;
    assert!(rt; tried(&mut ledger, &mut sheet, Call::Book)?.is(Some(21)));
    assert!(rt; tried(&mut ledger, &mut sheet, Call::HandOver(1))?.is(Some(21)));
    assert!(rt; tried(&mut ledger, &mut sheet, Call::Withdraw)?.is(Some(21)));
    Ok(())
}

// Number and point are the same: the other ledger's slip books the reading that this ledger's row
// keeps, and this ledger's own then finds none.
#[test]
fn the_same_number_and_point(rt: HostRuntime) -> Result<(), Fail> {
    let mut ledger = twins()?;
    let before = Seen::of(&ledger);
    let mut sheet = [ROW, TWIN];
    let own = reading(&mut ledger, &mut sheet, 0, 15)?;
    let theirs = tried(&mut ledger, &mut sheet, Call::Book);
    let late = answer_of(Call::Book, &mut ledger, &mut sheet, own);
    assert!(rt; theirs?.accepted() && number_of(late) == Some(21));
    let after = before.with_readings(1).with_booking([25_000, 0], -25_000);
    assert!(rt; Seen::of(&ledger) == after && sheet == [Point { reading: 15, ..ROW }, TWIN]);
    Ok(())
}

// Another ledger's sheet has a slip open where this ledger made no reading: there would be more
// bookings than readings. It can still be withdrawn.
#[test]
fn more_bookings_than_readings(rt: HostRuntime) -> Result<(), Fail> {
    let mut ledger = twins()?;
    let mut sheet = [KEPT, TWIN];
    assert!(rt; tried(&mut ledger, &mut sheet, Call::Book)?.is(Some(21)));
    assert!(rt; tried(&mut ledger, &mut sheet, Call::HandOver(1))?.is(Some(21)));
    assert!(rt; tried(&mut ledger, &mut sheet, Call::Withdraw)?.is(None) && sheet == [ROW, TWIN]);
    Ok(())
}
