//! Bookings, hand-overs and withdrawals that are refused.
use crate::readings::slips::{Call, answer_of, outcome_of, reading};
use crate::readings::station::{TWIN, three_points, twins};
use crate::seen::{Outcome, Seen, number_of};
use crate::station::ROW;
use ledger::Point;
use std::test::Fail;

// How a call is answered with the slip of the first point's first reading and this sheet.
fn tried<const N: usize>(call: Call, rows: [Point; N]) -> Result<Outcome, Fail> {
    let mut ledger = twins()?;
    let slip = reading(&mut ledger, &mut [ROW, TWIN], 0, 15)?;
    let before = Seen::of(&ledger);
    let mut sheet = rows;
    let number = number_of(answer_of(call, &mut ledger, &mut sheet, slip));
    Ok(Outcome::new(number, before, &ledger).with_sheet(sheet == rows))
}

// The same where the slip is the third point's of another ledger, and this one has two.
fn past_the_points<const N: usize>(call: Call, rows: [Point; N]) -> Result<Outcome, Fail> {
    let mut ledger = twins()?;
    let mut other = three_points()?;
    let slip = reading(&mut other, &mut [ROW, TWIN, ROW], 2, 15)?;
    let mut sheet = rows;
    Ok(outcome_of(call, &mut ledger, &mut sheet, &other, slip))
}

// The first point's row with its slip open; the same out of its ranges, of a trader not admitted,
// and with another slip open.
const OPEN: Point = Point {
    slip: 1,
    kept_reading: 15,
    ..ROW
};

const FOREIGN: Point = Point { digits: 3, ..OPEN };

const NOBODYS: Point = Point { trader: 2, ..OPEN };

const ANOTHER: Point = Point { slip: 2, ..OPEN };

// A call with this first row, and the number of its refusal, if any.
#[derive(Clone, Copy)]
struct Case {
    call: Call,
    row: Point,
    number: Option<u8>,
}

// Each ground beside one that comes after it, where there is one. A withdrawal asks nothing of the
// row but its slip.
static CASES: [Case; 13] = [
    Case {
        call: Call::Book,
        row: Point { slip: 2, ..FOREIGN },
        number: Some(11),
    },
    Case {
        call: Call::Book,
        row: Point { slip: 2, ..NOBODYS },
        number: Some(11),
    },
    Case {
        call: Call::Book,
        row: ANOTHER,
        number: Some(21),
    },
    Case {
        call: Call::Book,
        row: ROW,
        number: Some(21),
    },
    Case {
        call: Call::Book,
        row: OPEN,
        number: None,
    },
    Case {
        call: Call::HandOver(1),
        row: Point { slip: 2, ..FOREIGN },
        number: Some(11),
    },
    Case {
        call: Call::HandOver(1),
        row: Point { slip: 2, ..NOBODYS },
        number: Some(11),
    },
    Case {
        call: Call::HandOver(0),
        row: ANOTHER,
        number: Some(21),
    },
    Case {
        call: Call::HandOver(0),
        row: OPEN,
        number: Some(29),
    },
    Case {
        call: Call::HandOver(1),
        row: OPEN,
        number: None,
    },
    Case {
        call: Call::Withdraw,
        row: ANOTHER,
        number: Some(21),
    },
    Case {
        call: Call::Withdraw,
        row: ROW,
        number: Some(21),
    },
    Case {
        call: Call::Withdraw,
        row: FOREIGN,
        number: None,
    },
];

#[test]
fn rows_and_slips(rt: HostRuntime) -> Result<(), Fail> {
    for case in &CASES {
        assert!(rt; tried(case.call, [case.row, TWIN])?.is(case.number));
    }
    Ok(())
}

// A sheet too short or too long comes before a trader or a row.
#[test]
fn sheets_of_a_wrong_length(rt: HostRuntime) -> Result<(), Fail> {
    assert!(rt; tried(Call::Book, [FOREIGN; 1])?.is(Some(1)));
    assert!(rt; tried(Call::Book, [OPEN; 4097])?.is(Some(1)));
    assert!(rt; tried(Call::HandOver(2), [OPEN; 1])?.is(Some(1)));
    assert!(rt; tried(Call::Withdraw, [ANOTHER; 1])?.is(Some(1)));
    Ok(())
}

// No such trader comes before no such point, and that before a row.
#[test]
fn no_such_trader_or_point(rt: HostRuntime) -> Result<(), Fail> {
    assert!(rt; past_the_points(Call::HandOver(2), [OPEN, TWIN, OPEN])?.is(Some(3)));
    assert!(rt; past_the_points(Call::HandOver(1), [FOREIGN; 3])?.is(Some(4)));
    assert!(rt; past_the_points(Call::Book, [FOREIGN; 3])?.is(Some(4)));
    assert!(rt; past_the_points(Call::Withdraw, [ANOTHER; 3])?.is(Some(4)));
    Ok(())
}
