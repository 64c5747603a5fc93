//! Admitting traders and points.
use crate::seen::{Outcome, Seen, number_of};
use crate::station::{GIVEN, ROW, SECOND, SHEET, two_points, two_traders};
use ledger::{Ledger, Particulars, Point};
use std::test::Fail;

// How a point's admission is answered.
fn admission(ledger: &mut Ledger, sheet: &mut [Point], given: Particulars) -> Outcome {
    let before = Seen::of(ledger);
    let number = number_of(ledger.admit_point(sheet, given));
    Outcome::new(number, before, ledger)
}

#[test]
fn a_sixty_fifth_trader_has_no_place(rt: HostRuntime) -> Result<(), Fail> {
    let mut ledger = Ledger::new(0);
    for number in 0..64u32 {
        assert!(rt; ledger.admit_trader()? == number);
    }
    let before = Seen::of(&ledger);
    let number = number_of(ledger.admit_trader());
    assert!(rt; Outcome::new(number, before, &ledger).refused(26));
    Ok(())
}

// The row is written as given, and only at the next place.
#[test]
fn admits_at_the_next_place(rt: HostRuntime) -> Result<(), Fail> {
    let mut sheet = [Point::UNUSED; 3];
    let ledger = two_points(&mut sheet, SECOND)?;
    assert!(rt; sheet == SHEET);
    assert!(rt; ledger.counts().points == 2);
    Ok(())
}

// Whether a point is refused for its particulars, and leaves the sheet as it was.
fn unfit(given: Particulars) -> Result<bool, Fail> {
    let mut ledger = two_traders()?;
    let mut sheet = [Point::UNUSED; 1];
    let outcome = admission(&mut ledger, &mut sheet, given);
    Ok(outcome.refused(7) && sheet == [Point::UNUSED; 1])
}

// Each particular one past an end of its range.
static PAST: [Particulars; 9] = [
    Particulars {
        segment: 8,
        ..GIVEN
    },
    Particulars {
        digits: 3,
        reading: 0,
        ..GIVEN
    },
    Particulars { digits: 9, ..GIVEN },
    Particulars {
        litres_per_unit: 0,
        ..GIVEN
    },
    Particulars {
        litres_per_unit: 2001,
        ..GIVEN
    },
    Particulars {
        reading: 100_000,
        ..GIVEN
    },
    Particulars {
        digits: 4,
        reading: 10_000,
        ..GIVEN
    },
    Particulars {
        digits: 8,
        reading: 100_000_000,
        ..GIVEN
    },
    Particulars {
        scale_factor: 2_000_001,
        ..GIVEN
    },
];

#[test]
fn particulars_past_their_ends(rt: HostRuntime) -> Result<(), Fail> {
    for given in &PAST {
        assert!(rt; unfit(*given)?);
    }
    Ok(())
}

// Each particular at an end of its range.
#[test]
fn particulars_at_their_ends(rt: HostRuntime) -> Result<(), Fail> {
    let mut ledger = two_traders()?;
    let mut sheet = [Point::UNUSED; 2];
    let low = Particulars {
        trader: 0,
        segment: 0,
        digits: 4,
        litres_per_unit: 1,
        reading: 9999,
        scale_factor: 0,
    };
    let high = Particulars {
        trader: 1,
        segment: 7,
        digits: 8,
        litres_per_unit: 2000,
        reading: 99_999_999,
        scale_factor: 2_000_000,
    };
    assert!(rt; admission(&mut ledger, &mut sheet, low).accepted());
    assert!(rt; admission(&mut ledger, &mut sheet, high).accepted());
    Ok(())
}

#[test]
fn a_third_trader_and_a_third_place(rt: HostRuntime) -> Result<(), Fail> {
    let mut sheet = [Point::UNUSED; 2];
    let mut ledger = two_points(&mut sheet, SECOND)?;
    let filled = sheet;
    assert!(rt; admission(&mut ledger, &mut sheet, GIVEN).refused(26));
    assert!(rt; admission(&mut ledger, &mut sheet, Particulars { trader: 2, ..GIVEN }).refused(3));
    assert!(rt; sheet == filled);
    Ok(())
}

// Two grounds at once: the lower number is returned.
#[test]
fn the_first_ground_of_an_admission(rt: HostRuntime) -> Result<(), Fail> {
    let mut sheet = [Point::UNUSED; 2];
    let mut ledger = two_points(&mut sheet, SECOND)?;
    let nobody = Particulars {
        trader: 2,
        segment: 8,
        ..GIVEN
    };
    assert!(rt; admission(&mut ledger, &mut [ROW; 1], nobody).refused(1));
    assert!(rt; admission(&mut ledger, &mut sheet, nobody).refused(3));
    assert!(rt;
        admission(
            &mut ledger,
            &mut sheet,
            Particulars {
                segment: 8,
                ..GIVEN
            },
        )
        .refused(7)
    );
    Ok(())
}

#[test]
fn sheets_of_a_wrong_length(rt: HostRuntime) -> Result<(), Fail> {
    let mut ledger = two_points(&mut [Point::UNUSED; 2], SECOND)?;
    let mut short = [ROW; 1];
    assert!(rt; admission(&mut ledger, &mut short, GIVEN).refused(1) && short == [ROW; 1]);
    let mut long = [ROW; 4097];
    assert!(rt; admission(&mut ledger, &mut long, GIVEN).refused(1) && long == [ROW; 4097]);
    assert!(rt; admission(&mut ledger, &mut [ROW; 4096], GIVEN).accepted());
    Ok(())
}
