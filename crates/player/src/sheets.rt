//! The point sheet and the two work sheets of a share-out.
ghost use Rattle.std.specs.Prelude.{◌≡◌, IfOk, vec_len};

use crate::report::Report;
use crate::trouble::Trouble;
use journal::kind::Kind;
use ledger::Point;
use std::alloc::{AllocError, Global};

const MAX_PLACES: u32 = 65536;

/// The point sheet, and the work sheets for the points' profile consumptions and for their shares,
/// in litres: three, as a share-out takes them.
#[derive(Drop)]
pub struct Sheets {
    pub(crate) points: Vec<Point>,
    pub(crate) uses: Vec<u64>,
    pub(crate) shares: Vec<u64>,
    // their size was given, or a point was to be admitted
    pub(crate) settled: bool,
    ghost uses_fit: { vec_len uses ≡ vec_len points },
    ghost shares_fit: { vec_len shares ≡ vec_len points },
}

impl Sheets {
    // Sheets of so many places, none of them used yet.
    pub(crate) fn new(heap: Global, places: usize) -> Result<Sheets, AllocError>
        ensures { IfOk result (λ s. vec_len s.points ≡ places) }
    {
        let uses = vec![in heap; 0; places]?;
        let shares = vec![in heap; 0; places]?;
        let points = vec![in heap; Point::UNUSED; places]?;
        Ok(Sheets {
            points,
            uses,
            shares,
            settled: false,
        })
    }

    // Takes the size that a `sheet` call gives, and prints its line.
    pub(crate) fn set(
        &mut self,
        heap: Global,
        places: u32,
        report: &mut Report,
    ) -> Result<(), Trouble> {
        if self.settled {
            return Err(Trouble::SheetLate);
        }
        if places > MAX_PLACES {
            return Err(Trouble::TooManyPlaces);
        }
        *self = Sheets::new(heap, places as usize)?;
        self.settled = true;
        Ok(report.print_call(Kind::Sheet, Ok(places), |report, places| {
            report.field("places", places)
        })?)
    }
}
