//! The slips of a journal's readings that are still open, so that a journal names them by their
//! points.
ghost use Rattle.std.specs.Prelude.{◌≡◌, ◌≢◌, ◌<◌, ◌≤◌, ℕ, All, Ok, IfErr, IfNone, IfSome, vec_len, vec_capacity, OnOk, OnSome};
ghost use Rattle.ledger.specs.declared.slip.Slip.{Slip};
ghost use Rattle.player.specs.Slips.{IsLedgerSlip, IsPlaced, IsFound, HasSlip};

use ledger::{Ledger, MAX_POINTS, Point, Refused, Slip};
use refusals::Refusal;
use std::alloc::{AllocError, Global};

/// The open slips, in no order, and a table of where that of each point stands: a slip is put,
/// found and taken in a time that their number does not change. The ledger opens no second one of
/// a point. They stand in a Vec and not in a map, which may have no memory for a slip that a
/// refusal hands back: a slip cannot be let go.
pub struct Slips {
    open: Vec<Slip>,
    // for each point, where its slip stands in `open`, if it is open; empty until the first reading
    places: Vec<usize>,
    ghost made: { All IsLedgerSlip open.items },
    ghost full: { 0 < vec_len «open» → vec_len places ≡ 4096 },
}

/// Slips that a ledger would not take back, one at least.
pub struct Unended {
    /// The slips: they cannot be let go, and `Slips::end_elsewhere` ends them.
    pub slips: Slips,
    ghost some: { 0 < vec_len slips.open },
}

impl Slips {
    /// No slip is open yet.
    pub fn new(heap: Global) -> Slips
        ensures { vec_len result.open ≡ 0 }
    {
        Slips {
            open: Vec::new(heap),
            places: Vec::new(heap),
        }
    }

    // Where the point's open slip stands.
    fn place(&self, point: usize) -> Option<usize>
        ensures found { IfSome result (λ place. (slip : Slip)
            × IsPlaced self.now.open.items self.now.places.items point place slip) }
        ensures none { IfNone result (¬ HasSlip self.now.open.items self.now.places.items point) }
    {
        let place = *self.places.as_slice().get(point)?;
        // another point's may stand there: this point's was taken, or none was put yet
        let slip = self.open.as_slice().get(place)?;
        if slip.point() == point {
            Some(place)
        } else {
            None
        }
    }

    // The point's open slip.
    pub(crate) fn at(&self, point: usize) -> Option<&Slip>
        ensures found { IfSome result (λ slip.
            IsFound self.now.open.items self.now.places.items point slip.now) }
        ensures none { IfNone result (¬ HasSlip self.now.open.items self.now.places.items point) }
    {
        let place = self.place(point)?;
        self.open.as_slice().get(place)
    }

    // Takes the point's slip out; a place is then free for it.
    pub(crate) fn take(&mut self, point: usize) -> Option<Slip>
        ensures room { OnSome result (vec_len self.new.open < vec_capacity self.new.open) }
        ensures full { OnSome result (vec_len self.new.places ≡ 4096) }
        ensures made { IfSome result IsLedgerSlip }
        ensures found { IfSome result
            (IsFound self.old.open.items self.old.places.items point) }
        ensures none { IfNone result (¬ HasSlip self.old.open.items self.old.places.items point) }
        ensures others { (other : ℕ) → other ≢ point
            → HasSlip self.old.open.items self.old.places.items other
            → HasSlip self.new.open.items self.new.places.items other }
    {
        let place = self.place(point)?;
        let slip = self.open.swap_remove(place);
        // the last slip stands there now, unless it was the last one that was taken
        if let Some(moved) = self.open.as_slice().get(place) {
            self.places[moved.point()] = place;
        }
        Some(slip)
    }

    // Makes room for one slip more, and a table for every point.
    pub(crate) fn reserve(&mut self) -> Result<(), AllocError>
        ensures room { OnOk result (vec_len self.new.open < vec_capacity self.new.open) }
        ensures full { OnOk result (vec_len self.new.places ≡ 4096) }
        ensures all { (point : ℕ) (slip : Slip)
            → IsFound self.old.open.items self.old.places.items point slip
            → IsFound self.new.open.items self.new.places.items point slip }
    {
        self.places.resize(MAX_POINTS, 0)?;
        self.open.reserve(1)
    }

    // Puts a slip behind the others.
    pub(crate) fn put(&mut self, slip: Slip)
        requires room { vec_len self.old.open < vec_capacity self.old.open }
        requires full { vec_len self.old.places ≡ 4096 }
        requires made { IsLedgerSlip slip }
        ensures found { IsFound self.new.open.items self.new.places.items slip.point slip }
        ensures others { (other : ℕ) (open_slip : Slip) → other ≢ slip.point
            → IsFound self.old.open.items self.old.places.items other open_slip
            → IsFound self.new.open.items self.new.places.items other open_slip }
    {
        self.places[slip.point()] = self.open.len();
        self.open.push_reserved(slip);
    }

    // The answer of a call with a slip. Where it was refused the slip stays open.
    pub(crate) fn keep<T>(&mut self, answer: Result<T, Refused<Slip>>) -> Result<T, Refusal>
        requires room { vec_len self.old.open < vec_capacity self.old.open }
        requires full { vec_len self.old.places ≡ 4096 }
        requires made { IfErr answer (λ refused. IsLedgerSlip refused.given) }
        ensures found { IfErr answer (λ refused.
            IsFound self.new.open.items self.new.places.items refused.given.point refused.given) }
    {
        match answer {
            Ok(value) => Ok(value),
            Err(Refused { why, given }) => {
                self.put(given);
                Err(why)
            }
        }
    }

    // Withdraws every slip that is still open. The ledger refuses none of its own; one that it did
    // refuse comes back with the rest, since none can be let go.
    pub(crate) fn end(self, ledger: &Ledger, sheet: &mut [Point]) -> Result<(), Unended>
        ensures none { vec_len self.open ≡ 0 → result ≡ Ok tt }
        ensures few { IfErr result (λ left. vec_len left.slips.open ≤ vec_len self.open) }
    {
        let Slips { mut open, places } = self;
        while let Some(slip) = open.pop() {
            match ledger.withdraw(sheet, slip) {
                Ok(()) => {}
                Err(Refused { why: _, given }) => {
                    open.push_reserved(given);
                    return Err(Unended {
                        slips: Slips { open, places },
                    });
                }
            }
        }
        open.destroy_empty();
        Ok(())
    }

    /// Withdraws every slip from a ledger made up for it: their number. For slips that their own
    /// ledger would not take back, which happens to none of its own.
    pub fn end_elsewhere(self) -> usize
        ensures { result ≡ vec_len self.open }
    {
        let Slips {
            mut open,
            places: _,
        } = self;
        let ended = open.len();
        let ledger = full_ledger();
        while let Some(slip) = open.pop() {
            end_slip(&ledger, slip);
        }
        open.destroy_empty();
        ended
    }
}

// A ledger with as many points as it can have.
fn full_ledger() -> Ledger
    ensures { result.book.counts.points ≡ 4096 }
{
    let mut ledger = Ledger::new(0);
    let _trader = ledger.admit_trader();
    let mut sheet = [Point::UNUSED; MAX_POINTS];
    for _ in 0..MAX_POINTS {
        let _point = ledger.admit_point(&mut sheet, Point::UNUSED.into());
    }
    ledger
}

// Withdraws a slip from a full ledger. A slip is only its number and its point: a sheet on which it
// is open at every place will do.
fn end_slip(ledger: &Ledger, slip: Slip)
    requires full { ledger.now.book.counts.points ≡ 4096 }
    requires made { IsLedgerSlip slip }
{
    let row = Point {
        slip: slip.number(),
        ..Point::UNUSED
    };
    ledger.withdraw(&mut [row; MAX_POINTS], slip).unwrap();
}
