//! The rule of the largest remainders. There is no place to sort in: the remainders stand in the
//! sheet of shares until the cut is found between those that get a litre more and the others.
ghost use Rattle.std.specs.Prelude.{◌≡◌, ◌≤◌, length};
ghost use Rattle.shares.specs.Rules.{remainders, litres_left, largest_remainder_shares};
ghost use Rattle.shares.specs.Counts.{IsCut};
ghost use Rattle.shares.specs.LargestLaws.{largest_laws};

use crate::cut::{Cut, Span};
use crate::rule::ProportionalRule;
use crate::sharing::Sharing;

/// Each place gets its proportion rounded down, and the litres left go one each to the largest
/// remainders, the lower place first where they are equal (docs/RULES.md, "Share rules").
#[derive(Clone, Copy)]
pub struct LargestRemainder;

impl ProportionalRule for LargestRemainder {
    ghost rule = { largest_remainder_shares };

    ghost laws = { largest_laws };

    fn share_fairly(&self, sharing: &Sharing, out: &mut [u64]) {
        let cut = Rounding::new(sharing, out).cut();
        // A litre more for those above the cut, and for the first places at it.
        let mut more = cut.more;
        for (i, w) in sharing.weights.iter().enumerate() {
            let r = out[i];
            let extra = if r > cut.at {
                1
            } else if r == cut.at && more > 0 {
                more -= 1;
                1
            } else {
                0
            };
            out[i] = sharing.floor(*w) + extra;
        }
    }
}

// A sharing with every proportion rounded down: the sheet holds the remainders, and `rest` litres
// are left.
#[derive(Drop)]
pub(crate) struct Rounding<'s, 'w> {
    pub(crate) sharing: Sharing<'w>,
    pub(crate) sheet: &'s mut [u64],
    pub(crate) rest: u64,
    ghost rems: { sheet.now ≡ remainders sharing.quantity sharing.weights.now },
    ghost remain: { rest ≡ litres_left sharing.quantity sharing.weights.now },
}

impl<'s, 'w> Rounding<'s, 'w> {
    fn new(sharing: &Sharing<'w>, sheet: &'s mut [u64]) -> Rounding<'s, 'w>
        requires { length sharing.now.weights.now ≡ length sheet.old }
        ensures same_sharing { result.sharing ≡ sharing.now }
        ensures same_sheet { result.sheet.ghost_name ≡ sheet.entry.ghost_name }
    {
        let mut given = 0;
        for (i, w) in sharing.weights.iter().enumerate() {
            given += sharing.floor(*w);
            sheet[i] = sharing.remainder(*w);
        }
        Rounding {
            sharing: *sharing,
            sheet,
            rest: sharing.quantity - given,
        }
    }

    // Between the places that get a litre more and those that do not.
    fn cut(&self) -> Cut
        ensures { IsCut self.now.sheet.now self.now.rest result.at result.more }
    {
        Span::whole(self).find_cut()
    }
}
