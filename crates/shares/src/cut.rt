//! Where the largest of a sheet of remainders are cut off from the others.
ghost use Rattle.std.specs.Prelude.{◌≡◌, ◌-◌, ◌<◌, ◌≤◌, IfNone, IfSome, length};
ghost use Rattle.shares.specs.Fair.{max_weights, max_total};
ghost use Rattle.shares.specs.Counts.{count_above, count_from, IsCut};

use crate::largest::Rounding;
use std::cmp::Ordering;

// How many turns guess where the cut lies before they halve.
const GUESSES: u8 = 5;

// All remainders above `at` are cut off, and the first `more` of those at it.
#[derive(Clone, Copy)]
pub(crate) struct Cut {
    pub(crate) at: u64,
    pub(crate) more: u64,
}

// The marks between which the cut of the first `wanted` places lies: `reach` of the remainders are
// `low` or more, and `past` of them are above `high`.
#[derive(Drop)]
pub(crate) struct Span<'a> {
    rems: &'a [u64],
    wanted: u64,
    low: u64,
    high: u64,
    reach: u64,
    past: u64,
    ghost places: { length rems.now ≤ max_weights },
    ghost limit: { high ≤ max_total },
    ghost order: { low ≤ high },
    ghost reached: { reach ≡ count_from rems.now low },
    ghost passed: { past ≡ count_above rems.now high },
    ghost enough: { wanted ≤ reach },
    ghost few: { past ≤ wanted },
}

impl<'a> Span<'a> {
    // From 0 to the sum of the weights, which no remainder reaches.
    pub(crate) fn whole(rounding: &'a Rounding) -> Span<'a>
        ensures rems { result.rems.now ≡ rounding.now.sheet.now }
        ensures wanted { result.wanted ≡ rounding.now.rest }
    {
        Span {
            rems: rounding.sheet,
            wanted: rounding.rest,
            low: 0,
            high: rounding.sharing.total,
            reach: rounding.sheet.len() as u64,
            past: 0,
        }
    }

    // How many of the remainders are above `mark`. A sum of ones is faster than `filter` and
    // `count`.
    fn above(&self, mark: u64) -> u64
        ensures { result ≡ count_above self.now.rems.now mark }
    {
        self.rems.iter().map(|r| u64::from(*r > mark)).sum()
    }

    // How far from `low` the cut lies if the remainders are spread evenly.
    fn even_step(&self) -> u64
        requires { self.now.low < self.now.high }
        ensures { result < self.now.high - self.now.low }
    {
        let width = self.high - self.low;
        let step = width * self.reach.saturating_sub(self.wanted)
            / self.reach.saturating_sub(self.past).max(1);
        step.min(width - 1)
    }

    // The least remainder from `low` on, or `high` where none is below that: as many reach it as
    // reach `low`. A test in the fold is faster than a `filter` before it.
    fn least(&self) -> u64
        ensures from { self.now.low ≤ result }
        ensures to { result ≤ self.now.high }
        ensures same { count_from self.now.rems.now result
            ≡ count_from self.now.rems.now self.now.low }
    {
        self.rems.iter().fold(
            self.high,
            |least, r| if *r >= self.low { least.min(*r) } else { least },
        )
    }

    // The greatest remainder up to `high`, or `low` where none is above that: as many are above it
    // as are above `high`.
    fn greatest(&self) -> u64
        ensures from { self.now.low ≤ result }
        ensures to { result ≤ self.now.high }
        ensures same { count_above self.now.rems.now result
            ≡ count_above self.now.rems.now self.now.high }
    {
        self.rems.iter().fold(
            self.low,
            |greatest, r| if *r <= self.high {
                greatest.max(*r)
            } else {
                greatest
            },
        )
    }

    // Brings both marks to the nearest remainder between them.
    fn narrow(&mut self)
        ensures rems { self.new.rems.now ≡ self.old.rems.now }
        ensures wanted { self.new.wanted ≡ self.old.wanted }
        ensures nearer { self.new.high - self.new.low ≤ self.old.high - self.old.low }
    {
        self.low = self.least();
        self.high = self.greatest();
    }

    // The cut, if it is at `mark`. If not, the side of `mark` is left on which it lies.
    fn cut_at(&mut self, mark: u64) -> Option<Cut>
        requires from { self.old.low ≤ mark }
        requires to { mark < self.old.high }
        ensures cut { IfSome result
            (λ cut. IsCut self.old.rems.now self.old.wanted cut.at cut.more) }
        ensures rems { self.new.rems.now ≡ self.old.rems.now }
        ensures wanted { self.new.wanted ≡ self.old.wanted }
        ensures nearer { IfNone result
            (self.new.high - self.new.low < self.old.high - self.old.low) }
    {
        let above = self.above(mark);
        match above.cmp(&self.wanted) {
            Ordering::Equal => return Some(Cut { at: mark, more: 0 }),
            Ordering::Less => {
                self.high = mark;
                self.past = above;
            }
            Ordering::Greater => {
                self.low = mark + 1;
                self.reach = above;
            }
        }
        None
    }

    // The cut of the first `wanted` places. The first turns guess. Where no guess hits it, as when
    // it lies among equal remainders, the others halve what is left between two of them.
    pub(crate) fn find_cut(mut self) -> Cut
        ensures { IsCut self.entry.rems.now self.entry.wanted result.at result.more }
    {
        let mut guesses = 0..GUESSES;
        while self.low < self.high {
            let step = if guesses.next().is_some() {
                self.even_step()
            } else {
                (self.high - self.low) / 2
            };
            let mark = self.low + step;
            if let Some(cut) = self.cut_at(mark) {
                return cut;
            }
            if guesses.is_empty() {
                self.narrow();
            }
        }
        Cut {
            at: self.low,
            more: self.wanted - self.past,
        }
    }
}
