//! What both share rules give for drawn quantities and weights, and for some small ones.
use crate::page::Page;
use shares::{LargestRemainder, Running, ShareRule};
use std::alloc::{AllocError, Global};

const CASES: u8 = 60;

// Draws numbers of 31 bits: the upper half of a linear congruential generator's state.
#[derive(Drop)]
struct Draws {
    state: u64,
}

impl Draws {
    fn draw(&mut self) -> u64 {
        let next = self.state.wrapping_mul(6_364_136_223_846_793_005);
        self.state = next.wrapping_add(1_442_695_040_888_963_407);
        self.state >> 33
    }

    // A fifth of the weights are 0.
    fn weight(&mut self) -> u64 {
        if self.draw() % 5 == 0 {
            return 0;
        }
        self.draw() % 2_000_001
    }

    fn weights(&mut self, heap: Global) -> Result<Vec<u64>, AllocError> {
        let more = self.draw() % 9;
        (0..=more).map(|_| self.weight()).collect(heap)
    }
}

// A quantity to be shared by weights.
#[derive(Drop)]
struct Case<'a> {
    quantity: u64,
    weights: &'a [u64],
}

impl Case<'_> {
    // The line of one rule.
    fn line<R: ShareRule>(&self, page: &mut Page, name: &str, rule: &R) -> anyhow::Result<()> {
        let mut shares = vec![in page.heap; 0u64; self.weights.len()]?;
        rule.share(self.quantity, self.weights, shares.as_mut_slice());
        page.begin(name)?;
        page.number(self.quantity)?;
        page.numbers(self.weights)?;
        page.colon()?;
        page.numbers(shares.as_slice())?;
        page.end()?;
        Ok(())
    }

    fn lines(&self, page: &mut Page) -> anyhow::Result<()> {
        self.line(page, "running", &Running)?;
        self.line(page, "largest", &LargestRemainder)
    }
}

// Some small cases.
const SMALL: [Case<'static>; 4] = [
    Case {
        quantity: 100,
        weights: &[1, 1, 1],
    },
    Case {
        quantity: 4,
        weights: &[2, 3],
    },
    Case {
        quantity: 7,
        weights: &[5, 5, 5, 5],
    },
    Case {
        quantity: 9,
        weights: &[0, 0],
    },
];

fn drawn_lines(page: &mut Page) -> anyhow::Result<()> {
    let mut draws = Draws { state: 2009 };
    for _ in 0..CASES {
        let weights = draws.weights(page.heap)?;
        let case = Case {
            quantity: draws.draw() % 1_000_000_001,
            weights: weights.as_slice(),
        };
        case.lines(page)?;
    }
    Ok(())
}

pub(crate) fn case_lines(page: &mut Page) -> anyhow::Result<()> {
    drawn_lines(page)?;
    for case in &SMALL {
        case.lines(page)?;
    }
    Ok(())
}
