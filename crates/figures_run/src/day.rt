//! A worked day on a new ledger.
use crate::page::Page;
use ledger::{Particulars, Point, SharedOut};
use profiles::{EvenProfile, Weather};
use refusals::Refusal;
use scenario::{DayInputs, Entry, new_ledger, run_day};
use shares::ShareRule;
use std::fmt;

// 1 October 2009.
const FIRST_DAY: u32 = 3_561;

const DAY_FACTOR: u32 = 764_445;

// The only trader's litres, with 20,000 litres of loss: 600,000 are shared out.
const METERED: u64 = 380_000;

const DAY: DayInputs<'static> = DayInputs {
    weather: Weather {
        temperature: 100,
        season: 0,
    },
    entries: &[Entry {
        trader: 0,
        litres: METERED,
    }],
    inflow: 1_000_000,
    rate: 20_000,
};

// The trader's first point.
const FIRST: Particulars = Particulars {
    trader: 0,
    segment: 0,
    digits: 5,
    litres_per_unit: 1_000,
    reading: 0,
    scale_factor: 1_000_000,
};

// His points: of segment 0, and of segment 1 with half the scale factor.
const POINTS: [Particulars; 2] = [
    FIRST,
    Particulars {
        segment: 1,
        scale_factor: 500_000,
        ..FIRST
    },
];

// What the day came to: what the share-out returned, and the two work sheets as it left them.
#[derive(Drop)]
struct Worked {
    returned: SharedOut,
    uses: [u64; 2],
    shares: [u64; 2],
}

impl Worked {
    fn new<R: ShareRule>(rule: &R) -> Result<Worked, Refusal> {
        let even = EvenProfile::new(DAY_FACTOR)?;
        let mut sheet = [Point::UNUSED; 2];
        let mut ledger = new_ledger(FIRST_DAY, 1, &POINTS, &mut sheet)?;
        let mut uses = [0; 2];
        let mut shares = [0; 2];
        let returned = run_day(
            &mut ledger,
            &DAY,
            &mut sheet,
            &even,
            rule,
            &mut uses,
            &mut shares,
        )?;
        Ok(Worked {
            returned,
            uses,
            shares,
        })
    }

    // The day's line, and one for each point.
    fn lines(&self, page: &mut Page, name: &str) -> fmt::Result {
        page.begin("day")?;
        page.name(name)?;
        page.numbers(&[DAY.inflow, u64::from(DAY.rate), METERED])?;
        page.colon()?;
        page.numbers(&[
            self.returned.loss,
            self.returned.quantity,
            self.returned.total,
        ])?;
        page.end()?;
        for ((point, uses), share) in POINTS.iter().zip(&self.uses).zip(&self.shares) {
            page.begin("point")?;
            page.name(name)?;
            page.numbers(&[u64::from(point.scale_factor), u64::from(DAY_FACTOR)])?;
            page.colon()?;
            page.numbers(&[*uses, *share])?;
            page.end()?;
        }
        Ok(())
    }
}

pub(crate) fn day_lines<R: ShareRule>(page: &mut Page, name: &str, rule: &R) -> anyhow::Result<()> {
    Worked::new(rule)?.lines(page, name)?;
    Ok(())
}
