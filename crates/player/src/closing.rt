//! The closing report: the accounts, the correction account and the balance (docs/JOURNAL.md).
use crate::report::Report;
use crate::slips::Slips;
use ledger::{Ledger, MAX_POINTS, Point};
use std::alloc::AllocError;
use year::totals;

#[derive(Drop)]
pub(crate) struct Closing<'a> {
    // the number of the day that still ran, which is abandoned
    pub(crate) abandoned: Option<u32>,
    pub(crate) ledger: &'a Ledger,
    pub(crate) sheet: &'a [Point],
    // the traders' names
    pub(crate) traders: &'a [Vec<u8>],
    // of all days shared out, in litres
    pub(crate) inflow: u64,
}

impl Closing<'_> {
    pub(crate) fn print(&self, report: &mut Report) -> Result<(), AllocError> {
        if let Some(opening) = self.abandoned {
            report.print_closing("abandon", |report| report.field("opening", opening))?;
        }
        let all = totals(self.ledger, self.sheet);
        report.print_closing("loss", |report| report.number(all.loss))?;
        for (trader, name) in (0u32..).zip(self.traders) {
            self.print_trader(trader, name.as_slice(), report)?;
        }
        report.print_closing("correction", |report| report.number(all.correction))?;
        report.print_closing("balance", |report| {
            report.field("inflow", self.inflow)?;
            report.field("loss", all.loss)?;
            report.field("accounts", all.accounts)?;
            report.field("correction", all.correction)?;
            // what was taken in and lies in no account: always 0
            let difference = i128::from(self.inflow).saturating_sub(all.inflow);
            report.field("difference", difference)
        })
    }

    fn print_trader(
        &self,
        trader: u32,
        name: &[u8],
        report: &mut Report,
    ) -> Result<(), AllocError> {
        report.print_closing("trader", |report| {
            report.number(trader)?;
            report.text(name)?;
            match self.ledger.account(trader) {
                Ok(account) => report.field("account", account)?,
                Err(why) => report.refusal(why)?,
            }
            report.text(b"open")?;
            match self.ledger.open_quantity(self.sheet, trader) {
                Ok(litres) => report.number(litres),
                Err(why) => report.refusal(why),
            }
        })
    }
}

// A line for each slip that is still open, in the order of the points.
pub(crate) fn print_open_slips(slips: &Slips, report: &mut Report) -> Result<(), AllocError> {
    for point in 0..MAX_POINTS {
        if let Some(slip) = slips.at(point) {
            report.print_closing("withdraw", |report| {
                report.field("point", point)?;
                report.field("slip", slip.number())
            })?;
        }
    }
    Ok(())
}
