//! The share-out of a measured day: test the rows, weigh them, share by the rule, book. Each is one
//! pass, and nothing allocates.
ghost use Rattle.std.specs.Prelude.{◌≡◌, ℕ, ◌+◌, ◌*◌, ◌^◌, ◌<◌, ◌≤◌, true, ◌++◌, map, length, take, drop, sum};
ghost use Rattle.std.specs.List.{list_all, range_with_len};
ghost use Rattle.rows.specs.Rows.{may_share, is_free, is_served, factors_at, row_at, profile_consumptions, shared_rows};
ghost use Rattle.ledger.specs.Accounts.{with_shares, running_days, settled_trader, CanSettle};
ghost use Rattle.ledger.specs.Grounds.{call_answer};
ghost use Rattle.ledger.specs.History.{Step, Shared};
ghost use Rattle.ledger.specs.Sharing.{CanCredit, IsWeighable, SharesOut, inputs_of, factors_on, day_quantity};
ghost use Rattle.ledger.specs.Sharing.{day_consumptions, shared_book, early_fault_of, work_sheets_of};

use super::Ledger;
use crate::book::Trader;
use crate::day::{Phase, SharedOut, Token};
use crate::measured::MeasuredDay;
use profiles::{Factors, Profile, Weather};
use refusals::{Refusal, Refused};
use rows::Point;
use shares::ShareRule;
use std::array;

// What a share-out asks of its rows, each of all of them.
#[derive(Clone, Copy)]
struct RowTests {
    may_share: bool,
    free: bool,
    served: bool,
}

// Tests the rows for the three in one pass.
fn test_rows(rows: &[Point], traders: u32, segments: u32) -> RowTests
    ensures share { result.may_share ≡ list_all (may_share traders) rows.now }
    ensures free { result.free ≡ list_all is_free rows.now }
    ensures served { result.served ≡ list_all (is_served segments) rows.now }
{
    let mut may_share = true;
    let mut free = true;
    let mut served = true;
    for row in rows {
        may_share &= row.may_share(traders);
        free &= row.is_free();
        served &= row.is_served(segments);
    }
    RowTests {
        may_share,
        free,
        served,
    }
}

// A day's weights: the factors of each segment, and the sum of the profile consumptions.
#[derive(Clone, Copy)]
struct Weights {
    factors: [Factors; 8],
    total: u64,
}

// The factors of each segment on a day: the profile is asked once a segment, not once a point.
fn ask<P: Profile>(profile: &P, weather: Weather) -> [Factors; 8]
    ensures { result ≡ map (λ (k : ℕ). P.Profile.tells profile.now k weather) (range_with_len 0 8) }
{
    array::from_fn(|segment| profile.tell(segment as u32, weather))
}

// Writes the rows' profile consumptions, and gives their sum.
fn weigh(rows: &[Point], factors: &[Factors; 8], uses: &mut [u64]) -> u64
    requires few { length rows.now ≤ 4096 }
    requires room { length uses.old ≡ length rows.now }
    requires segments { (k : ℕ) → k < length rows.now → (row_at rows.now k).segment < 8 }
    ensures written { uses.new ≡ profile_consumptions (factors_at factors.now) rows.now }
    ensures total { result ≡ sum (profile_consumptions (factors_at factors.now) rows.now) }
{
    let mut total = 0;
    for (i, row) in rows.iter().enumerate() {
        let own = row.profile_consumption(factors[row.segment as usize].day);
        uses[i] = own;
        total += own;
    }
    total
}

// Has the rule write the shares over the first n places.
fn divide<R: ShareRule>(rule: &R, quantity: u64, n: usize, uses: &[u64], shares: &mut [u64])
    requires weights { n ≤ length uses.now }
    requires room { n ≤ length shares.old }
    ensures { shares.new ≡ R.ShareRule.shares quantity (take n uses.now) ++ drop n shares.old }
{
    let front = &mut shares[..n];
    rule.share(quantity, &uses[..n], front);
}

// Books the shares of the rows: to their open sums and their traders' accounts; and the multipliers
// to their period sums.
fn credit(traders: &mut [Trader; 64], rows: &mut [Point], factors: &[Factors; 8], shares: &[u64])
    requires { CanCredit traders.old rows.old shares.now }
    ensures traders { traders.new ≡ with_shares traders.old rows.old shares.now (length rows.old) }
    ensures rows { rows.new ≡
        shared_rows (factors_at factors.now) rows.old shares.now (length rows.old) }
{
    for (i, share) in shares.iter().enumerate() {
        let row = rows[i];
        traders[row.trader as usize].credit(*share);
        rows[i] = row.shared(*share, factors[row.segment as usize]);
    }
}

// Moves the metered sums of today to the traders' accounts.
fn settle(traders: &mut [Trader; 64])
    requires { CanSettle traders.old }
    ensures { traders.new ≡ map settled_trader traders.old }
{
    for trader in traders.iter_mut() {
        trader.settle();
    }
}

impl Ledger {
    // The grounds of a share-out but for the last; uses and shares: the places of the work sheets.
    fn check_share_out<P: Profile>(
        &self,
        day: &MeasuredDay,
        sheet: &[Point],
        uses: usize,
        shares: usize,
    ) -> Result<(), Refusal>
        ensures { let segments = P.Profile.segments in
            let first = early_fault_of self.now.book sheet.now day.now segments uses shares in
            result ≡ call_answer first tt }
    {
        let rows = self.rows(sheet)?;
        if uses < rows.len() || shares < rows.len() {
            return Err(Refusal::WorkSheetLength);
        }
        let tests = test_rows(rows, self.book.counts.traders, P::segments_of());
        if !tests.may_share {
            return Err(Refusal::ForeignSheet);
        }
        if !day.is_running(self.book.phase) {
            return Err(Refusal::NotRunning);
        }
        if !tests.free {
            return Err(Refusal::SlipOpenAtShareOut);
        }
        if !tests.served {
            return Err(Refusal::SegmentNotServed);
        }
        Ok(())
    }

    // Asks the profile and weighs the points: their profile consumptions come into the first places
    // of the work sheet.
    fn weigh_day<P: Profile>(&self, sheet: &[Point], profile: &P, uses: &mut [u64]) -> Weights
        requires { IsWeighable self.now.book sheet.now (length uses.old) }
        ensures factors { let tells = P.Profile.tells profile.now in
            result.factors ≡ map (factors_on self.now.book.phase tells) (range_with_len 0 8) }
        ensures written { let tells = P.Profile.tells profile.now in
            let consumptions = day_consumptions self.now.book sheet.now tells in
            uses.new ≡ consumptions ++ drop self.now.book.counts.points uses.old }
        ensures total { let tells = P.Profile.tells profile.now in
            result.total ≡ sum (day_consumptions self.now.book sheet.now tells) }
    {
        let n = self.book.counts.points;
        let factors = ask(profile, self.book.phase.weather());
        let front = &mut uses[..n];
        let total = weigh(&sheet[..n], &factors, front);
        Weights { factors, total }
    }

    // Shares the running day's quantity by the rule, books the shares and closes the day.
    fn close_day<R: ShareRule>(
        &mut self,
        sheet: &mut [Point],
        rule: &R,
        factors: &[Factors; 8],
        uses: &[u64],
        shares: &mut [u64],
    )
        requires weighed { IsWeighable self.old.book sheet.old (length uses.now) }
        requires room { self.old.book.counts.points ≤ length shares.old }
        requires running { running_days self.old.book.phase ≡ 1 }
        ensures given { let n = self.old.book.counts.points in
            let quantity = day_quantity self.old.book.phase in
            shares.new ≡ R.ShareRule.shares quantity (take n uses.now) ++ drop n shares.old }
        ensures state { let n = self.old.book.counts.points in
            let quantity = day_quantity self.old.book.phase in
            self.new.book
            ≡ shared_book self.old.book sheet.old (R.ShareRule.shares quantity (take n uses.now)) }
        ensures rows { let n = self.old.book.counts.points in
            let given = R.ShareRule.shares (day_quantity self.old.book.phase) (take n uses.now) in
            sheet.new ≡ shared_rows (factors_at factors.now) sheet.old given n }
    {
        let n = self.book.counts.points;
        let loss = self.book.phase.loss();
        divide(rule, self.book.phase.quantity(), n, uses, shares);
        let rows = &mut sheet[..n];
        credit(&mut self.book.traders, rows, factors, &shares[..n]);
        settle(&mut self.book.traders);
        self.book.loss += loss;
        self.book.counts.shared += 1;
        self.book.next_day += 1;
        self.book.phase = Phase::Idle;
    }

    /// Shares out a measured day by a profile and a share rule. The first places of the first work
    /// sheet get the points' profile consumptions, those of the second their shares, in litres. Or
    /// refusal 1, 2, 11, 20, 30, 31 or 32, which hands the day back; after 32 those places of the
    /// first work sheet hold 0.
    pub fn share_out<P: Profile, R: ShareRule>(
        &mut self,
        day: MeasuredDay,
        sheet: &mut [Point],
        profile: &P,
        rule: &R,
        uses: &mut [u64],
        shares: &mut [u64],
    ) -> Result<SharedOut, Refused<MeasuredDay>>
        ensures became { let tells = P.Profile.tells profile.now in
            let segments = P.Profile.segments in
            let inputs = inputs_of tells segments R.ShareRule.shares uses.old shares.old in
            SharesOut self.old.book sheet.old day inputs
            result self.new.book sheet.new (work_sheets_of uses.new shares.new) }
        ensures run { let tells = P.Profile.tells profile.now in
            let segments = P.Profile.segments in
            let inputs = inputs_of tells segments R.ShareRule.shares uses.old shares.old in
            Step (Shared day inputs result (work_sheets_of uses.new shares.new))
            self.old.book sheet.old self.new.book sheet.new }
    {
        if let Err(why) = self.check_share_out::<P>(&day, sheet, uses.len(), shares.len()) {
            return Err(Refused { why, given: day });
        }
        let quantity = self.book.phase.quantity();
        let loss = self.book.phase.loss();
        let Weights { factors, total } = self.weigh_day(sheet, profile, uses);
        if quantity > 0 && total == 0 {
            return Err(Refused {
                why: Refusal::NoWeight,
                given: day,
            });
        }
        self.close_day(sheet, rule, &factors, uses, shares);
        day.end();
        Ok(SharedOut {
            quantity,
            total,
            loss,
        })
    }
}
