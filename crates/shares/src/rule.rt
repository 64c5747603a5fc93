//! What every share rule keeps, and what a rule must give to be one.
ghost use Rattle.std.specs.Prelude.{◌≡◌, ℕ, List, length};
ghost use Rattle.shares.specs.Fair.{sheet_after};
ghost use Rattle.shares.specs.Laws.{IsShareRule, SharesFairly, guarded_rule};
ghost use Rattle.shares.specs.Guarding.{guarded_laws};

use crate::sharing::Sharing;

/// A rule by which a quantity is shared among weights (docs/RULES.md, "Share rules"). The shares
/// depend on these two alone.
pub trait ShareRule {
    ghost shares: { ℕ → List ℕ → List ℕ };

    /// Writes the shares of `quantity` litres over `out`, and zeros where it cannot be shared by
    /// the weights, or where `out` has not as many places. It never refuses.
    fn share(&self, quantity: u64, weights: &[u64], out: &mut [u64])
        ensures { out.new
            ≡ sheet_after (shares quantity weights.now) weights.now (length out.old) };

    ghost laws: { IsShareRule shares };
}

/// A rule for what can be shared, which is all that a new rule has to give: with zeros for all else
/// it is a share rule.
pub trait ProportionalRule {
    ghost rule: { ℕ → List ℕ → List ℕ };

    /// Writes the shares over `out`, which has one place for each weight.
    fn share_fairly(&self, sharing: &Sharing, out: &mut [u64])
        requires { length sharing.now.weights.now ≡ length out.old }
        ensures { out.new ≡ rule sharing.now.quantity sharing.now.weights.now };

    ghost laws: { SharesFairly rule };
}

impl<R: ProportionalRule> ShareRule for R {
    ghost shares = { guarded_rule R.ProportionalRule.rule };

    ghost laws = { guarded_laws R.ProportionalRule.rule R.ProportionalRule.laws };

    fn share(&self, quantity: u64, weights: &[u64], out: &mut [u64]) {
        match Sharing::new(quantity, weights) {
            Some(sharing) if weights.len() == out.len() => self.share_fairly(&sharing, out),
            _ => out.fill(0),
        }
    }
}
