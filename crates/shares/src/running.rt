//! The running rule.
ghost use Rattle.shares.specs.Rules.{running_shares};
ghost use Rattle.shares.specs.RunningLaws.{running_laws};

use crate::rule::ProportionalRule;
use crate::sharing::Sharing;

/// Each place gets what the weights up to it get together, rounded down, less what those before it
/// got (docs/RULES.md, "Share rules").
#[derive(Clone, Copy)]
pub struct Running;

impl ProportionalRule for Running {
    ghost rule = { running_shares };

    ghost laws = { running_laws };

    fn share_fairly(&self, sharing: &Sharing, out: &mut [u64]) {
        let mut sum = 0;
        let mut given = 0;
        for (i, w) in sharing.weights.iter().enumerate() {
            sum += *w;
            let so_far = sharing.floor(sum);
            out[i] = so_far - given;
            given = so_far;
        }
    }
}
