//! A quantity and the weights by which it can be shared.
ghost use Rattle.std.specs.Prelude.{◌≡◌, ◌*◌, ◌/◌, ◌%◌, ◌≤◌, true, false, IfSome, IfNone, sum};
ghost use Rattle.shares.specs.Fair.{max_quantity, max_total, fair};

/// The most litres that are shared at once.
pub const MAX_QUANTITY: u64 = 1_000_000_000;

/// The most weights.
pub const MAX_WEIGHTS: usize = 4096;

/// The largest weight.
pub const MAX_WEIGHT: u64 = 2_000_000;

/// A quantity and weights within their limits, not all of them 0 (docs/RULES.md, "Share rules").
#[derive(Clone, Copy)]
pub struct Sharing<'a> {
    /// In litres.
    pub quantity: u64,
    /// At most 4,096, each at most 2,000,000.
    pub weights: &'a [u64],
    /// The sum of the weights.
    pub total: u64,
    pub ghost fairly: { fair quantity weights.now ≡ true },
    pub ghost whole: { total ≡ sum weights.now },
    pub ghost limit: { total ≤ max_total },
}

impl<'a> Sharing<'a> {
    /// The sharing of `quantity` litres by the weights, if they can be shared by them.
    pub fn new(quantity: u64, weights: &'a [u64]) -> Option<Sharing<'a>>
        ensures some { IfSome result
            (λ s. (s.quantity ≡ quantity) × (s.weights.now ≡ weights.now)) }
        ensures none { IfNone result (fair quantity weights.now ≡ false) }
    {
        if quantity > MAX_QUANTITY || weights.len() > MAX_WEIGHTS {
            return None;
        }
        if weights.iter().any(|w| *w > MAX_WEIGHT) {
            return None;
        }
        let total = weights.iter().sum();
        if total == 0 {
            return None;
        }
        Some(Sharing {
            quantity,
            weights,
            total,
        })
    }

    /// The exact proportion of `weight`, rounded down to litres.
    pub fn floor(&self, weight: u64) -> u64
        requires { weight ≤ sum self.now.weights.now }
        ensures value { result ≡ self.now.quantity * weight / sum self.now.weights.now }
        ensures most { result ≤ max_quantity }
    {
        self.quantity * weight / self.total
    }

    /// What that rounding cuts off, in parts of a litre: as many as the weights sum to make one.
    pub fn remainder(&self, weight: u64) -> u64
        requires { weight ≤ sum self.now.weights.now }
        ensures { result ≡ self.now.quantity * weight % sum self.now.weights.now }
    {
        self.quantity * weight % self.total
    }
}
