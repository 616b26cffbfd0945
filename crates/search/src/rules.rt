ghost use Rattle.std.specs.Prelude.{◌≡◌, ℕ, Bool};
ghost use Rattle.search.specs.Rows.{in_rows};

use sets::{BitSet, StateSet};

/// Which states a state leads to.
pub trait StepRule {
    ghost steps: { Self → ℕ → ℕ → Bool };

    /// Whether there is a step from `from` to `to`.
    fn leads(&self, from: usize, to: usize) -> bool
        ensures { result ≡ steps self.now from to };
}

/// The rule whose steps are those of another, taken backwards.
#[derive(Drop)]
pub struct Reversed<'a, R>(pub &'a R);

impl<R: StepRule> StepRule for Reversed<'_, R> {
    ghost steps = { λ rule from to. R.StepRule.steps rule.0.now to from };

    fn leads(&self, from: usize, to: usize) -> bool {
        self.0.leads(to, from)
    }
}

/// A rule by rows of bits: bit `to` of row `from`. A state that has no row leads nowhere.
#[derive(Drop)]
pub struct BitRows<'a> {
    pub rows: &'a [u128],
}

impl StepRule for BitRows<'_> {
    ghost steps = { λ rule. in_rows rule.rows.now };

    fn leads(&self, from: usize, to: usize) -> bool {
        match self.rows.get(from) {
            Some(row) => BitSet::from_bits(*row).has(to),
            None => false,
        }
    }
}
