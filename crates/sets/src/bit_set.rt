ghost use Rattle.std.specs.Prelude.{◌≡◌, ℕ, false};
ghost use Rattle.sets.specs.Bits.{in_bits};
ghost use Rattle.sets.specs.Bounds.{bits_small};

use crate::StateSet;

/// The states as the bits of one number: state `k` is in where bit `k` is set.
#[derive(Clone, Copy)]
pub struct BitSet {
    pub bits: u128,
}

impl BitSet {
    /// The empty set.
    pub fn new() -> BitSet
        ensures value { result.bits ≡ 0 }
        ensures empty { (k : ℕ) → in_bits result.bits k ≡ false }
    {
        BitSet { bits: 0 }
    }

    /// The set whose states are the bits of `bits`.
    pub fn from_bits(bits: u128) -> BitSet
        ensures { result.bits ≡ bits }
    {
        BitSet { bits }
    }

    /// The states as the bits of a number.
    pub fn bits(&self) -> u128
        ensures { result ≡ self.now.bits }
    {
        let BitSet { bits } = *self;
        bits
    }
}

impl StateSet for BitSet {
    const CAPACITY: usize = 128;

    ghost CAPACITY = { 128 };

    ghost holds = { λ set. in_bits set.bits };

    ghost bounded = { λ x k h. bits_small x.bits k h };

    fn put(&mut self, state: usize) -> bool {
        if state >= Self::CAPACITY {
            return false;
        }
        self.bits |= 1 << state;
        true
    }

    fn take(&mut self, state: usize) {
        if state < Self::CAPACITY {
            self.bits &= !(1 << state);
        }
    }

    fn clear(&mut self) {
        self.bits = 0;
    }

    fn has(&self, state: usize) -> bool {
        state < Self::CAPACITY && (self.bits >> state) & 1 == 1
    }

    fn join(&mut self, other: &BitSet) {
        self.bits |= other.bits;
    }
}
