//! Sets of state numbers: one trait, and two kinds of set that meet it.
#![tactic(auto)]

ghost use Rattle.std.specs.Prelude.{◌≡◌, ℕ, ◌<◌, Bool, true, false, if◌then◌else◌, nat_lt};
ghost use Rattle.sets.specs.Member.{plus, minus};
ghost use Rattle.semantics.specs.Sets.{union, Same, count};

mod bit_set;
mod sorted_list;

pub use bit_set::BitSet;
pub use sorted_list::SortedList;

/// A set of state numbers, all below a capacity that is fixed for the kind of set.
///
/// What a set means is the predicate `holds`, and each contract says what it is after the call.
pub trait StateSet {
    /// The states that a set of this kind can hold are those below it.
    const CAPACITY: usize;

    ghost CAPACITY: { ℕ };

    ghost holds: { Self → ℕ → Bool };

    /// The capacity, as a call: what code that is generic over the kind of set asks for.
    fn limit() -> usize
        ensures { result ≡ CAPACITY }
    {
        Self::CAPACITY
    }

    /// Puts `state` in, or changes nothing and answers `false` where it is not below the capacity.
    fn put(&mut self, state: usize) -> bool
        ensures fits { result ≡ nat_lt state CAPACITY }
        ensures after { Same (holds self.new) (if result then plus (holds self.old) state else holds self.old) };

    /// Takes `state` out, if it is in.
    fn take(&mut self, state: usize)
        ensures { Same (holds self.new) (minus (holds self.old) state) };

    /// Takes every state out.
    fn clear(&mut self)
        ensures { (k : ℕ) → holds self.new k ≡ false };

    /// Whether `state` is in.
    fn has(&self, state: usize) -> bool
        ensures { result ≡ holds self.now state };

    /// Puts every state of `other` in.
    fn join(&mut self, other: &Self)
        ensures { Same (holds self.new) (union (holds self.old) (holds other.now)) };

    ghost bounded: { (set : Self) (k : ℕ) → holds set k ≡ true → k < CAPACITY };
}

/// How many of the states below `states` are in `set`.
pub fn count<S: StateSet>(set: &S, states: usize) -> usize
    ensures { result ≡ count states (S.holds set.now) }
{
    (0..states).fold(
        0usize,
        |total, state| total.wrapping_add(usize::from(set.has(state))),
    )
}
