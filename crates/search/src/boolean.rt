ghost use Rattle.std.specs.Prelude.{◌≡◌, if◌then◌else◌, is_ok, nat_le};
ghost use Rattle.semantics.specs.Sets.{Same, union, below, outside};

use crate::filling::{NoRoom, fill};
use sets::StateSet;

/// Makes `set` the states below `states` that `from` has, or refuses where it cannot hold them.
pub fn copy<F: StateSet, S: StateSet>(states: usize, from: &F, set: &mut S) -> Result<(), NoRoom>
    ensures fits { is_ok result ≡ nat_le states S.CAPACITY }
    ensures after { Same (S.holds set.new) (if is_ok result then below states (F.holds from.now) else S.holds set.old) }
{
    fill(states, |state| from.has(state), set)
}

/// Makes `set` the states below `states` that `a` lacks, or refuses where it cannot hold them.
pub fn complement<F: StateSet, S: StateSet>(states: usize, a: &F, set: &mut S) -> Result<(), NoRoom>
    ensures fits { is_ok result ≡ nat_le states S.CAPACITY }
    ensures after { Same (S.holds set.new) (if is_ok result then below states (outside (F.holds a.now)) else S.holds set.old) }
{
    fill(states, |state| !a.has(state), set)
}

/// Makes `set` the states below `states` that `a` or `b` has, or refuses where it cannot hold them.
pub fn either<F: StateSet, G: StateSet, S: StateSet>(
    states: usize,
    a: &F,
    b: &G,
    set: &mut S,
) -> Result<(), NoRoom>
    ensures fits { is_ok result ≡ nat_le states S.CAPACITY }
    ensures after { Same (S.holds set.new) (if is_ok result then below states (union (F.holds a.now) (G.holds b.now)) else S.holds set.old) }
{
    fill(states, |state| a.has(state) || b.has(state), set)
}
