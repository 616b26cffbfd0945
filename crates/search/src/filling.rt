ghost use Rattle.std.specs.Prelude.{◌≡◌, is_ok, MatchResult, nat_le};
ghost use Rattle.semantics.specs.Sets.{Same};
ghost use Rattle.search.specs.Filled.{Filled};

use sets::StateSet;

/// A search was refused for want of room.
#[derive(Clone, Copy, PartialEq, Eq, Debug)]
pub struct NoRoom;

/// Makes `set` the states below `states` that `test` accepts, or refuses where it cannot hold them.
pub fn fill<F: Fn(usize) -> bool, S: StateSet>(
    states: usize,
    test: F,
    set: &mut S,
) -> Result<(), NoRoom>
    requires { F.IsAlwaysCallable test }
    ensures fits { is_ok result ≡ nat_le states S.CAPACITY }
    ensures after { MatchResult result (λ _. Filled (F.post test) states (S.holds set.new)) (λ _. Same (S.holds set.new) (S.holds set.old)) }
{
    if states > S::limit() {
        return Err(NoRoom);
    }
    set.clear();
    for state in 0..states {
        if test(state) {
            let _ = set.put(state);
        }
    }
    Ok(())
}
