ghost use Rattle.std.specs.Prelude.{◌≡◌, ◌≤◌, length, is_ok, IfOk, nat_le};
ghost use Rattle.fixpoints.specs.Searches.{enough};
ghost use Rattle.search.specs.Next.{FirstStep};

use search::{Graph, NoRoom, StepRule};
use sets::StateSet;

/// A graph each of whose states a byte can name.
#[derive(Drop)]
pub(crate) struct SmallGraph<'a, R> {
    pub(crate) rule: &'a R,
    pub(crate) states: usize,
    ghost bytes: { states ≤ 256 },
}

impl<'a, R> SmallGraph<'a, R> {
    /// Refuses where a set of capacity `room` cannot hold the states, a byte cannot name each, or `slots` are fewer than two for each.
    pub(crate) fn new(graph: &Graph<'a, R>, room: usize, slots: usize) -> Result<Self, NoRoom>
        ensures fits { is_ok result ≡ enough graph.now.states room slots }
        ensures same { IfOk result (λ small. (small.states ≡ graph.now.states) × (small.rule ≡ graph.now.rule)) }
    {
        if graph.states > room || graph.states > 256 || 2 * graph.states > slots {
            return Err(NoRoom);
        }
        Ok(SmallGraph {
            rule: graph.rule,
            states: graph.states,
        })
    }
}

impl<R> SmallGraph<'_, R> {
    /// Refuses where a path of that length cannot name each state once.
    pub(crate) fn check_path(&self, path: &[u8]) -> Result<(), NoRoom>
        ensures { is_ok result ≡ nat_le self.now.states (length path.now) }
    {
        if self.states > path.len() {
            return Err(NoRoom);
        }
        Ok(())
    }
}

impl<R: StepRule> SmallGraph<'_, R> {
    /// The first state from `start` on that `set` has and `state` leads to.
    pub(crate) fn first_step<S: StateSet>(
        &self,
        state: usize,
        start: usize,
        set: &S,
    ) -> Option<usize>
        ensures { FirstStep self.now.states (R.steps self.now.rule.now) (S.holds set.now) state start result }
    {
        let graph = Graph {
            rule: self.rule,
            states: self.states,
        };
        graph.first_step(state, start, set)
    }
}
