ghost use Rattle.std.specs.Prelude.{◌≡◌, ℕ, ◌<◌, ◌≤◌, Bool, true, ◌&&◌, [], length, take, is_ok, if◌then◌else◌, IfOk, None, OnErr, OnOk, ◌==◌, nat_le, slice_index};
ghost use Rattle.std.specs.List.{position};
ghost use Rattle.search.specs.Stack.{contents, capacity, Behind};
ghost use Rattle.semantics.specs.Chains.{until_chain, settled};
ghost use Rattle.semantics.specs.Sets.{Same};
ghost use Rattle.semantics.specs.Walks.{ReachingBy};
ghost use Rattle.fixpoints.specs.Rounds.{among, into_list, Ordered};
ghost use Rattle.fixpoints.specs.Searches.{enough};
ghost use Rattle.fixpoints.specs.Witnesses.{In, PathTo};

use crate::small_graph::SmallGraph;
use search::{Graph, NoRoom, Stack, StepRule};
use sets::StateSet;

/// Where `state` stands first among `items`.
pub(crate) fn place_of(items: &[u8], state: usize) -> Option<usize>
    ensures { result ≡ position (λ item. state == item) items.now }
{
    items.iter().position(|item| usize::from(*item) == state)
}

impl<R: StepRule> SmallGraph<'_, R> {
    /// Where a path goes on from `place`: at the first place before it that its state leads to, unless `goal` has its state.
    fn onward<H: StateSet>(&self, goal: &H, order: &[u8], place: usize) -> Option<usize>
        requires { place < length order.now }
        ensures { result ≡ (if H.holds goal.now (slice_index order.now place) then None else position (R.steps self.now.rule.now (slice_index order.now place)) (take place order.now)) }
    {
        let state = usize::from(order[place]);
        if goal.has(state) {
            return None;
        }
        order[..place]
            .iter()
            .position(|before| self.rule.leads(state, usize::from(*before)))
    }

    /// Walks from the state at `place` to ever earlier ones, until `goal` has the state.
    fn descend<H: StateSet>(&self, goal: &H, order: &[u8], start: usize, walk: &mut Stack<'_, u8>)
        requires within { start < length order.now }
        requires empty { contents walk.old ≡ [] }
        requires room { length order.now ≤ capacity walk.old }
        ensures behind { Behind walk.old walk.new }
        ensures path { (n : ℕ) (f : ℕ → Bool) → ((k : ℕ) → among order.now k ≡ true → k < n) → Ordered (R.steps self.now.rule.now) f (H.holds goal.now) order.now → ReachingBy n (R.steps self.now.rule.now) (In f) (In (H.holds goal.now)) (slice_index order.now start) (record { path = contents walk.new; place = None }) }
    {
        let mut place = start;
        let _ = walk.push(order[place]);
        while let Some(before) = self.onward(goal, order, place) {
            place = before;
            let _ = walk.push(order[place]);
        }
    }
}

/// Makes `set` what `until` makes it. If it has `state`, writes a path from there through `first` to `second` on which no state
/// occurs twice from the front of `path`, and answers its length.
/// Refused, with `set` and `path` as they were, where the set, the slots (two for each state) or the path (one for each) have no room.
pub fn until_path<R: StepRule, F: StateSet, H: StateSet, S: StateSet>(
    graph: &Graph<'_, R>,
    first: &F,
    second: &H,
    state: usize,
    set: &mut S,
    slots: &mut [u8],
    path: &mut [u8],
) -> Result<Option<usize>, NoRoom>
    ensures fits { is_ok result ≡ (enough graph.now.states S.CAPACITY (length slots.old) && nat_le graph.now.states (length path.old)) }
    ensures unchanged { OnErr result ((set.new ≡ set.old) × (path.new ≡ path.old)) }
    ensures set { OnOk result (Same (S.holds set.new) (settled graph.now.states (until_chain graph.now.states (R.steps graph.now.rule.now) (F.holds first.now) (H.holds second.now)))) }
    ensures path { IfOk result (PathTo graph.now.states (R.steps graph.now.rule.now) (F.holds first.now) (H.holds second.now) state path.old path.new) }
{
    let small = SmallGraph::new(graph, S::limit(), slots.len())?;
    small.check_path(path)?;
    let mut order = Stack::new(slots);
    let _ = small.until_order(first, second, set, &mut order);
    let order = order.as_slice();
    let Some(start) = place_of(order, state) else {
        return Ok(None);
    };
    let mut walk = Stack::new(path);
    small.descend(second, order, start, &mut walk);
    Ok(Some(walk.len()))
}
