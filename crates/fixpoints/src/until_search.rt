ghost use Rattle.std.specs.Prelude.{◌≡◌, ℕ, ◌+◌, ◌≤◌, Bool, not, ◌&&◌, ◌||◌, [], ◌++◌, length, drop, is_ok, MatchResult, ◌==◌};
ghost use Rattle.semantics.specs.Sets.{Same, below};
ghost use Rattle.fixpoints.specs.Searches.{enough, Found};
ghost use Rattle.semantics.specs.Chains.{until_step, until_chain};
ghost use Rattle.fixpoints.specs.Rounds.{Frontier, Listing, Ordered, Ready, list_below, among};
ghost use Rattle.search.specs.Stack.{contents, capacity};

use crate::small_graph::SmallGraph;
use search::{Graph, NoRoom, Stack, StepRule, copy};
use sets::StateSet;

impl<R: StepRule> SmallGraph<'_, R> {
    /// Whether `state` is one of `first` outside `set` that leads to `target`.
    fn enters<F: StateSet, S: StateSet>(
        &self,
        state: usize,
        target: usize,
        first: &F,
        set: &S,
    ) -> bool
        ensures { result ≡ (not (S.holds set.now state) && (F.holds first.now state && R.steps self.now.rule.now state target)) }
    {
        !set.has(state) && first.has(state) && self.rule.leads(state, target)
    }

    /// Puts the states of `first` that lead to `target` into `set`, and pushes those that were not in it.
    fn add_predecessors<F: StateSet, S: StateSet>(
        &self,
        target: usize,
        first: &F,
        set: &mut S,
        order: &mut Stack<'_, u8>,
    )
        requires fits { self.now.states ≤ S.CAPACITY }
        requires listing { Listing self.now.states (S.holds set.old) order.old }
        ensures after { Same (S.holds set.new) (λ k. S.holds set.old k || below self.now.states (λ s. F.holds first.now s && R.steps self.now.rule.now s target) k) }
        ensures pushed { contents order.new ≡ contents order.old ++ list_below self.now.states (λ s. not (S.holds set.old s) && (F.holds first.now s && R.steps self.now.rule.now s target)) }
        ensures listing { Listing self.now.states (S.holds set.new) order.new }
    {
        for state in 0..self.states {
            if self.enters(state, target, first, set) {
                let _ = set.put(state);
                let _ = order.push(state as u8);
            }
        }
    }

    /// One round: adds to `set` the states that enter it and pushes them, and says whether there were any.
    /// Only steps to the states from place `done` on, which the last round pushed, are looked at.
    fn grow<F: StateSet, S: StateSet>(
        &self,
        first: &F,
        set: &mut S,
        order: &mut Stack<'_, u8>,
        done: &mut usize,
    ) -> bool
        requires fits { self.now.states ≤ S.CAPACITY }
        requires listing { Listing self.now.states (S.holds set.old) order.old }
        requires within { done.old ≤ length (contents order.old) }
        requires frontier { Frontier self.now.states (R.steps self.now.rule.now) (F.holds first.now) (S.holds set.old) (drop done.old (contents order.old)) }
        ensures after { Same (S.holds set.new) (until_step self.now.states (R.steps self.now.rule.now) (F.holds first.now) (S.holds set.old)) }
        ensures added { Same (among (drop done.new (contents order.new))) (λ k. S.holds set.new k && not (S.holds set.old k)) }
        ensures more { result ≡ not (length (drop done.new (contents order.new)) == 0) }
        ensures listing { Listing self.now.states (S.holds set.new) order.new }
        ensures within { done.new ≤ length (contents order.new) }
        ensures ordered { (h : ℕ → Bool) → Ordered (R.steps self.now.rule.now) (F.holds first.now) h (contents order.old) → Ordered (R.steps self.now.rule.now) (F.holds first.now) h (contents order.new) }
    {
        let end = order.len();
        for place in *done..end {
            let target = usize::from(order.as_slice()[place]);
            self.add_predecessors(target, first, set, order);
        }
        *done = end;
        order.len() > end
    }

    /// Pushes the states of `set`.
    fn push_members<S: StateSet>(&self, set: &S, stack: &mut Stack<'_, u8>)
        requires ready { Ready self.now.states stack.old }
        ensures after { contents stack.new ≡ list_below self.now.states (S.holds set.now) }
        ensures size { capacity stack.new ≡ capacity stack.old }
    {
        for state in 0..self.states {
            if set.has(state) {
                let _ = stack.push(state as u8);
            }
        }
    }

    /// `until`, where there is room for it. Pushes the states of the set so that each state of `first` alone leads to one before it.
    pub(crate) fn until_order<F: StateSet, H: StateSet, S: StateSet>(
        &self,
        first: &F,
        second: &H,
        set: &mut S,
        order: &mut Stack<'_, u8>,
    ) -> usize
        requires fits { self.now.states ≤ S.CAPACITY }
        requires ready { Ready self.now.states order.old }
        ensures after { Found self.now.states (until_chain self.now.states (R.steps self.now.rule.now) (F.holds first.now) (H.holds second.now)) (S.holds set.new) result }
        ensures listing { Listing self.now.states (S.holds set.new) order.new }
        ensures ordered { Ordered (R.steps self.now.rule.now) (F.holds first.now) (H.holds second.now) (contents order.new) }
    {
        copy(self.states, second, set).unwrap();
        self.push_members(set, order);
        let mut done = 0;
        let mut rounds = 0;
        'rounds: while self.grow(first, set, order, &mut done) {
            rounds += 1;
        }
        rounds
    }
}

/// Makes `set` the states from which steps through `first` lead to `second`, and answers the number of rounds that added a state.
/// Refused, with `set` as it was, where the set or the slots (two for each state) have no room.
pub fn until<R: StepRule, F: StateSet, H: StateSet, S: StateSet>(
    graph: &Graph<'_, R>,
    first: &F,
    second: &H,
    set: &mut S,
    slots: &mut [u8],
) -> Result<usize, NoRoom>
    ensures fits { is_ok result ≡ enough graph.now.states S.CAPACITY (length slots.old) }
    ensures after { MatchResult result (Found graph.now.states (until_chain graph.now.states (R.steps graph.now.rule.now) (F.holds first.now) (H.holds second.now)) (S.holds set.new)) (λ _. set.new ≡ set.old) }
{
    let small = SmallGraph::new(graph, S::limit(), slots.len())?;
    Ok(small.until_order(first, second, set, &mut Stack::new(slots)))
}
