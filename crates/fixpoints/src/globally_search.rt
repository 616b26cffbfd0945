ghost use Rattle.std.specs.Prelude.{◌≡◌, ◌≢◌, ℕ, ◌*◌, ◌<◌, ◌≤◌, true, false, not, ◌&&◌, [], length, is_ok, MatchResult, OnOk, slice_index};
ghost use Rattle.semantics.specs.Sets.{Same, any};
ghost use Rattle.fixpoints.specs.Searches.{enough, Found, Inside};
ghost use Rattle.semantics.specs.Chains.{globally_step, globally_chain};
ghost use Rattle.fixpoints.specs.Rounds.{leaving, Ready, Starts, KeepsStep, KeepsSteps, list_below, among};
ghost use Rattle.search.specs.Stack.{contents, capacity};

use crate::small_graph::SmallGraph;
use search::{Graph, NoRoom, Stack, StepRule, copy};
use sets::StateSet;

/// Takes the states of the stack out of `set`, and empties the stack.
fn remove_all<S: StateSet>(stack: &mut Stack<'_, u8>, set: &mut S)
    ensures empty { contents stack.new ≡ [] }
    ensures after { Same (S.holds set.new) (λ k. not (among (contents stack.old) k) && S.holds set.old k) }
    ensures size { capacity stack.new ≡ capacity stack.old }
{
    while let Some(state) = stack.pop() {
        set.take(usize::from(state));
    }
}

impl<R: StepRule> SmallGraph<'_, R> {
    /// Whether `state` is one of `set` that has no step into it.
    /// The search for a step goes on where the last one ended. After the first round, when each state has a step that was `found`,
    /// a state whose step is still in the set is not asked about, so that no pair of states is asked about twice.
    fn leaves<S: StateSet>(&self, state: usize, set: &S, starts: &mut [u8], found: bool) -> bool
        requires below { state < self.now.states }
        requires known { found ≡ true → KeepsStep self.now.states (R.steps self.now.rule.now) (S.holds set.now) starts.old state }
        requires starts { Starts self.now.states (R.steps self.now.rule.now) (S.holds set.now) starts.old }
        ensures told { result ≡ leaving self.now.states (R.steps self.now.rule.now) (S.holds set.now) state }
        ensures starts { Starts self.now.states (R.steps self.now.rule.now) (S.holds set.now) starts.new }
        ensures kept { result ≡ false → KeepsStep self.now.states (R.steps self.now.rule.now) (S.holds set.now) starts.new state }
        ensures others { (k : ℕ) → k ≢ state → slice_index starts.new k ≡ slice_index starts.old k }
    {
        if !set.has(state) || found && set.has(usize::from(starts[state])) {
            return false;
        }
        match self.first_step(state, usize::from(starts[state]), set) {
            None => true,
            Some(to) => {
                starts[state] = to as u8;
                false
            }
        }
    }

    /// Pushes the states that the next round takes out of `set`.
    fn push_leaving<S: StateSet>(
        &self,
        set: &S,
        starts: &mut [u8],
        stack: &mut Stack<'_, u8>,
        found: bool,
    )
        requires ready { Ready self.now.states stack.old }
        requires starts { Starts self.now.states (R.steps self.now.rule.now) (S.holds set.now) starts.old }
        requires known { found ≡ true → KeepsSteps self.now.states (R.steps self.now.rule.now) (S.holds set.now) starts.old }
        ensures after { contents stack.new ≡ list_below self.now.states (leaving self.now.states (R.steps self.now.rule.now) (S.holds set.now)) }
        ensures size { capacity stack.new ≡ capacity stack.old }
        ensures starts { Starts self.now.states (R.steps self.now.rule.now) (S.holds set.now) starts.new }
        ensures kept { (s : ℕ) → s < self.now.states → leaving self.now.states (R.steps self.now.rule.now) (S.holds set.now) s ≡ false → KeepsStep self.now.states (R.steps self.now.rule.now) (S.holds set.now) starts.new s }
    {
        for state in 0..self.states {
            if self.leaves(state, set, starts, found) {
                let _ = stack.push(state as u8);
            }
        }
    }

    /// One round: takes out of `set` the states that leave it, and says whether there were any.
    fn shrink<S: StateSet>(
        &self,
        set: &mut S,
        starts: &mut [u8],
        stack: &mut Stack<'_, u8>,
        found: bool,
    ) -> bool
        requires ready { Ready self.now.states stack.old }
        requires starts { Starts self.now.states (R.steps self.now.rule.now) (S.holds set.old) starts.old }
        requires known { found ≡ true → KeepsSteps self.now.states (R.steps self.now.rule.now) (S.holds set.old) starts.old }
        requires below { (k : ℕ) → S.holds set.old k ≡ true → k < self.now.states }
        ensures ready { Ready self.now.states stack.new }
        ensures more { result ≡ any self.now.states (leaving self.now.states (R.steps self.now.rule.now) (S.holds set.old)) }
        ensures after { Same (S.holds set.new) (globally_step self.now.states (R.steps self.now.rule.now) (S.holds set.old)) }
        ensures starts { Starts self.now.states (R.steps self.now.rule.now) (S.holds set.new) starts.new }
        ensures kept { KeepsSteps self.now.states (R.steps self.now.rule.now) (S.holds set.new) starts.new }
    {
        self.push_leaving(set, starts, stack, found);
        let more = !stack.is_empty();
        remove_all(stack, set);
        more
    }

    /// `globally`, where there is room for it.
    pub(crate) fn globally_rounds<F: StateSet, S: StateSet>(
        &self,
        operand: &F,
        set: &mut S,
        slots: &mut [u8],
    ) -> usize
        requires fits { self.now.states ≤ S.CAPACITY }
        requires slots { 2 * self.now.states ≤ length slots.old }
        ensures after { Found self.now.states (globally_chain self.now.states (R.steps self.now.rule.now) (F.holds operand.now)) (S.holds set.new) result }
        ensures inside { Inside self.now.states (R.steps self.now.rule.now) (F.holds operand.now) (S.holds set.new) }
    {
        copy(self.states, operand, set).unwrap();
        let (starts, rest) = slots.split_at_mut(self.states);
        starts.fill(0);
        let mut stack = Stack::new(rest);
        let mut rounds = 0;
        'rounds: while self.shrink(set, starts, &mut stack, rounds > 0) {
            rounds += 1;
        }
        rounds
    }
}

/// Makes `set` the states from which endless steps stay inside `operand`, and answers the number of rounds that took a state out.
/// Refused, with `set` as it was, where the set or the slots (two for each state) have no room.
pub fn globally<R: StepRule, F: StateSet, S: StateSet>(
    graph: &Graph<'_, R>,
    operand: &F,
    set: &mut S,
    slots: &mut [u8],
) -> Result<usize, NoRoom>
    ensures fits { is_ok result ≡ enough graph.now.states S.CAPACITY (length slots.old) }
    ensures after { MatchResult result (Found graph.now.states (globally_chain graph.now.states (R.steps graph.now.rule.now) (F.holds operand.now)) (S.holds set.new)) (λ _. set.new ≡ set.old) }
    ensures inside { OnOk result (Inside graph.now.states (R.steps graph.now.rule.now) (F.holds operand.now) (S.holds set.new)) }
{
    let small = SmallGraph::new(graph, S::limit(), slots.len())?;
    Ok(small.globally_rounds(operand, set, slots))
}
