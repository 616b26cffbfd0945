ghost use Rattle.std.specs.Prelude.{◌≡◌, ℕ, ◌<◌, true, false, if◌then◌else◌, is_ok, MatchOption, nat_le};
ghost use Rattle.semantics.specs.Sets.{Same, has_step, into, within, some_next, every_next};
ghost use Rattle.search.specs.Next.{FirstStep};

use crate::StepRule;
use crate::filling::{NoRoom, fill};
use sets::StateSet;

/// The states below `states`, and the steps of `rule` between them.
#[derive(Drop)]
pub struct Graph<'a, R> {
    pub rule: &'a R,
    pub states: usize,
}

impl<R: StepRule> Graph<'_, R> {
    /// The first state from `start` on that `set` has and `state` leads to.
    pub fn first_step<S: StateSet>(&self, state: usize, start: usize, set: &S) -> Option<usize>
        ensures { FirstStep self.now.states (R.steps self.now.rule.now) (S.holds set.now) state start result }
    {
        (start..self.states).find(|to| set.has(*to) && self.rule.leads(state, *to))
    }

    /// Whether `from` leads to some state that `goal` has.
    fn leads_into<G: StateSet>(&self, from: usize, goal: &G) -> bool
        ensures { result ≡ into self.now.states (R.steps self.now.rule.now) (G.holds goal.now) from }
    {
        (0..self.states).any(|to| goal.has(to) && self.rule.leads(from, to))
    }

    /// Whether `goal` has every state that `from` leads to.
    fn leads_only_into<G: StateSet>(&self, from: usize, goal: &G) -> bool
        ensures { result ≡ within self.now.states (R.steps self.now.rule.now) (G.holds goal.now) from }
    {
        (0..self.states).all(|to| goal.has(to) || !self.rule.leads(from, to))
    }

    /// Makes `set` the states that have a step into `goal`, or refuses where it cannot hold them.
    pub fn next<G: StateSet, S: StateSet>(&self, goal: &G, set: &mut S) -> Result<(), NoRoom>
        ensures fits { is_ok result ≡ nat_le self.now.states S.CAPACITY }
        ensures after { Same (S.holds set.new) (if is_ok result then some_next self.now.states (R.steps self.now.rule.now) (G.holds goal.now) else S.holds set.old) }
    {
        fill(self.states, |from| self.leads_into(from, goal), set)
    }

    /// Makes `set` the states whose steps all lead into `goal`, or refuses where it cannot hold them.
    pub fn every_next<G: StateSet, S: StateSet>(&self, goal: &G, set: &mut S) -> Result<(), NoRoom>
        ensures fits { is_ok result ≡ nat_le self.now.states S.CAPACITY }
        ensures after { Same (S.holds set.new) (if is_ok result then every_next self.now.states (R.steps self.now.rule.now) (G.holds goal.now) else S.holds set.old) }
    {
        fill(self.states, |from| self.leads_only_into(from, goal), set)
    }

    /// The lowest state that leads to none.
    pub fn lowest_without_step(&self) -> Option<usize>
        ensures { MatchOption result ((u : ℕ) → u < self.now.states → has_step self.now.states (R.steps self.now.rule.now) u ≡ true) (λ s. (s < self.now.states) × (has_step self.now.states (R.steps self.now.rule.now) s ≡ false) × ((u : ℕ) → u < s → has_step self.now.states (R.steps self.now.rule.now) u ≡ true)) }
    {
        'states: for from in 0..self.states {
            for to in 0..self.states {
                if self.rule.leads(from, to) {
                    continue 'states;
                }
            }
            return Some(from);
        }
        None
    }
}
