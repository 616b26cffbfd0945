ghost use Rattle.std.specs.Prelude.{◌≡◌, ℕ, ◌<◌, ◌≤◌, true, ◌&&◌, [], ◌∷◌, length, is_ok, IfOk, Some, OnErr, OnOk, nat_le};
ghost use Rattle.search.specs.Stack.{contents, capacity, Behind};
ghost use Rattle.semantics.specs.Chains.{globally_chain, settled};
ghost use Rattle.semantics.specs.Sets.{Same};
ghost use Rattle.semantics.specs.Walks.{LoopingBy};
ghost use Rattle.fixpoints.specs.Searches.{enough, Inside};
ghost use Rattle.fixpoints.specs.Witnesses.{In, PathBack};

use crate::descent::place_of;
use crate::lasso::Lasso;
use crate::small_graph::SmallGraph;
use search::{Graph, NoRoom, Stack, StepRule};
use sets::StateSet;

impl<R: StepRule> SmallGraph<'_, R> {
    /// The lowest state of `set` that `state` leads to, where each state of the set leads to one.
    fn lowest_inside<S: StateSet>(&self, set: &S, state: usize) -> usize
        requires closed { Inside self.now.states (R.steps self.now.rule.now) (S.holds set.now) (S.holds set.now) }
        requires member { S.holds set.now state ≡ true }
        ensures { (result < self.now.states) × (S.holds set.now result ≡ true) × (R.steps self.now.rule.now state result ≡ true) }
    {
        self.first_step(state, 0, set).unwrap()
    }

    /// Walks from `start` by lowest steps inside `set` until one leads back to the walk, and answers the place that it leads to.
    fn follow<S: StateSet>(&self, set: &S, start: usize, walk: &mut Stack<'_, u8>) -> usize
        requires closed { Inside self.now.states (R.steps self.now.rule.now) (S.holds set.now) (S.holds set.now) }
        requires member { S.holds set.now start ≡ true }
        requires begins { contents walk.old ≡ start ∷ [] }
        requires room { self.now.states ≤ capacity walk.old }
        ensures behind { Behind walk.old walk.new }
        ensures some { 0 < length (contents walk.new) }
        ensures path { LoopingBy self.now.states (R.steps self.now.rule.now) (In (S.holds set.now)) start (record { path = contents walk.new; place = Some result }) }
    {
        let mut last = start;
        'walk: loop {
            let to = self.lowest_inside(set, last);
            if let Some(place) = place_of(walk.as_slice(), to) {
                return place;
            }
            let _ = walk.push(to as u8);
            last = to;
        }
    }
}

/// Makes `set` what `globally` makes it. If it has `state`, writes a path from there inside `operand` on which no state occurs
/// twice and whose last state leads back to one of its states from the front of `path`, and answers its length and that place.
/// Refused, with `set` and `path` as they were, where the set, the slots (two for each state) or the path (one for each) have no room.
pub fn globally_path<R: StepRule, F: StateSet, S: StateSet>(
    graph: &Graph<'_, R>,
    operand: &F,
    state: usize,
    set: &mut S,
    slots: &mut [u8],
    path: &mut [u8],
) -> Result<Option<Lasso>, NoRoom>
    ensures fits { is_ok result ≡ (enough graph.now.states S.CAPACITY (length slots.old) && nat_le graph.now.states (length path.old)) }
    ensures unchanged { OnErr result ((set.new ≡ set.old) × (path.new ≡ path.old)) }
    ensures set { OnOk result (Same (S.holds set.new) (settled graph.now.states (globally_chain graph.now.states (R.steps graph.now.rule.now) (F.holds operand.now)))) }
    ensures path { IfOk result (PathBack graph.now.states (R.steps graph.now.rule.now) (F.holds operand.now) state path.old path.new) }
{
    let small = SmallGraph::new(graph, S::limit(), slots.len())?;
    small.check_path(path)?;
    let _ = small.globally_rounds(operand, set, slots);
    if !set.has(state) {
        return Ok(None);
    }
    let mut walk = Stack::new(path);
    let _ = walk.push(state as u8);
    let place = small.follow(set, state, &mut walk);
    Ok(Some(Lasso {
        length: walk.len(),
        place,
    }))
}
