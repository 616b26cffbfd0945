ghost use Rattle.std.specs.Prelude.{◌≡◌, ℕ};
ghost use Rattle.sheets.specs.Moves.{move_in, move_within};

use crate::parts::State;
use search::StepRule;
use sets::StateSet;

/// The moves as a step rule over the table of states.
#[derive(Drop)]
pub struct Moves<'a> {
    pub states: &'a [State],
}

impl StepRule for Moves<'_> {
    ghost steps = { λ rule. move_in rule.states.now };

    fn leads(&self, from: usize, to: usize) -> bool {
        self.states
            .get(from)
            .is_some_and(|state| state.successors.has(to))
    }
}

/// The moves that stay within the table of states, as a step rule.
#[derive(Drop)]
pub struct MovesWithin<'a> {
    pub moves: Moves<'a>,
}

impl StepRule for MovesWithin<'_> {
    ghost steps = { λ rule. move_within rule.moves.states.now };

    fn leads(&self, from: usize, to: usize) -> bool {
        to < self.moves.states.len() && self.moves.leads(from, to)
    }
}
