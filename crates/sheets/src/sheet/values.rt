ghost use Rattle.std.specs.Prelude.{◌≡◌, ◌^◌, ◌≤◌};
ghost use Rattle.semantics.specs.Sheets.{marked, shares};
ghost use Rattle.sheets.specs.Fits.{Fits};
ghost use Rattle.sheets.specs.Model.{model_of};
ghost use Rattle.sheets.specs.Moves.{move_within};

use crate::moves::{Moves, MovesWithin};
use crate::sheet::Sheet;
use sets::{BitSet, StateSet};

#[tactic(auto, unfolding(crate::specs::Model::model_of))]
impl Sheet {
    /// How many states there are.
    pub fn state_count(&self) -> usize
        ensures value { result ≡ (model_of self.now).states }
        ensures bound { result ≤ 128 }
    {
        self.states().len()
    }

    /// How many parties there are.
    pub fn party_count(&self) -> usize
        ensures { result ≡ (model_of self.now).parties }
    {
        usize::from(self.header.parties)
    }

    /// One more than the largest sum of powers of two for the marks of a state.
    pub fn mark_sums(&self) -> usize
        ensures { result ≡ 2 ^ (model_of self.now).marks }
    {
        1 << self.header.marks
    }

    /// How many channels there are.
    pub fn channel_count(&self) -> usize
        ensures { result ≡ (model_of self.now).channels }
    {
        usize::from(self.header.channels)
    }

    /// Whether a state is a start.
    pub fn is_start(&self, state: usize) -> bool
        ensures { result ≡ (model_of self.now).start state }
    {
        self.states().get(state).is_some_and(|state| state.start)
    }

    /// The sum of powers of two for the marks of a state, or 0 where there is none.
    pub fn mark_sum(&self, state: usize) -> u16
        ensures { result ≡ (model_of self.now).mark_sum state }
    {
        self.states().get(state).map_or(0, |state| state.marks)
    }

    /// Whether a state has a mark.
    pub fn has_mark(&self, state: usize, mark: usize) -> bool
        ensures { result ≡ marked (model_of self.now) mark state }
    {
        BitSet::from_bits(u128::from(self.mark_sum(state))).has(mark)
    }

    /// The position of a party at a state, or 0 where there is none.
    pub fn position(&self, state: usize, party: usize) -> u16
        ensures { result ≡ (model_of self.now).position state party }
    {
        match self.states().get(state) {
            Some(state) if party < usize::from(self.header.parties) => state.locals[party].position,
            _ => 0,
        }
    }

    /// The copy of a channel that a party has at a state, or 0 where there is none.
    pub fn copy(&self, state: usize, party: usize, channel: usize) -> u16
        ensures { result ≡ (model_of self.now).copy state party channel }
    {
        match self.states().get(state) {
            Some(state) if self.holders.has(channel, party) => {
                state.locals[party].copies[channel]
            }
            _ => 0,
        }
    }

    /// Whether a party holds a channel.
    pub fn holds(&self, channel: usize, party: usize) -> bool
        ensures { result ≡ (model_of self.now).holds channel party }
    {
        self.holders.has(channel, party)
    }

    /// Whether two parties hold some channel both.
    pub fn share(&self, one: usize, other: usize) -> bool
        ensures { Fits self.now → result ≡ shares (model_of self.now) one other }
    {
        self.holders.share(one, other)
    }

    /// The moves as a step rule.
    pub fn moves(&self) -> MovesWithin<'_>
        ensures { move_within result.moves.states.now ≡ (model_of self.now).moves }
    {
        let states = self.states();
        MovesWithin {
            moves: Moves { states },
        }
    }
}
