ghost use Rattle.std.specs.Prelude.{◌≡◌, ◌<◌};
ghost use Rattle.checker.specs.Access.{agreed, all_agreed, same_position, accessible};

use search::StepRule;
use sheets::holders::Holders;
use sheets::parts::State;

/// Access for a debtor and a creditor: a state is accessible from another where, by what the two parties
/// have read, the debtor's commitment to the creditor still speaks of it.
#[derive(Drop)]
pub struct Access<'a> {
    pub states: &'a [State],
    pub holders: &'a Holders,
    pub debtor: usize,
    pub creditor: usize,
}

impl Access<'_> {
    /// Whether the copies of a channel allow the step from one state to the other.
    fn agrees(&self, before: &State, after: &State, channel: usize) -> bool
        ensures { result ≡ agreed self.now.holders.now before.now after.now self.now.debtor self.now.creditor channel }
    {
        let (debtor, creditor) = (self.debtor, self.creditor);
        let copy = |state: &State, party: usize| state.locals[party].copies[channel];
        match (
            self.holders.has(channel, debtor),
            self.holders.has(channel, creditor),
        ) {
            (true, true) => {
                copy(before, debtor) == copy(after, debtor)
                    && copy(before, debtor) == copy(after, creditor)
            }
            (true, false) => copy(before, debtor) == copy(after, debtor),
            (false, true) => copy(before, creditor) == copy(after, creditor),
            (false, false) => true,
        }
    }

    /// Whether the copies of all channels allow the step.
    fn all_agree(&self, before: &State, after: &State) -> bool
        ensures { result ≡ all_agreed 8 self.now.holders.now before.now after.now self.now.debtor self.now.creditor }
    {
        (0..8).all(|channel| self.agrees(before, after, channel))
    }

    /// Whether the debtor keeps its position.
    fn keeps_position(&self, before: &State, after: &State) -> bool
        requires { self.now.debtor < 6 }
        ensures { result ≡ same_position before.now after.now self.now.debtor }
    {
        before.locals[self.debtor].position == after.locals[self.debtor].position
    }
}

impl StepRule for Access<'_> {
    ghost steps = { λ rule. accessible rule.holders.now rule.states.now rule.debtor rule.creditor };

    fn leads(&self, from: usize, to: usize) -> bool {
        let Some(before) = self.states.get(from) else {
            return false;
        };
        let Some(after) = self.states.get(to) else {
            return false;
        };
        self.holders.share(self.debtor, self.creditor)
            && self.keeps_position(before, after)
            && self.all_agree(before, after)
    }
}
