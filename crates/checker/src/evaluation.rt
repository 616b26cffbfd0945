ghost use Rattle.std.specs.Prelude.{◌≡◌, ◌≤◌, length, slice_index_or};
ghost use Rattle.sets.specs.Bits.{in_bits};
ghost use Rattle.semantics.specs.Access.{access};
ghost use Rattle.semantics.specs.Judging.{set_of, rounds_of};
ghost use Rattle.semantics.specs.Sets.{Same, nothing, below};
ghost use Rattle.semantics.specs.Sheets.{mark, negation, disjunction, next, globally, until, commitment, fulfilment};
ghost use Rattle.sheets.specs.Fits.{Fits};
ghost use Rattle.sheets.specs.Model.{model_of, line_of};
ghost use Rattle.checker.specs.Access.{accessible};
ghost use Rattle.checker.specs.Evaluation.{sets_in, set_of_line, rounds_of_line};

use crate::access::Access;
use search::{Graph, Reversed, complement, copy, either, fill};
use sets::{BitSet, StateSet};
use sheets::operator::Operator;
use sheets::parts::Row;
use sheets::sheet::Sheet;
use std::marker::PhantomData;
use workspace::row;

/// The states below `states` that `set` has, as the bits of a number.
pub fn bits_of<S: StateSet>(states: usize, set: &S) -> u128
    requires { states ≤ 128 }
    ensures { Same (in_bits result) (below states (S.holds set.now)) }
{
    let mut bits = BitSet::new();
    copy(states, set, &mut bits).unwrap();
    bits.bits()
}

/// What the rows of a sheet are evaluated with: the buffer with the sets of the lines before, slots for a
/// search, and sets of the kind `S`, which can hold the sheet's states.
#[derive(Drop)]
struct Evaluation<'a, S: StateSet> {
    sheet: &'a Sheet,
    work: &'a [u8],
    slots: &'a mut [u8],
    kind: PhantomData<S>,
    ghost fits: { (model_of sheet.now).states ≤ S.CAPACITY },
    ghost enough_slots: { 256 ≤ length slots.now },
}

impl<S: StateSet> Evaluation<'_, S> {
    /// The set of line `k`, which the buffer holds.
    fn operand(&self, k: u8) -> BitSet
        ensures { in_bits result.bits ≡ slice_index_or (sets_in self.now.work.now) k nothing }
    {
        BitSet::from_bits(row(self.work, usize::from(k)))
    }

    /// The sheet's states, and the steps of a rule between them.
    fn graph<'r, R>(&self, rule: &'r R) -> Graph<'r, R>
        ensures states { result.states ≡ (model_of self.now.sheet.now).states }
        ensures few { result.states ≤ 128 }
        ensures rule { result.rule.now ≡ rule.now }
    {
        Graph {
            rule,
            states: self.sheet.state_count(),
        }
    }

    /// Makes `set` the states that have the mark of that number.
    fn mark(&self, number: u8, set: &mut S)
        ensures { Same (S.holds set.new) (set_of_line self.now.sheet.now self.now.work.now (mark number)) }
    {
        let has_mark = |state| self.sheet.has_mark(state, usize::from(number));
        fill(self.sheet.state_count(), has_mark, set).unwrap();
    }

    /// Makes `set` the states that line `a` lacks.
    fn not(&self, a: u8, set: &mut S)
        ensures { Same (S.holds set.new) (set_of_line self.now.sheet.now self.now.work.now (negation a)) }
    {
        complement(self.sheet.state_count(), &self.operand(a), set).unwrap();
    }

    /// Makes `set` the states of either line.
    fn or(&self, a: u8, b: u8, set: &mut S)
        ensures { Same (S.holds set.new) (set_of_line self.now.sheet.now self.now.work.now (disjunction a b)) }
    {
        let states = self.sheet.state_count();
        either(states, &self.operand(a), &self.operand(b), set).unwrap();
    }

    /// Makes `set` the states with a move into line `a`.
    fn next(&self, a: u8, set: &mut S)
        ensures { Same (S.holds set.new) (set_of_line self.now.sheet.now self.now.work.now (next a)) }
    {
        let moves = self.sheet.moves();
        self.graph(&moves).next(&self.operand(a), set).unwrap();
    }

    /// Makes `set` the states with an endless path through line `a`, and answers the rounds.
    fn globally(&mut self, a: u8, set: &mut S) -> usize
        ensures set { Same (S.holds set.new) (set_of_line self.old.sheet.now self.old.work.now (globally a)) }
        ensures rounds { result ≡ rounds_of_line self.old.sheet.now self.old.work.now (globally a) }
        ensures bound { result ≤ (model_of self.old.sheet.now).states }
    {
        let moves = self.sheet.moves();
        let (graph, operand) = (self.graph(&moves), self.operand(a));
        fixpoints::globally(&graph, &operand, set, self.slots).unwrap()
    }

    /// Makes `set` the states with a path through line `a` to line `b`, and answers the rounds.
    fn until(&mut self, a: u8, b: u8, set: &mut S) -> usize
        ensures set { Same (S.holds set.new) (set_of_line self.old.sheet.now self.old.work.now (until a b)) }
        ensures rounds { result ≡ rounds_of_line self.old.sheet.now self.old.work.now (until a b) }
        ensures bound { result ≤ (model_of self.old.sheet.now).states }
    {
        let moves = self.sheet.moves();
        let (first, second) = (self.operand(a), self.operand(b));
        fixpoints::until(&self.graph(&moves), &first, &second, set, self.slots).unwrap()
    }

    /// Access on the sheet for a debtor and a creditor.
    fn access(&self, debtor: u8, creditor: u8) -> Access<'_>
        ensures { Fits self.now.sheet.now → accessible result.holders.now result.states.now result.debtor result.creditor ≡ access (model_of self.now.sheet.now) debtor creditor }
    {
        Access {
            states: self.sheet.states(),
            holders: &self.sheet.holders,
            debtor: usize::from(debtor),
            creditor: usize::from(creditor),
        }
    }

    /// Makes `set` the states where the debtor is committed to the creditor to bring about line `a`.
    fn commitment(&self, debtor: u8, creditor: u8, a: u8, set: &mut S)
        ensures { Fits self.now.sheet.now → Same (S.holds set.new) (set_of_line self.now.sheet.now self.now.work.now (commitment debtor creditor a)) }
    {
        let access = self.access(debtor, creditor);
        let graph = self.graph(&access);
        graph.every_next(&self.operand(a), set).unwrap();
    }

    /// Makes `set` the states where that commitment is fulfilled.
    fn fulfilment(&self, debtor: u8, creditor: u8, a: u8, set: &mut S)
        ensures { Fits self.now.sheet.now → Same (S.holds set.new) (set_of_line self.now.sheet.now self.now.work.now (fulfilment debtor creditor a)) }
    {
        let access = self.access(debtor, creditor);
        let mut committed = BitSet::new();
        self.graph(&access)
            .every_next(&self.operand(a), &mut committed)
            .unwrap();
        self.graph(&Reversed(&access))
            .next(&committed, set)
            .unwrap();
    }
}

/// Makes `set` the states where a row holds, the sets of the lines before it being in the buffer, and
/// answers how many rounds its search took.
pub fn evaluate<S: StateSet>(
    sheet: &Sheet,
    row: Row,
    work: &[u8],
    set: &mut S,
    slots: &mut [u8],
) -> usize
    requires fits { (model_of sheet.now).states ≤ S.CAPACITY }
    requires slots { 256 ≤ length slots.old }
    ensures set { Fits sheet.now → Same (S.holds set.new) (set_of (model_of sheet.now) (sets_in work.now) (line_of row)) }
    ensures rounds { result ≡ rounds_of (model_of sheet.now) (sets_in work.now) (line_of row) }
    ensures bound { result ≤ (model_of sheet.now).states }
{
    let mut evaluation = Evaluation {
        sheet,
        work,
        slots,
        kind: PhantomData,
    };
    let [a, b, c] = row.operands;
    match row.operator {
        Operator::Mark => evaluation.mark(a, set),
        Operator::Not => evaluation.not(a, set),
        Operator::Or => evaluation.or(a, b, set),
        Operator::Next => evaluation.next(a, set),
        Operator::Globally => return evaluation.globally(a, set),
        Operator::Until => return evaluation.until(a, b, set),
        Operator::Commitment => evaluation.commitment(a, b, c, set),
        Operator::Fulfilment => evaluation.fulfilment(a, b, c, set),
    }
    // The others search in no rounds.
    0
}
