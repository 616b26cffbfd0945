ghost use Rattle.std.specs.Prelude.{◌≡◌, ◌+◌, ◌<◌, ◌≤◌, length, slice_index_or};
ghost use Rattle.semantics.specs.Judging.{line_set, line_rounds};
ghost use Rattle.semantics.specs.Sets.{Same};
ghost use Rattle.sheets.specs.Fits.{Fits};
ghost use Rattle.sheets.specs.Model.{model_of};
ghost use Rattle.sheets.specs.Sheets.{rows_of, no_row};
ghost use Rattle.judging.specs.Judging.{work_refusal, settled, Kept};
ghost use Rattle.judging.specs.Reporting.{Summarized};

use crate::judge::{WORK_LENGTH, holds_at_starts};
use checker::evaluation::{bits_of, evaluate};
use sets::{BitSet, StateSet, count};
use sheets::parts::Row;
use sheets::sheet::Sheet;
use texts::refusal::Refusal;
use workspace::put_row;

/// A lent work buffer in its parts: the sets of 64 lines, sixteen bytes each; two bytes for each of the 128
/// states that a search may push; and the verdict, the rounds and the number of states of each line.
#[derive(Drop)]
pub(crate) struct WorkBuffer<'a> {
    pub(crate) sets: &'a mut [u8; 1024],
    pub(crate) slots: &'a mut [u8; 256],
    pub(crate) summaries: &'a mut [[u8; 3]],
    ghost room: { 64 ≤ length summaries.now },
}

impl<'a> WorkBuffer<'a> {
    /// Takes a buffer apart, or refuses one that is too short.
    pub(crate) fn split(work: &'a mut [u8]) -> Result<WorkBuffer<'a>, Refusal>
        ensures { settled result ≡ work_refusal (length work.old) }
    {
        if work.len() < WORK_LENGTH {
            return Err(Refusal::ShortBuffer);
        }
        let (sets, rest) = work.split_first_chunk_mut().unwrap();
        let (slots, rest) = rest.split_first_chunk_mut().unwrap();
        let (summaries, _) = rest.as_chunks_mut();
        Ok(WorkBuffer {
            sets,
            slots,
            summaries,
        })
    }

    /// Judges line `k`, whose row is `row`: leaves its states in `set` and in row `k` of `sets`, which holds the
    /// sets of the lines before it, and answers the rounds.
    pub(crate) fn judge_row<S: StateSet>(
        &mut self,
        sheet: &Sheet,
        k: usize,
        row: Row,
        set: &mut S,
    ) -> usize
        requires within { k < length (rows_of sheet.now) }
        requires row { row ≡ slice_index_or (rows_of sheet.now) k no_row }
        requires fits { (model_of sheet.now).states ≤ S.CAPACITY }
        requires kept { Fits sheet.now → Kept (model_of sheet.now) k self.old.sets.now }
        ensures set { Fits sheet.now → Same (S.holds set.new) (line_set (model_of sheet.now) k) }
        ensures rounds { Fits sheet.now → result ≡ line_rounds (model_of sheet.now) k }
        ensures bound { result ≤ 128 }
        ensures kept { Fits sheet.now → Kept (model_of sheet.now) (k + 1) self.new.sets.now }
        ensures summaries { self.new.summaries.now ≡ self.old.summaries.now }
    {
        let (sets, slots) = (&mut *self.sets, &mut *self.slots);
        let rounds = evaluate(sheet, row, sets, set, slots);
        put_row(sets, k, bits_of(sheet.state_count(), set));
        rounds
    }

    /// Judges the lines up to `line` in turn, and answers the rounds of the last one, whose states `set` then has.
    pub(crate) fn judge_rows<S: StateSet>(
        &mut self,
        sheet: &Sheet,
        line: usize,
        set: &mut S,
    ) -> usize
        requires line { line < length (rows_of sheet.now) }
        requires fits { (model_of sheet.now).states ≤ S.CAPACITY }
        ensures set { Fits sheet.now → Same (S.holds set.new) (line_set (model_of sheet.now) line) }
        ensures rounds { Fits sheet.now → result ≡ line_rounds (model_of sheet.now) line }
    {
        let mut rounds = 0;
        for (k, row) in sheet.rows()[..=line].iter().enumerate() {
            rounds = self.judge_row(sheet, k, *row, set);
        }
        rounds
    }

    /// Judges all lines in turn, keeping the set of each and what the report says of it.
    pub(crate) fn summarize(&mut self, sheet: &Sheet)
        ensures { Fits sheet.now → Summarized (model_of sheet.now) (length (rows_of sheet.now)) self.new.summaries.now }
    {
        let mut set = BitSet::new();
        let states = sheet.state_count();
        for (k, row) in sheet.rows().iter().enumerate() {
            let rounds = self.judge_row(sheet, k, *row, &mut set);
            let verdict = holds_at_starts(sheet, &set);
            let members = count(&set, states);
            self.summaries[k] = [u8::from(verdict), rounds as u8, members as u8];
        }
    }
}
