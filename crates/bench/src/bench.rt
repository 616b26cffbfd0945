ghost use Rattle.std.specs.Prelude.{◌≡◌, ℕ, ◌≤◌, false, cond, [], length, IfOk, OnErr, OnOk};
ghost use Rattle.sheets.specs.Fits.{Fits};
ghost use Rattle.sheets.specs.Model.{model_of};
ghost use Rattle.sheets.specs.Sheets.{states_of, rows_of};
ghost use Rattle.writer.specs.Writing.{sheet_answer, sheet_written, ReadsBack};
ghost use Rattle.judging.specs.Judging.{judge_refusal, line_refusal, settled, starts_in, Judged};
ghost use Rattle.judging.specs.Reporting.{report_text, report_answer, filled};
ghost use Rattle.bench.specs.Benches.{write_answer, written_out, WhereTrue};

use judging::judge::Judgement;
use sets::StateSet;
use sheets::sheet::Sheet;
use sheets::tables::Tables;
use std::alloc::{AllocError, Global};
use texts::refusal::{Fault, Refusal};

/// A sheet, blank until a text is read, with the room that reading another one needs.
#[derive(Drop)]
pub struct Bench {
    sheet: Sheet,
    spare: Tables,
    ghost fits: { Fits sheet },
}

impl Bench {
    /// A bench with a blank sheet. This reserves the room for the largest sheet, so that no later call
    /// needs memory.
    pub fn blank(heap: Global) -> Result<Bench, AllocError>
        ensures { IfOk result (λ b. (states_of b.sheet ≡ []) × (rows_of b.sheet ≡ [])) }
    {
        let sheet = Sheet::blank(heap)?;
        let spare = Tables::new(heap)?;
        Ok(Bench { sheet, spare })
    }

    /// The sheet as it stands.
    pub fn sheet(&self) -> &Sheet
        ensures { result.now ≡ self.now.sheet }
    {
        &self.sheet
    }

    /// Reads a sheet's text, or answers what is wrong with it and where, and leaves the sheet as it was.
    pub fn read(&mut self, text: &[u8]) -> Result<(), Fault>
        ensures { OnErr result (self.new.sheet ≡ self.old.sheet) }
    {
        reader::read(&mut self.sheet, &mut self.spare, text)
    }

    /// Writes the sheet's text from the front of `out`, and answers its length; later bytes stay. A
    /// blank sheet is refused, and then a buffer that is too short; a refusal leaves the buffer. What is
    /// written is the one text that reads as the sheet.
    pub fn write(&self, out: &mut [u8]) -> Result<usize, Refusal>
        ensures value { result ≡ write_answer self.now.sheet out.old }
        ensures after { out.new ≡ written_out self.now.sheet out.old }
        ensures answer { result ≡ sheet_answer (model_of self.now.sheet) out.old }
        ensures filled { out.new ≡ sheet_written (model_of self.now.sheet) out.old }
        ensures back { IfOk result (ReadsBack (model_of self.now.sheet) out.new) }
    {
        if self.sheet.is_blank() {
            return Err(Refusal::Blank);
        }
        writer::write(&self.sheet, out)
    }

    /// Judges a formula line: leaves its states in `set`, and answers its verdict and rounds.
    pub fn judge<S: StateSet>(
        &self,
        line: usize,
        work: &mut [u8],
        set: &mut S,
    ) -> Result<Judgement, Refusal>
        ensures refuses { settled result ≡ judge_refusal (length (states_of self.now.sheet)) (length (rows_of self.now.sheet)) line (length work.old) S.CAPACITY }
        ensures answered { settled result ≡ line_refusal (model_of self.now.sheet) line (length work.old) S.CAPACITY }
        ensures unchanged { OnErr result (set.new ≡ set.old) }
        ensures verdict { IfOk result (λ j. j.verdict ≡ starts_in (length (states_of self.now.sheet)) (states_of self.now.sheet) (S.holds set.new)) }
        ensures judged { IfOk result (Judged (model_of self.now.sheet) line (S.holds set.new)) }
        ensures truth { OnOk result (WhereTrue (model_of self.now.sheet) line (S.holds set.new)) }
    {
        judging::judge::judge(&self.sheet, line, work, set)
    }

    /// Writes a line for each formula line from the front of `out`, and answers the length of the text;
    /// later bytes stay, and the set is left empty. No report has more than 1,152 bytes.
    pub fn report<S: StateSet>(
        &self,
        work: &mut [u8],
        set: &mut S,
        out: &mut [u8],
    ) -> Result<usize, Refusal>
        ensures value { result ≡ report_answer (model_of self.now.sheet) (length work.old) (length out.old) S.CAPACITY }
        ensures text { out.new ≡ filled result (report_text (model_of self.now.sheet)) out.old }
        ensures unchanged { OnErr result ((set.new ≡ set.old) × (out.new ≡ out.old)) }
        ensures short { length (report_text (model_of self.now.sheet)) ≤ 1152 }
        ensures done { IfOk result (λ n. (n ≤ length out.new) × ((k : ℕ) → S.holds set.new k ≡ false)) }
    {
        judging::reporting::report(&self.sheet, work, set, out)
    }
}
