ghost use Rattle.std.specs.Prelude.{◌≡◌, length, IfOk, OnErr};
ghost use Rattle.semantics.specs.Sets.{all};
ghost use Rattle.sheets.specs.Fits.{Fits};
ghost use Rattle.sheets.specs.Model.{model_of};
ghost use Rattle.sheets.specs.Sheets.{states_of, rows_of};
ghost use Rattle.judging.specs.Judging.{judge_refusal, line_refusal, row_refusal, set_refusal, settled, starts_in, start_has, Judged};

use crate::work_buffer::WorkBuffer;
use sets::StateSet;
use sheets::sheet::Sheet;
use texts::refusal::Refusal;

/// How many bytes a work buffer must have.
pub const WORK_LENGTH: usize = 16_384;

/// What judging a line answers: whether the line holds at every start, and in how many rounds it was found.
#[derive(Clone, Copy, PartialEq, Eq, Debug)]
pub struct Judgement {
    pub verdict: bool,
    pub rounds: usize,
}

/// Whether `set` has every start.
pub(crate) fn holds_at_starts<S: StateSet>(sheet: &Sheet, set: &S) -> bool
    ensures { result ≡ all (model_of sheet.now).states (start_has (model_of sheet.now) (S.holds set.now)) }
{
    (0..sheet.state_count()).all(|state| !sheet.is_start(state) || set.has(state))
}

/// Refuses a blank sheet, and a line that the sheet does not have.
fn check_line(sheet: &Sheet, line: usize) -> Result<(), Refusal>
    ensures { result ≡ row_refusal (length (states_of sheet.now)) (length (rows_of sheet.now)) line }
{
    if sheet.is_blank() {
        return Err(Refusal::Blank);
    }
    if line >= sheet.rows().len() {
        return Err(Refusal::NoSuchLine);
    }
    Ok(())
}

/// Refuses a kind of set that cannot hold the sheet's states.
pub(crate) fn check_set<S: StateSet>(sheet: &Sheet) -> Result<(), Refusal>
    ensures { result ≡ set_refusal (model_of sheet.now).states S.CAPACITY }
{
    if sheet.state_count() > S::limit() {
        return Err(Refusal::SetTooSmall);
    }
    Ok(())
}

/// Judges a formula line: leaves its states in `set`, and answers its verdict and rounds.
#[tactic(auto, using(sheets::proofs::Lines::model_length), unfolding(sheets::specs::Model::model_of))]
pub fn judge<S: StateSet>(
    sheet: &Sheet,
    line: usize,
    work: &mut [u8],
    set: &mut S,
) -> Result<Judgement, Refusal>
    ensures refuses { settled result ≡ judge_refusal (length (states_of sheet.now)) (length (rows_of sheet.now)) line (length work.old) S.CAPACITY }
    ensures answered { settled result ≡ line_refusal (model_of sheet.now) line (length work.old) S.CAPACITY }
    ensures unchanged { OnErr result (set.new ≡ set.old) }
    ensures verdict { IfOk result (λ j. j.verdict ≡ starts_in (length (states_of sheet.now)) (states_of sheet.now) (S.holds set.new)) }
    ensures judged { Fits sheet.now → IfOk result (Judged (model_of sheet.now) line (S.holds set.new)) }
{
    check_line(sheet, line)?;
    let mut buffer = WorkBuffer::split(work)?;
    check_set::<S>(sheet)?;
    let rounds = buffer.judge_rows(sheet, line, set);
    Ok(Judgement {
        verdict: holds_at_starts(sheet, set),
        rounds,
    })
}
