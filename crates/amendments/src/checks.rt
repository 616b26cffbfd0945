ghost use Rattle.std.specs.Prelude.{◌≡◌, ◌≤◌, ◌&&◌, Some, None, if◌then◌else◌, nat_lt};
ghost use Rattle.semantics.specs.Edits.{join_move, cut_move, set_value, set_marks, first_of, edit_checks, other_move};
ghost use Rattle.semantics.specs.Sets.{count};
ghost use Rattle.semantics.specs.Validity.{move_count};
ghost use Rattle.sheets.specs.Model.{model_of};
ghost use Rattle.amendments.specs.Edits.{edit_of, value_of, refusal_in};

use crate::edit::{Edit, Value};
use search::StepRule;
use sheets::limits::MOVE_LIMIT;
use sheets::sheet::Sheet;
use texts::refusal::Refusal;

/// The largest position and the largest copy.
const LARGEST: usize = 999;

/// How many edits an amendment may have.
const EDIT_LIMIT: usize = 64;

/// Whether there is a move from `from` to `to`.
fn has_move(sheet: &Sheet, from: usize, to: usize) -> bool
    ensures { result ≡ (model_of sheet.now).moves from to }
{
    sheet.moves().leads(from, to)
}

/// How many moves leave `from`.
fn steps_from(sheet: &Sheet, from: usize) -> usize
    ensures value { result ≡ count (model_of sheet.now).states ((model_of sheet.now).moves from) }
    ensures bound { result ≤ 128 }
{
    (0..sheet.state_count())
        .filter(|to| has_move(sheet, from, *to))
        .count()
}

/// How many moves the sheet has.
fn move_count(sheet: &Sheet) -> usize
    ensures { result ≡ move_count (model_of sheet.now) }
{
    (0..sheet.state_count())
        .map(|from| steps_from(sheet, from))
        .sum()
}

/// Whether a move leaves `from` for another state than `to`.
fn other_move(sheet: &Sheet, from: usize, to: usize) -> bool
    ensures { result ≡ other_move (model_of sheet.now) from to }
{
    (0..sheet.state_count()).any(|target| target != to && has_move(sheet, from, target))
}

/// Why the two states of a move are refused, if one is no state of the sheet.
fn check_states(sheet: &Sheet, from: usize, to: usize) -> Result<(), Refusal>
    ensures { refusal_in result ≡ (if nat_lt from (model_of sheet.now).states && nat_lt to (model_of sheet.now).states then None else Some 22) }
{
    if from >= sheet.state_count() || to >= sheet.state_count() {
        return Err(Refusal::EditOutOfRange);
    }
    Ok(())
}

/// Why a move from `from` to `to` cannot come in as the first edit, if it cannot.
fn check_join(sheet: &Sheet, from: usize, to: usize) -> Result<(), Refusal>
    ensures { refusal_in result ≡ first_of (edit_checks (model_of sheet.now) 0 (join_move from to)) }
{
    check_states(sheet, from, to)?;
    if has_move(sheet, from, to) {
        return Err(Refusal::MovePresent);
    }
    if move_count(sheet) >= MOVE_LIMIT {
        return Err(Refusal::MovesFull);
    }
    Ok(())
}

/// Why the move from `from` to `to` cannot go out as the first edit, if it cannot.
fn check_cut(sheet: &Sheet, from: usize, to: usize) -> Result<(), Refusal>
    ensures { refusal_in result ≡ first_of (edit_checks (model_of sheet.now) 0 (cut_move from to)) }
{
    check_states(sheet, from, to)?;
    if !has_move(sheet, from, to) {
        return Err(Refusal::MoveAbsent);
    }
    if !other_move(sheet, from, to) {
        return Err(Refusal::LastMove);
    }
    Ok(())
}

/// Why a value of a party at a state cannot become `number` by the first edit, if it cannot.
fn check_set(
    sheet: &Sheet,
    state: usize,
    party: usize,
    value: Value,
    number: usize,
) -> Result<(), Refusal>
    ensures { refusal_in result ≡ first_of (edit_checks (model_of sheet.now) 0 (set_value state party (value_of value) number)) }
{
    if state >= sheet.state_count() || party >= sheet.party_count() || number > LARGEST {
        return Err(Refusal::EditOutOfRange);
    }
    if let Value::Copy(channel) = value {
        if channel >= sheet.channel_count() {
            return Err(Refusal::EditOutOfRange);
        }
        if !sheet.holds(channel, party) {
            return Err(Refusal::ChannelNotHeld);
        }
    }
    Ok(())
}

/// Why the marks of a state cannot become those of `sum` by the first edit, if they cannot.
fn check_mark(sheet: &Sheet, state: usize, sum: usize) -> Result<(), Refusal>
    ensures { refusal_in result ≡ first_of (edit_checks (model_of sheet.now) 0 (set_marks state sum)) }
{
    if state >= sheet.state_count() || sum >= sheet.mark_sums() {
        return Err(Refusal::EditOutOfRange);
    }
    Ok(())
}

/// Why an edit is refused, if it is, after `count` accepted edits of the amendment.
pub fn check_edit(sheet: &Sheet, edit: Edit, count: usize) -> Result<(), Refusal>
    ensures { refusal_in result ≡ first_of (edit_checks (model_of sheet.now) count (edit_of edit)) }
{
    match edit {
        Edit::Join { from, to } => check_join(sheet, from, to)?,
        Edit::Cut { from, to } => check_cut(sheet, from, to)?,
        Edit::Set {
            state,
            party,
            value,
            number,
        } => check_set(sheet, state, party, value, number)?,
        Edit::Mark { state, sum } => check_mark(sheet, state, sum)?,
    }
    if count >= EDIT_LIMIT {
        return Err(Refusal::EditsFull);
    }
    Ok(())
}
