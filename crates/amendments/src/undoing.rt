ghost use Rattle.std.specs.Prelude.{◌≡◌};
ghost use Rattle.semantics.specs.Undoing.{inverse, value_at};
ghost use Rattle.sheets.specs.Model.{model_of};
ghost use Rattle.amendments.specs.Edits.{edit_of, value_of};

use crate::edit::{Edit, Value};
use sheets::sheet::Sheet;

/// The value of a party at a state.
fn value_at(sheet: &Sheet, state: usize, party: usize, value: Value) -> u16
    ensures { result ≡ value_at (model_of sheet.now) state party (value_of value) }
{
    match value {
        Value::Position => sheet.position(state, party),
        Value::Copy(channel) => sheet.copy(state, party, channel),
    }
}

/// The edit that takes `edit` of the sheet back.
pub fn inverse(sheet: &Sheet, edit: Edit) -> Edit
    ensures { edit_of result ≡ inverse (model_of sheet.now) (edit_of edit) }
{
    match edit {
        Edit::Join { from, to } => Edit::Cut { from, to },
        Edit::Cut { from, to } => Edit::Join { from, to },
        Edit::Set {
            state,
            party,
            value,
            number: _,
        } => Edit::Set {
            state,
            party,
            value,
            number: usize::from(value_at(sheet, state, party, value)),
        },
        Edit::Mark { state, sum: _ } => Edit::Mark {
            state,
            sum: usize::from(sheet.mark_sum(state)),
        },
    }
}
