ghost use Rattle.std.specs.Prelude.{◌≡◌, ◌≤◌, [], IfOk, vec_capacity};

use crate::limits::{ROW_LIMIT, STATE_LIMIT};
use crate::parts::{Row, State};
use std::alloc::{AllocError, Global};

/// The states and the formula lines of a sheet, with room for the largest sheet.
#[derive(Drop)]
pub struct Tables {
    pub states: Vec<State>,
    pub rows: Vec<Row>,
    ghost states_room: { 128 ≤ vec_capacity states },
    ghost rows_room: { 64 ≤ vec_capacity rows },
}

impl Tables {
    /// Empty tables.
    pub fn new(heap: Global) -> Result<Tables, AllocError>
        ensures { IfOk result (λ t. (t.states.items ≡ []) × (t.rows.items ≡ [])) }
    {
        let states = Vec::with_capacity(heap, STATE_LIMIT)?;
        let rows = Vec::with_capacity(heap, ROW_LIMIT)?;
        Ok(Tables { states, rows })
    }
}
