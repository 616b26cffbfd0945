ghost use Rattle.std.specs.Prelude.{◌≡◌, ◌≤◌, true, vec_len};
ghost use Rattle.sheets.specs.Rows.{sound_rows};

mod access;
mod values;

use crate::holders::Holders;
use crate::parts::Header;
use crate::tables::Tables;

/// A commitment sheet, or, with no states, a blank one.
#[derive(Drop)]
pub struct Sheet {
    pub header: Header,
    pub holders: Holders,
    pub tables: Tables,
    ghost all_states: { vec_len tables.states ≡ header.states },
    ghost few_states: { header.states ≤ 128 },
    ghost few_parties: { header.parties ≤ 6 },
    ghost few_channels: { header.channels ≤ 8 },
    ghost few_marks: { header.marks ≤ 16 },
    ghost few_rows: { vec_len tables.rows ≤ 64 },
    ghost sound_rows: { sound_rows header holders 0 tables.rows.items ≡ true },
}
