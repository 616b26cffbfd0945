ghost use Rattle.std.specs.Prelude.{◌≡◌, ◌≤◌, [], length, IfOk, ◌==◌};
ghost use Rattle.sheets.specs.Fits.{Fits};
ghost use Rattle.sheets.specs.Sheets.{states_of, rows_of, blank_header};

use crate::holders::Holders;
use crate::parts::{Header, Row, State};
use crate::sheet::Sheet;
use crate::tables::Tables;
use std::alloc::{AllocError, Global};

impl Sheet {
    /// A blank sheet, with room for the largest one.
    pub fn blank(heap: Global) -> Result<Sheet, AllocError>
        ensures blank { IfOk result (λ s. (s.header ≡ blank_header) × (states_of s ≡ []) × (rows_of s ≡ [])) }
        ensures fits { IfOk result Fits }
    {
        let tables = Tables::new(heap)?;
        let header = Header {
            number: 0,
            parties: 0,
            channels: 0,
            states: 0,
            marks: 0,
        };
        Ok(Sheet {
            header,
            holders: Holders::none(),
            tables,
        })
    }

    /// Whether no sheet has been read yet.
    pub fn is_blank(&self) -> bool
        ensures { result ≡ (length (states_of self.now) == 0) }
    {
        self.tables.states.is_empty()
    }

    /// The first line.
    pub fn header(&self) -> Header
        ensures { result ≡ self.now.header }
    {
        self.header
    }

    /// Who holds which channel.
    pub fn holders(&self) -> Holders
        ensures { result ≡ self.now.holders }
    {
        self.holders
    }

    /// The states, by their numbers.
    pub fn states(&self) -> &[State]
        ensures value { result.now ≡ states_of self.now }
        ensures bound { length result.now ≤ 128 }
    {
        self.tables.states.as_slice()
    }

    /// The formula lines, by their numbers.
    pub fn rows(&self) -> &[Row]
        ensures value { result.now ≡ rows_of self.now }
        ensures bound { length result.now ≤ 64 }
    {
        self.tables.rows.as_slice()
    }
}
