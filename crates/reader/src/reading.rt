ghost use Rattle.std.specs.Prelude.{◌≡◌, true, IfOk, OnErr, OnOk};
ghost use Rattle.std.specs.List.{list_any};
ghost use Rattle.sheets.specs.Fits.{Fits};
ghost use Rattle.sheets.specs.Fitting.{state_fits};
ghost use Rattle.reader.specs.Reading.{WholeStates, StatesRead, MovesRead, RowsRead, Filled};

use crate::preamble::Preamble;
use crate::readers::{header_line, pair_line};
use search::Graph;
use sets::StateSet;
use sheets::holders::Holders;
use sheets::limits::{MOVE_LIMIT, ROW_LIMIT, TEXT_LIMIT};
use sheets::moves::Moves;
use sheets::parts::State;
use sheets::sheet::Sheet;
use sheets::tables::Tables;
use texts::lines::{Lines, check_whole};
use texts::refusal::{Fault, Refusal};

impl Preamble {
    /// Reads the H line, and the C lines: who holds which channel.
    fn read(lines: &mut Lines<'_>) -> Result<Preamble, Fault> {
        let header = header_line(lines.due(b'H')?)?;
        let mut holders = Holders::none();
        let mut last = None;
        while let Some(line) = lines.take(b'C') {
            let holder = pair_line(
                line,
                u32::from(header.channels),
                u32::from(header.parties),
                last,
            )?;
            holders.add(holder.first as usize, holder.second as usize);
            last = Some(holder);
        }
        Ok(Preamble { header, holders })
    }

    /// Reads the S lines into the table of states.
    fn read_states(&self, lines: &mut Lines<'_>, tables: &mut Tables) -> Result<(), Fault>
        ensures { OnOk result (StatesRead self.now.header tables.new.states.items) }
    {
        tables.states.clear();
        for due in 0..self.header.states {
            let line = lines.due(b'S')?;
            tables.states.push_reserved(self.state_line(line, due)?);
        }
        Ok(())
    }

    /// Reads the L lines of one state.
    fn read_locals(&self, lines: &mut Lines<'_>, state: &mut State, number: u8) -> Result<(), Fault>
        requires { state_fits self.now.header.marks state.old ≡ true }
        ensures fits { state_fits self.now.header.marks state.new ≡ true }
        ensures moves { state.new.successors ≡ state.old.successors }
    {
        for party in 0..self.header.parties {
            let line = lines.due(b'L')?;
            // By its place: of elements that `iter_mut` gives under `zip` a proof knows nothing.
            state.locals[usize::from(party)] = self.local_line(line, number, party)?;
        }
        Ok(())
    }

    /// Reads the L lines of all states.
    fn read_all_locals(&self, lines: &mut Lines<'_>, states: &mut [State]) -> Result<(), Fault>
        requires { StatesRead self.now.header states.old }
        ensures { OnOk result (StatesRead self.now.header states.new) }
    {
        for (number, state) in states.iter_mut().enumerate() {
            self.read_locals(lines, state, number as u8)?;
        }
        Ok(())
    }

    /// Reads the T lines: the moves.
    fn read_moves(&self, lines: &mut Lines<'_>, states: &mut [State]) -> Result<(), Fault>
        requires { StatesRead self.now.header states.old }
        ensures { OnOk result (MovesRead self.now.header states.new) }
    {
        let mut last = None;
        let mut count = 0;
        while let Some(line) = lines.take(b'T') {
            if count >= MOVE_LIMIT {
                return Err(line.fault(Refusal::TooManyLines, 0));
            }
            let step = pair_line(
                line,
                u32::from(self.header.states),
                u32::from(self.header.states),
                last,
            )?;
            let _ = states[step.first as usize]
                .successors
                .put(step.second as usize);
            last = Some(step);
            count += 1;
        }
        Ok(())
    }

    /// Reads the F lines into the table of rows.
    fn read_rows(&self, lines: &mut Lines<'_>, tables: &mut Tables) -> Result<(), Fault>
        ensures states { tables.new.states ≡ tables.old.states }
        ensures rows { OnOk result (RowsRead self.now.header self.now.holders tables.new.rows.items) }
    {
        tables.rows.clear();
        while let Some(line) = lines.take(b'F') {
            let due = tables.rows.len();
            if due >= ROW_LIMIT {
                return Err(line.fault(Refusal::TooManyLines, 0));
            }
            tables.rows.push_reserved(self.row_line(line, due as u8)?);
        }
        Ok(())
    }
}

/// Whether some state is a start.
fn some_start(states: &[State]) -> bool
    ensures { result ≡ list_any (λ (s : State). s.start) states.now }
{
    states.iter().any(|state| state.start)
}

/// The checks that come after all lines: some start, and a move from every state.
fn check_states(states: &[State]) -> Result<(), Fault>
    ensures { WholeStates states.now result }
{
    if !some_start(states) {
        return Err(Fault::new(Refusal::NoStart, 0, 0));
    }
    let moves = Graph {
        rule: &Moves { states },
        states: states.len(),
    };
    match moves.lowest_without_step() {
        Some(state) => Err(Fault::new(Refusal::NoMove, 0, state)),
        None => Ok(()),
    }
}

/// Reads a sheet's text into the tables, whatever they held.
fn fill(tables: &mut Tables, text: &[u8]) -> Result<Preamble, Fault>
    ensures { IfOk result (λ f. Filled f.header f.holders tables.new) }
{
    check_whole(text, TEXT_LIMIT)?;
    let mut lines = Lines::new(text);
    let preamble = Preamble::read(&mut lines)?;
    preamble.read_states(&mut lines, tables)?;
    let states = tables.states.as_mut_slice();
    preamble.read_all_locals(&mut lines, states)?;
    preamble.read_moves(&mut lines, states)?;
    preamble.read_rows(&mut lines, tables)?;
    lines.finish()?;
    check_states(&tables.states)?;
    Ok(preamble)
}

/// Reads a sheet's text. The spare tables are then those of the sheet that was there, or hold nothing of
/// use after a refusal, which leaves the sheet as it was.
pub fn read(sheet: &mut Sheet, spare: &mut Tables, text: &[u8]) -> Result<(), Fault>
    ensures kept { OnErr result (sheet.new ≡ sheet.old) }
    ensures fits { OnOk result (Fits sheet.new) }
{
    let Preamble { header, holders } = fill(spare, text)?;
    std::mem::swap(&mut sheet.tables, spare);
    sheet.header = header;
    sheet.holders = holders;
    Ok(())
}
