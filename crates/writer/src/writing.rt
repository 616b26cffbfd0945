ghost use Rattle.std.specs.Prelude.{◌≡◌};
ghost use Rattle.texts.specs.Written.{Gave, texts_below};
ghost use Rattle.semantics.specs.SheetText.{sheet_text};
ghost use Rattle.sheets.specs.Fits.{Fits};
ghost use Rattle.sheets.specs.Model.{model_of};
ghost use Rattle.sheets.specs.Sheets.{states_of};
ghost use Rattle.writer.specs.Writing.{text_of, write_result, write_buffer};
ghost use Rattle.writer.specs.Render.{header_text, channel_text, holders_text, state_line, states_text, copies_text, known_text, parties_text, locals_text, state_moves_text, moves_text, operand_text, formula_text, rows_text};

use search::StepRule;
use sheets::holders::Holders;
use sheets::limits::TEXT_LIMIT;
use sheets::moves::Moves;
use sheets::operator::Kind;
use sheets::parts::{Header, Local, Row, State};
use sheets::sheet::Sheet;
use texts::refusal::Refusal;
use texts::text::{Measured, Text};
use texts::writer::Writer;

/// Writes the header line.
fn write_header(writer: &mut Writer<'_>, header: Header)
    ensures { Gave writer.old (header_text header) writer.new }
{
    let counts = [
        usize::from(header.number),
        usize::from(header.parties),
        usize::from(header.channels),
        usize::from(header.states),
        usize::from(header.marks),
    ];
    writer.line(b'H', &counts);
}

/// Writes the holders of one channel.
fn write_channel(writer: &mut Writer<'_>, holders: &Holders, channel: usize)
    ensures { Gave writer.old (channel_text holders.now channel) writer.new }
{
    for party in 0..6 {
        if holders.has(channel, party) {
            writer.line(b'C', &[channel, party]);
        }
    }
}

/// Writes the holders of all channels.
fn write_holders(writer: &mut Writer<'_>, holders: &Holders)
    ensures { Gave writer.old (holders_text holders.now) writer.new }
{
    for channel in 0..8 {
        write_channel(writer, holders, channel);
    }
}

/// Writes the line of state `k`.
fn write_state(writer: &mut Writer<'_>, k: usize, state: &State)
    ensures { Gave writer.old (state_line k state.now) writer.new }
{
    writer.line(
        b'S',
        &[k, usize::from(state.start), usize::from(state.marks)],
    );
}

/// Writes the lines of all states.
fn write_states(writer: &mut Writer<'_>, states: &[State])
    ensures { Gave writer.old (states_text states.now) writer.new }
{
    for (k, state) in states.iter().enumerate() {
        write_state(writer, k, state);
    }
}

/// Writes the copies of the channels that a party holds.
fn write_copies(writer: &mut Writer<'_>, holders: &Holders, party: usize, known: &Local)
    ensures { Gave writer.old (copies_text holders.now party known.now) writer.new }
{
    for (channel, copy) in known.copies.iter().enumerate() {
        if holders.has(channel, party) {
            writer.field(usize::from(*copy));
        }
    }
}

/// Writes the line of what a party knows at state `k`.
fn write_known(writer: &mut Writer<'_>, holders: &Holders, k: usize, party: usize, known: &Local)
    ensures { Gave writer.old (known_text holders.now k party known.now) writer.new }
{
    writer.byte(b'L');
    writer.fields(&[k, party, usize::from(known.position)]);
    write_copies(writer, holders, party, known);
    writer.byte(b'\n');
}

/// Writes the lines of what the parties know at state `k`.
fn write_state_locals(writer: &mut Writer<'_>, sheet: &Sheet, k: usize, state: &State)
    ensures { Gave writer.old (parties_text sheet.now.holders sheet.now.header.parties k state.now) writer.new }
{
    let parties = usize::from(sheet.header.parties);
    for (party, known) in state.locals[..parties].iter().enumerate() {
        write_known(writer, &sheet.holders, k, party, known);
    }
}

/// Writes the lines of what the parties know at all states.
fn write_locals(writer: &mut Writer<'_>, sheet: &Sheet)
    ensures { Gave writer.old (locals_text sheet.now.holders sheet.now.header.parties (states_of sheet.now)) writer.new }
{
    for (k, state) in sheet.states().iter().enumerate() {
        write_state_locals(writer, sheet, k, state);
    }
}

/// Writes the moves from one state.
fn write_state_moves(writer: &mut Writer<'_>, states: &[State], from: usize)
    ensures { Gave writer.old (state_moves_text states.now from) writer.new }
{
    let moves = Moves { states };
    for to in 0..states.len() {
        if moves.leads(from, to) {
            writer.line(b'T', &[from, to]);
        }
    }
}

/// Writes all moves.
fn write_moves(writer: &mut Writer<'_>, states: &[State])
    ensures { Gave writer.old (moves_text states.now) writer.new }
{
    for from in 0..states.len() {
        write_state_moves(writer, states, from);
    }
}

/// Writes the operands that a row has.
fn write_operands(writer: &mut Writer<'_>, row: &Row)
    ensures { Gave writer.old (texts_below 3 (operand_text row.now)) writer.new }
{
    for (kind, operand) in row.operator.kinds().iter().zip(&row.operands) {
        match *kind {
            Kind::Absent => {}
            Kind::Mark | Kind::Party | Kind::Line => writer.field(usize::from(*operand)),
        }
    }
}

/// Writes formula line `k`.
fn write_row(writer: &mut Writer<'_>, k: usize, row: &Row)
    ensures { Gave writer.old (formula_text k row.now) writer.new }
{
    writer.byte(b'F');
    writer.field(k);
    writer.byte(b',');
    writer.byte(row.operator.letter());
    write_operands(writer, row);
    writer.byte(b'\n');
}

/// Writes all formula lines.
fn write_rows(writer: &mut Writer<'_>, rows: &[Row])
    ensures { Gave writer.old (rows_text rows.now) writer.new }
{
    for (k, row) in rows.iter().enumerate() {
        write_row(writer, k, row);
    }
}

/// A sheet as a text.
#[derive(Drop)]
struct SheetText<'a>(&'a Sheet);

impl Text for SheetText<'_> {
    ghost text = { λ t. text_of t.0.now };

    fn write(&self, writer: &mut Writer<'_>) {
        let sheet = self.0;
        write_header(writer, sheet.header);
        write_holders(writer, &sheet.holders);
        write_states(writer, sheet.states());
        write_locals(writer, sheet);
        write_moves(writer, sheet.states());
        write_rows(writer, sheet.rows());
    }
}

/// Writes the sheet's text from the front of `out`, and answers its length; later bytes stay.
#[tactic(auto, using(crate::proofs::SameText::same_text))]
pub fn write(sheet: &Sheet, out: &mut [u8]) -> Result<usize, Refusal>
    ensures value { result ≡ write_result (text_of sheet.now) out.old }
    ensures after { out.new ≡ write_buffer (text_of sheet.now) out.old }
    ensures text { Fits sheet.now → text_of sheet.now ≡ sheet_text (model_of sheet.now) }
{
    let text = SheetText(sheet);
    let text = Measured::new(&text);
    if text.size() > TEXT_LIMIT {
        return Err(Refusal::WrittenTooLong);
    }
    text.write_from_front(out)
}
