ghost use Rattle.std.specs.Prelude.{◌≡◌, true, IfOk};
ghost use Rattle.sheets.specs.Operators.{kinds_of};
ghost use Rattle.sheets.specs.Rows.{fits, sharing, sound_row};
ghost use Rattle.reader.specs.RowFields.{operand_of, behind, operands_of, earlier_of, Within, AllWithin, checked_row, fields_of, row_of};

use crate::preamble::Preamble;
use sheets::operator::{Kind, Operator, operator_field};
use sheets::parts::{Header, Row};
use texts::field::field;
use texts::line::Line;
use texts::refusal::{Fault, Place, Refusal};

/// Takes the operand in the next field, the one numbered `field_number`.
fn operand(
    line: &mut Line<'_>,
    kind: Kind,
    field_number: usize,
    header: Header,
) -> Result<u32, Fault>
    ensures value { result ≡ operand_of line.old.line field_number kind header line.old.rest.now }
    ensures rest { line.new.rest.now ≡ behind kind line.old.rest.now }
    ensures line { line.new.line ≡ line.old.line }
    ensures within { IfOk result (Within kind header) }
{
    match kind {
        Kind::Absent => Ok(0),
        Kind::Mark => line.number(field_number, 0..u32::from(header.marks)),
        Kind::Party => line.number(field_number, 0..u32::from(header.parties)),
        Kind::Line => line.number(field_number, 0..100_000),
    }
}

/// The operands of a line, from its fourth field on.
fn operands(line: &mut Line<'_>, kinds: [Kind; 3], header: Header) -> Result<[u32; 3], Fault>
    ensures value { result ≡ operands_of line.old.line kinds header line.old.rest.now }
    ensures line { line.new.line ≡ line.old.line }
    ensures within { IfOk result (AllWithin kinds header) }
{
    let [first, second, third] = kinds;
    let first = operand(line, first, 4, header)?;
    let second = operand(line, second, 5, header)?;
    let third = operand(line, third, 6, header)?;
    Ok([first, second, third])
}

/// A formula line of a sheet, which is to be the line numbered `due`.
#[derive(Drop)]
struct RowReader<'a> {
    preamble: &'a Preamble,
    line: Line<'a>,
    due: u8,
}

impl RowReader<'_> {
    /// The operand, refused where it is a line that does not stand before this one.
    fn earlier(&self, kind: Kind, field_number: usize, operand: u32) -> Result<u8, Fault>
        requires { Within kind self.now.preamble.now.header operand }
        ensures value { result ≡ earlier_of self.now.line.line field_number kind self.now.due operand }
        ensures fits { IfOk result (λ x. fits kind self.now.preamble.now.header self.now.due x ≡ true) }
    {
        match kind {
            Kind::Line if operand >= u32::from(self.due) => Err(
                self.line.fault(Refusal::NotEarlier, field_number),
            ),
            _ => Ok(operand as u8),
        }
    }

    /// Whether the debtor and the creditor share a channel, where the operator has such.
    fn shares(&self, operator: Operator, debtor: u8, creditor: u8) -> bool
        ensures { result ≡ sharing self.now.preamble.now.holders operator debtor creditor }
    {
        match operator {
            Operator::Commitment | Operator::Fulfilment => self
                .preamble
                .holders
                .share(usize::from(debtor), usize::from(creditor)),
            _ => true,
        }
    }

    /// The row, once its fields are known to be numbers in their ranges.
    fn checked_row(&self, operator: Operator, operands: [u32; 3]) -> Result<Row, Fault>
        requires { AllWithin (kinds_of operator) self.now.preamble.now.header operands }
        ensures value { result ≡ checked_row self.now.line.line self.now.preamble.now.holders self.now.due operator operands }
        ensures sound { IfOk result (λ row. sound_row self.now.preamble.now.header self.now.preamble.now.holders self.now.due row ≡ true) }
    {
        let [first_kind, second_kind, third_kind] = operator.kinds();
        let [first, second, third] = operands;
        let first = self.earlier(first_kind, 4, first)?;
        let second = self.earlier(second_kind, 5, second)?;
        let third = self.earlier(third_kind, 6, third)?;
        if !self.shares(operator, first, second) {
            return Err(self.line.fault(Refusal::NoSharedChannel, 5));
        }
        Ok(Row {
            operator,
            operands: [first, second, third],
        })
    }

    /// The row of a known operator: its number is given, and the fields that are left are its operands.
    fn row(mut self, number: &[u8], operator: Operator) -> Result<Row, Fault>
        ensures value { result ≡ fields_of self.entry.line.line number.now self.entry.line.rest.now operator self.entry.preamble.now.header self.entry.preamble.now.holders self.entry.due }
        ensures sound { IfOk result (λ row. sound_row self.entry.preamble.now.header self.entry.preamble.now.holders self.entry.due row ≡ true) }
    {
        let place = Place {
            line: self.line.line,
            field: 2,
        };
        let number = field(number, 0..100_000, place)?;
        let header = self.preamble.header;
        let operands = operands(&mut self.line, operator.kinds(), header)?;
        if number != u32::from(self.due) {
            return Err(self.line.fault(Refusal::OutOfOrder, 2));
        }
        self.checked_row(operator, operands)
    }
}

impl Preamble {
    /// The formula line numbered `due`, which is taken as far as its letter first.
    pub(crate) fn row_line(&self, mut line: Line<'_>, due: u8) -> Result<Row, Fault>
        ensures value { result ≡ row_of line.entry.line line.entry.count line.entry.rest.now self.now.header self.now.holders due }
        ensures sound { IfOk result (λ row. sound_row self.now.header self.now.holders due row ≡ true) }
    {
        if line.count < 3 {
            return Err(line.fault(Refusal::FieldCount, 0));
        }
        let number = line.take();
        let Some((operator, count)) = operator_field(line.take()) else {
            return Err(line.fault(Refusal::NotANumber, 3));
        };
        line.expect(count)?;
        let reader = RowReader {
            preamble: self,
            line,
            due,
        };
        reader.row(number, operator)
    }
}
