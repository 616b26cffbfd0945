ghost use Rattle.std.specs.Prelude.{◌≡◌, ◌^◌, ◌<◌, ◌≤◌, true, replicate, IfOk};
ghost use Rattle.sheets.specs.Fitting.{copies_fit, local_fits, state_fits};
ghost use Rattle.reader.specs.Readers.{Bounded, header_of, pair_of, state_of, copies_from, local_of};

use crate::preamble::Preamble;
use sets::BitSet;
use sheets::holders::Holders;
use sheets::parts::{Header, Local, State};
use texts::line::Line;
use texts::refusal::{Fault, Refusal};

/// The header line.
pub(crate) fn header_line(mut line: Line<'_>) -> Result<Header, Fault>
    ensures value { result ≡ header_of line.entry.line line.entry.count line.entry.rest.now }
    ensures within { IfOk result Bounded }
{
    line.expect(6)?;
    let number = line.number(2, 1..10_000)?;
    let parties = line.number(3, 2..7)?;
    let channels = line.number(4, 0..9)?;
    let states = line.number(5, 1..129)?;
    let marks = line.number(6, 0..17)?;
    Ok(Header {
        number: number as u16,
        parties: parties as u8,
        channels: channels as u8,
        states: states as u8,
        marks: marks as u8,
    })
}

/// Two numbers of a line whose kind must rise, first by the first number and then by the second.
#[derive(Clone, Copy, PartialEq, Eq, PartialOrd, Ord)]
pub(crate) struct Pair {
    pub first: u32,
    pub second: u32,
}

/// A line of two numbers below their limits that comes after the pair `last`.
pub(crate) fn pair_line(
    mut line: Line<'_>,
    first_limit: u32,
    second_limit: u32,
    last: Option<Pair>,
) -> Result<Pair, Fault>
    ensures value { result ≡ pair_of line.entry.line line.entry.count line.entry.rest.now first_limit second_limit last }
    ensures within { IfOk result (λ p. (p.first < first_limit) × (p.second < second_limit)) }
{
    line.expect(3)?;
    let first = line.number(2, 0..first_limit)?;
    let second = line.number(3, 0..second_limit)?;
    let next = Pair { first, second };
    if last >= Some(next) {
        return Err(line.fault(Refusal::OutOfOrder, 2));
    }
    Ok(next)
}

/// One more than the largest sum of powers of two for this many marks.
fn mark_sums(marks: u8) -> u32
    requires { marks ≤ 16 }
    ensures value { result ≡ 2 ^ marks }
    ensures bound { result ≤ 65536 }
{
    1 << marks
}

impl Preamble {
    /// The line of the state number `due`, with nothing known to the parties yet and no moves.
    pub(crate) fn state_line(&self, mut line: Line<'_>, due: u8) -> Result<State, Fault>
        ensures value { result ≡ state_of line.entry.line line.entry.count line.entry.rest.now self.now.header due }
        ensures fits { IfOk result (λ s. state_fits self.now.header.marks s ≡ true) }
        ensures unmoved { IfOk result (λ s. s.successors.bits ≡ 0) }
    {
        line.expect(4)?;
        let number = line.number(2, 0..u32::from(self.header.states))?;
        let start = line.number(3, 0..2)?;
        let marks = line.number(4, 0..mark_sums(self.header.marks))?;
        if number != u32::from(due) {
            return Err(line.fault(Refusal::OutOfOrder, 2));
        }
        Ok(State {
            start: start == 1,
            marks: marks as u16,
            locals: [Local {
                position: 0,
                copies: [0; 8],
            }; 6],
            successors: BitSet::new(),
        })
    }

    /// The copies of the channels that `party` holds, the other fields of its line.
    fn copies(&self, line: &mut Line<'_>, party: usize) -> Result<[u16; 8], Fault>
        ensures value { result ≡ copies_from line.old.line self.now.holders party 8 0 5 (replicate 8 0) line.old.rest.now }
        ensures line { line.new.line ≡ line.old.line }
        ensures fits { IfOk result (λ xs. copies_fit xs ≡ true) }
    {
        let mut copies = [0; 8];
        // The number of the next field, which not every channel has.
        let mut field = 5;
        for (channel, copy) in copies.iter_mut().enumerate() {
            if self.holders.has(channel, party) {
                *copy = line.number(field, 0..1000)? as u16;
                field += 1;
            }
        }
        Ok(copies)
    }

    /// The line of what `party` knows at `state`.
    pub(crate) fn local_line(
        &self,
        mut line: Line<'_>,
        state: u8,
        party: u8,
    ) -> Result<Local, Fault>
        ensures value { result ≡ local_of line.entry.line line.entry.count line.entry.rest.now self.now.header self.now.holders state party }
        ensures fits { IfOk result (λ l. local_fits l ≡ true) }
    {
        line.expect(4 + self.holders.count(usize::from(party)))?;
        let at = line.number(2, 0..u32::from(self.header.states))?;
        let who = line.number(3, 0..u32::from(self.header.parties))?;
        let position = line.number(4, 0..1000)?;
        let copies = self.copies(&mut line, usize::from(party))?;
        if at != u32::from(state) || who != u32::from(party) {
            return Err(line.fault(Refusal::OutOfOrder, 2));
        }
        Ok(Local {
            position: position as u16,
            copies,
        })
    }
}
