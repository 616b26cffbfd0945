ghost use Rattle.std.specs.Prelude.{◌≡◌, ◌+◌, ◌<◌, ◌≤◌, IfOk, if◌then◌else◌, Ok, Err, nat_eq};
ghost use Rattle.texts.specs.declared.refusal.Refusal.TheVariants.{FieldCount};
ghost use Rattle.texts.specs.Cuts.{before, after};
ghost use Rattle.texts.specs.Fields.{fault_at, field_of};
ghost use Rattle.texts.specs.Lines.{at, Opened};

use crate::cut::{cut, occurrences};
use crate::field::field;
use crate::refusal::{Fault, Place, Refusal};
use std::ops::Range;

/// A line whose first field, a letter, has been read: the fields that are still to be read, how many
/// fields the line has in all, and its number in the text, from 1.
#[derive(Clone, Copy)]
pub struct Line<'a> {
    pub rest: &'a [u8],
    pub count: usize,
    pub line: usize,
}

impl<'a> Line<'a> {
    /// The line with these bytes, where its first field is `letter`.
    pub fn open(bytes: &'a [u8], letter: u8, line: usize) -> Option<Line<'a>>
        ensures { Opened letter line bytes.now result }
    {
        let count = occurrences(bytes, b',') + 1;
        match bytes {
            [first] if *first == letter => Some(Line {
                rest: &[],
                count,
                line,
            }),
            [first, b',', rest @ ..] if *first == letter => Some(Line { rest, count, line }),
            _ => None,
        }
    }

    /// A fault of this line, at `field` or, with 0, of the line as a whole.
    pub fn fault(&self, refusal: Refusal, field: usize) -> Fault
        ensures { result ≡ fault_at refusal (at self.now.line field) }
    {
        Fault::new(refusal, self.line, field)
    }

    /// Refuses the line unless it has `count` fields.
    pub fn expect(&self, count: usize) -> Result<(), Fault>
        ensures { result ≡ (if nat_eq self.now.count count then Ok tt else Err (fault_at FieldCount (at self.now.line 0))) }
    {
        if self.count != count {
            return Err(self.fault(Refusal::FieldCount, 0));
        }
        Ok(())
    }

    /// Takes the next field.
    pub fn take(&mut self) -> &'a [u8]
        ensures value { result.now ≡ before 44 self.old.rest.now }
        ensures rest { self.new.rest.now ≡ after 44 self.old.rest.now }
        ensures line { self.new.line ≡ self.old.line }
        ensures count { self.new.count ≡ self.old.count }
    {
        let (first, rest) = cut(self.rest, b',');
        self.rest = rest;
        first
    }

    /// Takes the next field, the one numbered `field`, as a number in `range`.
    pub fn number(&mut self, field_number: usize, range: Range<u32>) -> Result<u32, Fault>
        ensures value { result ≡ field_of range.start range.end (at self.old.line field_number) (before 44 self.old.rest.now) }
        ensures within { IfOk result (λ n. (range.start ≤ n) × (n < range.end)) }
        ensures rest { self.new.rest.now ≡ after 44 self.old.rest.now }
        ensures line { self.new.line ≡ self.old.line }
        ensures count { self.new.count ≡ self.old.count }
    {
        let bytes = self.take();
        let place = Place {
            line: self.line,
            field: field_number,
        };
        field(bytes, range, place)
    }
}
