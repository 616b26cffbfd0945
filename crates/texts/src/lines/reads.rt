ghost use Rattle.std.specs.Prelude.{◌≡◌, ◌+◌, ◌<◌, ◌≤◌, cond, length};
ghost use Rattle.texts.specs.Texts.{whole_of, Took, Due, missing_at, left_at};

use crate::cut::{cut, occurrences};
use crate::line::Line;
use crate::lines::Lines;
use crate::refusal::{Fault, Refusal};

/// Refuses a text of more than `limit` bytes, and one whose last line has no end.
pub fn check_whole(text: &[u8], limit: usize) -> Result<(), Fault>
    ensures { result ≡ whole_of limit text.now }
{
    if text.len() > limit {
        return Err(Fault::new(Refusal::TextTooLong, 0, 0));
    }
    match text {
        [.., b'\n'] => Ok(()),
        _ => Err(Fault::new(Refusal::Unfinished, occurrences(text, b'\n') + 1, 0)),
    }
}

impl<'a> Lines<'a> {
    /// All the lines of a text.
    pub fn new(text: &'a [u8]) -> Lines<'a>
        ensures rest { result.rest.now ≡ text.now }
        ensures taken { result.taken ≡ 0 }
    {
        Lines {
            rest: text,
            taken: 0,
        }
    }

    /// Takes the next line, if its first field is `letter`.
    pub fn take(&mut self, letter: u8) -> Option<Line<'a>>
        ensures { Took letter self.old result self.new }
    {
        if self.rest.is_empty() {
            return None;
        }
        let (bytes, after) = cut(self.rest, b'\n');
        let line = Line::open(bytes, letter, self.taken + 1)?;
        self.rest = after;
        self.taken += 1;
        Some(line)
    }

    /// Takes the next line, whose first field must be `letter`.
    pub fn due(&mut self, letter: u8) -> Result<Line<'a>, Fault>
        ensures { Due letter self.old result self.new }
    {
        self.take(letter).ok_or(self.missing())
    }

    /// The fault where a line is due that does not come.
    pub fn missing(&self) -> Fault
        ensures { result ≡ missing_at self.now }
    {
        if self.rest.is_empty() {
            return Fault::new(Refusal::EndsEarly, 0, 0);
        }
        Fault::new(Refusal::NotDue, self.taken + 1, 1)
    }

    /// Refuses a line where none is due any more.
    pub fn finish(&self) -> Result<(), Fault>
        ensures { result ≡ left_at self.now }
    {
        if self.rest.is_empty() {
            return Ok(());
        }
        Err(self.missing())
    }
}
