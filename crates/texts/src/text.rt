ghost use Rattle.std.specs.Prelude.{◌≡◌, ℕ, List, length};
ghost use Rattle.texts.specs.Refusals.{fault_text};
ghost use Rattle.texts.specs.Written.{Gave, onward, fitted, placed};

use crate::refusal::{Fault, Place, Refusal};
use crate::writer::Writer;

/// What is written as a text.
pub trait Text {
    ghost text: { Self → List ℕ };

    /// Writes the text behind what was written before.
    fn write(&self, writer: &mut Writer<'_>)
        ensures { Gave writer.old (text self.now) writer.new };
}

/// A fault is written as the line `E,number,line,field`.
impl Text for Fault {
    ghost text = { fault_text };

    fn write(&self, writer: &mut Writer<'_>) {
        let Place { line, field } = self.place;
        writer.line(b'E', &[usize::from(self.refusal.code()), line, field]);
    }
}

/// How many bytes the text has, counted up to the largest number that fits 64 bits.
pub fn measure<T: Text>(text: &T) -> usize
    ensures { result ≡ onward 0 (length (T.text text.now)) }
{
    let mut writer = Writer::new(&mut []);
    text.write(&mut writer);
    writer.length()
}

/// A text whose bytes were counted, so that it can be measured and then written without being counted again.
#[derive(Drop)]
pub struct Measured<'a, T: Text> {
    text: &'a T,
    size: usize,
    ghost counted: { size ≡ onward 0 (length (T.text text.now)) },
}

impl<'a, T: Text> Measured<'a, T> {
    /// The text with the number of its bytes.
    pub fn new(text: &'a T) -> Measured<'a, T>
        ensures { result.text.now ≡ text.now }
    {
        let size = measure(text);
        Measured { text, size }
    }

    /// How many bytes the text has, counted up to the largest number that fits 64 bits.
    pub fn size(&self) -> usize
        ensures { result ≡ onward 0 (length (T.text self.now.text.now)) }
    {
        self.size
    }

    /// Writes the text from the front of `out`, and answers its length; later bytes stay. Where `out` has no
    /// room for it, it is refused and `out` stays.
    pub fn write_from_front(&self, out: &mut [u8]) -> Result<usize, Refusal>
        ensures value { result ≡ fitted (length (T.text self.now.text.now)) (length out.old) }
        ensures after { out.new ≡ placed (T.text self.now.text.now) out.old }
    {
        if self.size > out.len() {
            return Err(Refusal::ShortBuffer);
        }
        let mut writer = Writer::new(out);
        self.text.write(&mut writer);
        Ok(writer.length())
    }
}

/// Writes the text from the front of `out`, and answers its length; later bytes stay. Where `out` has no
/// room for it, it is refused and `out` stays.
pub fn write_from_front<T: Text>(text: &T, out: &mut [u8]) -> Result<usize, Refusal>
    ensures value { result ≡ fitted (length (T.text text.now)) (length out.old) }
    ensures after { out.new ≡ placed (T.text text.now) out.old }
{
    Measured::new(text).write_from_front(out)
}
