ghost use Rattle.std.specs.Prelude.{◌≡◌, [], ◌∷◌, decimal};
ghost use Rattle.semantics.specs.Written.{fields_text, line_text};
ghost use Rattle.texts.specs.Written.{Gave};

use crate::writer::Writer;

impl<'a> Writer<'a> {
    /// A writer that has written nothing.
    pub fn new(buffer: &'a mut [u8]) -> Writer<'a>
        ensures buffer { result.buffer.now ≡ buffer.old }
        ensures length { result.length ≡ 0 }
        ensures lent { result.buffer.ghost_name ≡ buffer.entry.ghost_name }
    {
        Writer { buffer, length: 0 }
    }

    /// How many bytes were written.
    pub fn length(&self) -> usize
        ensures { result ≡ self.now.length }
    {
        self.length
    }

    /// Writes one byte.
    pub fn byte(&mut self, b: u8)
        ensures { Gave self.old (b ∷ []) self.new }
    {
        // By its place: of a slice that `get_mut` was asked of, a proof no longer knows the elements.
        if self.length < self.buffer.len() {
            self.buffer[self.length] = b;
        }
        self.length = self.length.saturating_add(1);
    }

    /// Writes `n` in decimal. (`write!` would answer a `Result` to callers that cannot fail.)
    pub fn number(&mut self, n: usize)
        ensures { Gave self.old (decimal n) self.new }
    {
        if n >= 10 {
            self.number(n / 10);
        }
        self.byte(b'0' + (n % 10) as u8);
    }

    /// Writes a comma and `n`.
    pub fn field(&mut self, n: usize)
        ensures { Gave self.old (44 ∷ decimal n) self.new }
    {
        self.byte(b',');
        self.number(n);
    }

    /// Writes each number behind a comma.
    pub fn fields(&mut self, numbers: &[usize])
        ensures { Gave self.old (fields_text numbers.now) self.new }
    {
        for n in numbers {
            self.field(*n);
        }
    }

    /// Writes a line of a letter and numbers.
    pub fn line(&mut self, letter: u8, numbers: &[usize])
        ensures { Gave self.old (line_text letter numbers.now) self.new }
    {
        self.byte(letter);
        self.fields(numbers);
        self.byte(b'\n');
    }
}
