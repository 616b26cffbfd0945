ghost use Rattle.std.specs.Prelude.{◌≡◌, ◌+◌, [], ◌∷◌, ◌++◌, length, take, is_some, if◌then◌else◌, MatchOption, ◌==◌, nat_lt, slice_set};
ghost use Rattle.std.specs.Option.{option_to_list};
ghost use Rattle.search.specs.Stack.{capacity, contents};

use crate::Stack;

// The clauses `lent` and `slots` tell the lender what its slots hold once the stack is gone.
impl<'a, T: Copy> Stack<'a, T> {
    /// The empty stack over `slots`.
    pub fn new(slots: &'a mut [T]) -> Stack<'a, T>
        ensures empty { contents result ≡ [] }
        ensures size { capacity result ≡ length slots.old }
        ensures slots { result.slots.now ≡ slots.old }
        ensures lent { result.slots.ghost_name ≡ slots.entry.ghost_name }
    {
        Stack { slots, len: 0 }
    }

    /// The stack that the first `len` of `slots` make, or all of them where there are fewer.
    pub fn resume(slots: &'a mut [T], len: usize) -> Stack<'a, T>
        ensures after { contents result ≡ take len slots.old }
        ensures size { capacity result ≡ length slots.old }
        ensures slots { result.slots.now ≡ slots.old }
        ensures lent { result.slots.ghost_name ≡ slots.entry.ghost_name }
    {
        Stack { slots, len }
    }

    /// How many items it holds.
    pub fn len(&self) -> usize
        ensures value { result ≡ length (contents self.now) }
        ensures front { take result self.now.slots.now ≡ contents self.now }
    {
        self.len.min(self.slots.len())
    }

    /// Its items, the last on top.
    pub fn as_slice(&self) -> &[T]
        ensures { result.now ≡ contents self.now }
    {
        &self.slots[..self.len()]
    }

    /// Whether it holds nothing.
    pub fn is_empty(&self) -> bool
        ensures { result ≡ (length (contents self.now) == 0) }
    {
        self.len() == 0
    }

    /// Puts `x` on top, or changes nothing and answers `false` where no slot is free.
    pub fn push(&mut self, x: T) -> bool
        ensures fits { result ≡ nat_lt (length (contents self.old)) (capacity self.old) }
        ensures after { contents self.new ≡ (if result then contents self.old ++ x ∷ [] else contents self.old) }
        ensures len { length (contents self.new) ≡ (if result then length (contents self.old) + 1 else length (contents self.old)) }
        ensures size { capacity self.new ≡ capacity self.old }
        ensures slots { self.new.slots.now ≡ (if result then slice_set self.old.slots.now (length (contents self.old)) x else self.old.slots.now) }
        ensures lent { self.new.slots.ghost_name ≡ self.old.slots.ghost_name }
    {
        if self.len >= self.slots.len() {
            return false;
        }
        self.slots[self.len] = x;
        self.len += 1;
        true
    }

    /// Takes the top off, if there is one.
    pub fn pop(&mut self) -> Option<T>
        ensures after { contents self.old ≡ contents self.new ++ option_to_list result }
        ensures found { is_some result ≡ nat_lt 0 (length (contents self.old)) }
        ensures len { MatchOption result (contents self.new ≡ []) (λ _. length (contents self.new) + 1 ≡ length (contents self.old)) }
        ensures size { capacity self.new ≡ capacity self.old }
        ensures slots { self.new.slots.now ≡ self.old.slots.now }
        ensures lent { self.new.slots.ghost_name ≡ self.old.slots.ghost_name }
    {
        let top = self.len().checked_sub(1)?;
        self.len = top;
        Some(self.slots[top])
    }
}
