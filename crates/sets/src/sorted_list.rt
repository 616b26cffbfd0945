ghost use Rattle.std.specs.Prelude.{◌≡◌, ℕ, ◌-◌, ◌<◌, ◌≤◌, false, MatchResult, OnErr, is_ok, slice_index};
ghost use Rattle.sets.specs.Sorted.{Small, Rising, among, At, InsertionPoint};
ghost use Rattle.sets.specs.Bounds.{among_small};

use crate::StateSet;

/// The states as a strictly rising list of at most 64 numbers, each below 64. No set takes memory, so the list is
/// the front of a fixed array.
#[derive(Clone, Copy)]
pub struct SortedList {
    items: [u8; 64],
    len: usize,
    ghost short: { len ≤ 64 },
    ghost small: { Small items len },
    ghost rising: { Rising items len },
}

impl SortedList {
    /// The empty set.
    pub fn new() -> SortedList
        ensures { (k : ℕ) → among result.items result.len k ≡ false }
    {
        SortedList {
            items: [0; 64],
            len: 0,
        }
    }

    // How many of the items to search for `value`: all, or so many that the last of them is not below it. The number
    // grows from 1 by doubling, so that a value near the front is found in few steps.
    fn reach(&self, value: u8) -> usize
        ensures within { result ≤ self.now.len }
        ensures far { result < self.now.len → (0 < result) × (value ≤ slice_index self.now.items (result - 1)) }
    {
        let mut reach = 1;
        'doubling: while reach < self.len && self.items[reach - 1] < value {
            reach *= 2;
        }
        reach.min(self.len)
    }

    // Where `value` is, or else the place to put it in.
    fn find(&self, value: u8) -> Result<usize, usize>
        ensures place { MatchResult result (λ place. At self.now.items self.now.len place value) (λ place. InsertionPoint self.now.items self.now.len place value) }
        ensures member { is_ok result ≡ among self.now.items self.now.len value }
        ensures room { OnErr result (value < 64 → self.now.len < 64) }
    {
        self.items[..self.reach(value)].binary_search(&value)
    }
}

impl StateSet for SortedList {
    const CAPACITY: usize = 64;

    ghost CAPACITY = { 64 };

    ghost holds = { λ set. among set.items set.len };

    ghost bounded = { λ x k h. among_small x.items x.len k x.small h };

    fn put(&mut self, state: usize) -> bool {
        if state >= Self::CAPACITY {
            return false;
        }
        let value = state as u8;
        if let Err(place) = self.find(value) {
            self.items.copy_within(place..self.len, place + 1);
            self.items[place] = value;
            self.len += 1;
        }
        true
    }

    fn take(&mut self, state: usize) {
        if Self::CAPACITY <= state {
            return;
        }
        if let Ok(place) = self.find(state as u8) {
            self.items.copy_within(place + 1..self.len, place);
            self.len -= 1;
        }
    }

    fn clear(&mut self) {
        self.len = 0;
    }

    fn has(&self, state: usize) -> bool {
        u8::try_from(state).is_ok_and(|value| self.find(value).is_ok())
    }

    fn join(&mut self, other: &SortedList) {
        for item in &other.items[..other.len] {
            let _ = self.put(usize::from(*item));
        }
    }
}
