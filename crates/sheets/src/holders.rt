ghost use Rattle.std.specs.Prelude.{◌≡◌, ℕ, ◌<◌, ◌≤◌, Bool, false, ◌&&◌, ◌||◌, ◌==◌};
ghost use Rattle.sheets.specs.Holding.{held, held_count, share_some};

/// Which parties hold which channels: an entry for each of 8 channels and 6 parties, channel by channel.
#[derive(Clone, Copy)]
pub struct Holders {
    pub table: [bool; 48],
}

impl Holders {
    /// No channel has a holder.
    pub fn none() -> Holders
        ensures { (c p : ℕ) → held result c p ≡ false }
    {
        Holders { table: [false; 48] }
    }

    /// Makes `party` a holder of `channel`, where there are such.
    pub fn add(&mut self, channel: usize, party: usize)
        ensures { (c p : ℕ) → c < 8 → p < 6 → held self.new c p ≡ ((c == channel && p == party) || held self.old c p) }
    {
        if channel < 8 && party < 6 {
            self.table[channel * 6 + party] = true;
        }
    }

    /// Whether `party` holds `channel`.
    pub fn has(&self, channel: usize, party: usize) -> bool
        ensures { result ≡ held self.now channel party }
    {
        channel < 8 && party < 6 && self.table[channel * 6 + party]
    }

    /// How many channels `party` holds.
    pub fn count(&self, party: usize) -> usize
        ensures value { result ≡ held_count 8 self.now party }
        ensures bound { result ≤ 8 }
    {
        (0..8).filter(|channel| self.has(*channel, party)).count()
    }

    /// Whether two parties hold some channel both.
    pub fn share(&self, one: usize, other: usize) -> bool
        ensures { result ≡ share_some 8 self.now one other }
    {
        (0..8).any(|channel| self.has(channel, one) && self.has(channel, other))
    }
}
