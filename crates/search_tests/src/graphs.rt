use sets::{BitSet, StateSet};

/// The rows of a chain: each state leads to the next, and the last one to `back`.
pub(crate) fn chain(states: usize, back: usize) -> [u128; 128] {
    let mut rows = [0; 128];
    for (from, row) in rows.iter_mut().enumerate() {
        let to = if from + 1 < states { from + 1 } else { back };
        if to < 128 {
            *row = 1 << to;
        }
    }
    rows
}

/// The states below `states`.
pub(crate) fn all_below(states: usize) -> BitSet {
    let mut set = BitSet::new();
    for state in 0..states {
        let _ = set.put(state);
    }
    set
}
