/// A value of a party at a state: its position, or its copy of a channel.
#[derive(Clone, Copy, PartialEq, Eq, Debug)]
pub enum Value {
    Position,
    Copy(usize),
}

/// An edit of a sheet.
#[derive(Clone, Copy, PartialEq, Eq, Debug)]
pub enum Edit {
    /// A move comes in.
    Join {
        from: usize,
        to: usize,
    },
    /// A move goes out.
    Cut {
        from: usize,
        to: usize,
    },
    /// A value of a party at a state becomes `number`.
    Set {
        state: usize,
        party: usize,
        value: Value,
        number: usize,
    },
    /// The marks of a state become those whose powers of two add up to `sum`.
    Mark {
        state: usize,
        sum: usize,
    },
}
