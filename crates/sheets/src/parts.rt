use crate::operator::Operator;
use sets::BitSet;

/// The first line of a sheet: its number, and how many parties, channels, states and marks it has.
/// A party is someone who can be committed, a channel is what parties read from each other, a state is
/// one of the global states that the parties can be in, and a mark is a fact that can hold in a state.
#[derive(Clone, Copy)]
pub struct Header {
    pub number: u16,
    pub parties: u8,
    pub channels: u8,
    pub states: u8,
    pub marks: u8,
}

/// What a party knows at a state: its position, and its copy of each channel that it holds.
#[derive(Clone, Copy)]
pub struct Local {
    pub position: u16,
    pub copies: [u16; 8],
}

/// A global state: whether it is a start, its marks as a sum of powers of two, what each party knows
/// there, and the states that a move leads to.
#[derive(Clone, Copy)]
pub struct State {
    pub start: bool,
    pub marks: u16,
    pub locals: [Local; 6],
    pub successors: BitSet,
}

/// A formula line: an operator and its operands, of which those that it lacks are 0, so that every row is taken apart
/// alike.
#[derive(Clone, Copy)]
pub struct Row {
    pub operator: Operator,
    pub operands: [u8; 3],
}
