//! The evaluation of formula rows: access between states, and the set of each row from those of its operands.
#![tactic(auto)]

pub mod access;
pub mod evaluation;
