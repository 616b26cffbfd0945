//! Step rules, graphs and their searches for next states, and a stack over lent slots, one text for every step rule and every kind of set.
#![tactic(auto)]

mod boolean;
mod filling;
mod graph;
mod rules;
mod stack;
mod stack_methods;

pub use boolean::{complement, copy, either};
pub use filling::{NoRoom, fill};
pub use graph::Graph;
pub use rules::{BitRows, Reversed, StepRule};
pub use stack::Stack;
