//! Edits of a sheet: when they are refused, how they are made, and how they are taken back.
#![tactic(auto)]

pub mod checks;
pub mod edit;
mod making;
pub mod undoing;
