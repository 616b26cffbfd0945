//! Texts of comma-separated fields: refusals with their places, number fields, lines, and a writer.
#![tactic(auto)]

pub mod cut;
pub mod field;
pub mod line;
pub mod lines;
pub mod number;
pub mod refusal;
pub mod text;
pub mod theorems;
pub mod writer;
