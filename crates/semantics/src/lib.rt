//! What a sheet, its formulas, queries, amendments and runs mean: definitions, and theorems on contracts.
#![tactic(auto)]

pub mod theorems;
