//! Commitment sheets as data.
#![tactic(auto)]

pub mod holders;
pub mod limits;
pub mod moves;
pub mod operator;
pub mod parts;
pub mod sheet;
pub mod tables;
