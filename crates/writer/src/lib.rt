//! Writes a sheet's text.
#![tactic(auto)]

mod writing;

pub use writing::write;
