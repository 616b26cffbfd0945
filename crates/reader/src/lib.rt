//! Reads a sheet's text.
#![tactic(auto)]

mod preamble;
mod readers;
mod reading;
mod row_reader;

pub use reading::read;
