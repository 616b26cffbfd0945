//! Judging formula lines: verdicts, rounds, and the report on all lines.
#![tactic(auto)]

pub mod judge;
pub mod reporting;
mod work_buffer;
