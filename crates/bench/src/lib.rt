//! The bench: one sheet, blank at first, that is read, judged, reported and written.
#![tactic(auto)]

mod bench;
mod responding;

pub use bench::Bench;
pub use judging::judge::WORK_LENGTH;
pub use responding::respond;
pub use sheets::limits::TEXT_LIMIT;
