//! The fixpoint searches of until and globally and the paths that witness them, one text for every step rule and every kind of set.
#![tactic(auto)]

mod descent;
mod globally_search;
mod lasso;
mod loop_search;
mod small_graph;
mod until_search;

pub use descent::until_path;
pub use globally_search::globally;
pub use lasso::Lasso;
pub use loop_search::globally_path;
pub use search::NoRoom;
pub use until_search::until;
