//! Tests of the sets and the searches, each run on both kinds of set.
#![tactic(auto)]

mod graphs;
#[cfg(test)]
mod tests;
