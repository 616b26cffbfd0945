//! Tests of the bench, each run on both kinds of set.
#![tactic(auto)]

mod examples;
#[cfg(test)]
mod tests;
