//! Tests of the crates below the database, for behaviour that the built program can't show.

#![tactic(auto)]

#[cfg(test)]
mod tests;
