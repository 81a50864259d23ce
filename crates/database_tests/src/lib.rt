//! Tests of the crates over a database: lookups, stores, services, sessions, connections and
//! subcommands.

#![tactic(auto)]

#[cfg(test)]
mod tests;
