//! Tests of what no clause says of stores, services, sessions, connections and subcommands: what
//! failing disks leave, how many steps lookups take, how connections take turns, and that calls
//! succeed if memory suffices.

mod accepting;
mod connections;
mod doing;
mod faults;
mod jobs;
mod migration;
mod network;
mod outcomes;
mod plans;
mod reading;
mod scripts;
mod sessions;
mod stops;
mod support;
mod turns;
