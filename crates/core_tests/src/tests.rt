//! Tests of what no contract says, such as that calls succeed if memory suffices, that definitions mean what is
//! intended, and which schemas are cached.

mod cache;
mod nodes;
mod registry;
mod requests;
mod resolution;
mod rows;
mod schemas;
