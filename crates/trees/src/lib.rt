#![tactic(auto)]
// The contracted tree of a source: one record for each mixed block.
pub mod build;
mod draft;
pub mod laws;
pub mod read;
pub mod tree;
