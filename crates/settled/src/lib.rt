#![tactic(auto)]
// Settled examples on the calls: what each of them tells, side by side in specs/Examples.
mod four_reads;
pub mod laws;
pub mod maps;
mod memory;
pub mod mount;
pub mod outcome;
pub mod outcomes;
pub mod overlay;
mod reckoning;
mod samples;
pub mod strap_and_join;
pub mod third_line;
pub mod three_nodes;
mod two_lines;
