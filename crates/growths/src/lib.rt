#![tactic(auto)]
// Growths of a node table: the join of two diagrams, and a diagram with a pin set.
pub mod codes;
pub mod joins;
pub mod roots;
pub mod straps;
