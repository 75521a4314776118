#![tactic(auto)]
// The growth of a diagram from a contracted tree.
pub mod drawing;
