#![tactic(auto)]
// Refusals: why, in which layer, and at which place.
pub mod fault;
pub mod shown;
