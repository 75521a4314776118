#![tactic(auto)]
// End kinds with their codes, and joinings of two ends into one.
pub mod end;
pub mod joining;
pub mod laws;
pub mod setting;
