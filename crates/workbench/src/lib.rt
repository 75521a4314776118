#![tactic(auto)]
// The calls of a script, carried out on one plan.
pub mod answer;
pub mod carrying;
pub mod desk;
mod drawing;
mod handing;
mod issued;
pub mod joining;
pub mod laws;
mod making;
mod opened;
pub mod running;
pub mod sheet;
mod telling;
#[cfg(test)]
mod tests;
