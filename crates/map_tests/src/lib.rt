#![tactic(auto)]
// Tests of map files: what is accepted, what is refused and why, and what files mean.
pub mod building;
#[cfg(test)]
mod checking;
#[cfg(test)]
mod limits;
#[cfg(test)]
mod refusals;
pub mod samples;
pub mod truth;
