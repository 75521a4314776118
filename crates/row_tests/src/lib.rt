#![tactic(auto)]
// Tests of rows, with a source, an end kind and a joining that the library does not know.
pub mod dawn;
pub mod lamp;
pub mod lamps;
#[cfg(test)]
mod layouts;
#[cfg(test)]
mod mixed;
#[cfg(test)]
mod samples;
pub mod settled;
