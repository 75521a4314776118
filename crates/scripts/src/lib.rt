#![tactic(auto)]
// Lines of a script, and the calls that they ask for.
mod digits;
mod grammar;
pub mod laws;
mod layers;
pub mod mistake;
mod names;
pub mod parsing;
mod parts;
pub mod request;
#[cfg(test)]
mod tests;
mod word;
