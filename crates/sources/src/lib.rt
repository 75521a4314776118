#![tactic(auto)]
// Sources: a pin count and a selection of ends, asked by blocks; and layers over any source.
pub mod block;
pub mod flipped;
pub mod inverted;
pub mod laws;
pub mod lent;
pub mod mount;
pub mod mounted;
mod overlap;
pub mod source;
#[cfg(test)]
mod tests;
