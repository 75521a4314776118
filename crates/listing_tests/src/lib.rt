#![tactic(auto)]
// Tests of listings, to the byte.
#[cfg(test)]
mod bench;
#[cfg(test)]
mod layouts;
