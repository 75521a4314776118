#![tactic(auto)]
// Tests of plans: rows of calls, held to truth tables after every call.
#[cfg(test)]
mod bench;
#[cfg(test)]
mod joins;
#[cfg(test)]
mod orders;
#[cfg(test)]
mod parts;
#[cfg(test)]
mod refusals;
#[cfg(test)]
mod steps;
#[cfg(test)]
mod straps;
#[cfg(test)]
mod truth;
