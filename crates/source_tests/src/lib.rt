#![tactic(auto)]
// Tests of sources: map files and layers, asked block by block and held to truth tables.
#[cfg(test)]
mod asking;
#[cfg(test)]
mod layers;
#[cfg(test)]
mod refusals;
#[cfg(test)]
mod samples;
#[cfg(test)]
mod small_files;
#[cfg(test)]
mod stacks;
#[cfg(test)]
mod tables;
#[cfg(test)]
mod twenty_pins;
