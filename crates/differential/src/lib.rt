#![tactic(auto)]
// A differential test of plans: long rows of calls by chance, each held to truth tables.
#[cfg(test)]
mod bench;
#[cfg(test)]
mod call;
#[cfg(test)]
mod chance;
#[cfg(test)]
mod choosing;
#[cfg(test)]
mod drawing;
#[cfg(test)]
mod forecast;
#[cfg(test)]
mod held;
#[cfg(test)]
mod issued;
#[cfg(test)]
mod layout;
#[cfg(test)]
mod lending;
#[cfg(test)]
mod long_rows;
#[cfg(test)]
mod makings;
#[cfg(test)]
mod noise;
#[cfg(test)]
mod orders;
#[cfg(test)]
mod parts;
#[cfg(test)]
mod plain;
#[cfg(test)]
mod running;
#[cfg(test)]
mod sketching;
#[cfg(test)]
mod tally;
#[cfg(test)]
mod truth;
#[cfg(test)]
mod wanted;
