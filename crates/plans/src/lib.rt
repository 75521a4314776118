#![tactic(auto)]
// Plans: a header of 32 lines over a node table, and the calls on it.
pub mod asking;
mod checks;
pub mod drawing;
pub mod erasing;
pub mod header;
pub mod issued;
pub mod issuing;
pub mod joining;
pub mod laws;
mod line_number;
pub mod making;
mod marking;
pub mod open;
mod order;
pub mod plan;
mod settling;
pub mod strapping;
pub mod work;
