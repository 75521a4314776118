#![tactic(auto)]
// Rows of calls on a plan, and the laws that hold after any of them.
pub mod after;
pub mod calls;
pub mod hand;
pub mod lent;
pub mod listing;
pub mod outcome;
pub mod row;
