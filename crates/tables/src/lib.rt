#![tactic(auto)]
// The node table: reading it, marking and indexing its live nodes, and adding a node.
pub mod adding;
pub mod indexing;
pub mod line;
pub mod marking;
pub mod reading;
