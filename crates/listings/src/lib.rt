#![tactic(auto)]
// Listings: the nodes that lines reach in the order of a listing, and the bytes.
mod fronts;
mod labels;
pub mod listing;
mod numbers;
mod row;
mod writing;
