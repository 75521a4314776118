#![tactic(auto)]
// Map files in three formats: their fields, the first fault of bytes that are read as one, and what accepted bytes mean.
pub mod accept;
pub mod fields;
pub mod format;
mod judge;
pub mod laws;
pub mod layout;
