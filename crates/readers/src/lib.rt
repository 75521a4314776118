#![tactic(auto)]
// Readers of accepted map files, in the caller's own bytes; each is a source.
pub mod bit_file;
pub mod entry;
pub mod kind;
pub mod laws;
mod lookup;
pub mod map_file;
pub mod range_file;
pub mod reader;
pub mod setting_file;
