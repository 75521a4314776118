#![tactic(auto)]
// What the program selquote answers, as a function of the bytes that it reads.
pub mod laws;
pub mod price;
pub mod quoting;
