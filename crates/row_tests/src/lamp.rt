// How brightly a lamp burns.
#[derive(Clone, Copy, PartialEq, Eq, PartialOrd, Ord)]
pub enum Lamp {
    Off,
    Dim,
    Bright,
}

// The brighter of two lamps.
#[derive(Clone, Copy)]
pub struct Brighter;
