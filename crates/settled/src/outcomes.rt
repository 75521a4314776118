// What the calls of the examples told.
use faults::fault::Fault;

// The tree records of a map, and the nodes of its line alone on a plan.
#[derive(Clone, Copy)]
pub struct Reckoning {
    pub records: usize,
    pub nodes: u16,
}

// Maps, each reckoned in its order.
#[derive(Clone, Copy)]
pub struct Maps {
    pub constant: Result<Reckoning, Fault>,
    pub single: Result<Reckoning, Fault>,
    pub alternating: Result<Reckoning, Fault>,
    pub differing: Result<Reckoning, Fault>,
    pub in_order: Result<Reckoning, Fault>,
    pub out_of_order: Result<Reckoning, Fault>,
    pub chip_settings: Result<Reckoning, Fault>,
}

// Two lines on three nodes, and a third map.
#[derive(Clone, Copy)]
pub struct ThreeNodes {
    pub used: u16,
    pub drawn: Result<(), Fault>,
    pub erased: Result<(), Fault>,
    pub drawn_then: Result<(), Fault>,
    pub used_then: u16,
}

// The same two lines: a pin of line 0 strapped, and the line joined with itself.
#[derive(Clone, Copy)]
pub struct StrapAndJoin {
    pub strapped: Result<(), Fault>,
    pub ends: [Result<u16, Fault>; 4],
    pub used: u16,
    pub joined: Result<(), Fault>,
    pub count: Result<u16, Fault>,
}
