// A change of the end: from this address on, addresses have this end.
#[derive(Clone, Copy, PartialEq, Eq, Debug)]
pub struct Switch<E> {
    pub address: u32,
    pub end: E,
}

// Addresses of end 1, from the first to the last.
#[derive(Clone, Copy, PartialEq, Eq, Debug)]
pub struct Range {
    pub first: u32,
    pub last: u32,
}
