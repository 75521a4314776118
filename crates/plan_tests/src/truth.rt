// What joins and straps make of truth tables.
use map_tests::truth::{self, addresses, code_at, joined_code};
use scripts::request::How;
use std::array;

pub type Table = truth::Table<16>;

// Chip 0 with 1 wait, chip 1 with none, and chips 2 and 3 with 1 wait each, so that the left of them wins.
pub const SETTINGS: [u16; 4] = [1, 8, 17, 25];

// The bit of an address that a pin is; pin 0 is the highest.
pub fn bit_of(pins: usize, pin: u8) -> usize {
    addresses(pins) / 2 >> (pin % 4)
}

pub fn joined(how: How, left: &Table, right: &Table) -> Table {
    array::from_fn(|address| joined_code(how, left[address], right[address]))
}

// Each address with the code that it has once the bit is set.
pub fn strapped(codes: &Table, bit: usize, high: bool) -> Table {
    array::from_fn(|address| {
        let set = address | bit;
        code_at(codes, if high { set } else { set ^ bit })
    })
}
