// What layers make of truth tables.
ghost use Rattle.std.specs.Prelude.{◌≤◌};

use map_tests::truth::{self, code_at};
use std::array;

pub type Table = truth::Table<32>;

// Idle, chip 1, chip 2, and the last chip with the most waits.
pub const SETTINGS: [u16; 4] = [0, 8, 16, 127];

// Every bit turned over.
pub fn inverted(codes: &Table) -> Table {
    codes.map(|code| code ^ 1)
}

// Each address with the code of the address that differs from it in the bits of the mask.
pub fn flipped(codes: &Table, mask: u32) -> Table {
    array::from_fn(|address| code_at(codes, address ^ mask as usize))
}

// A table of so many pins where the bits above them are the base, and the fill code elsewhere.
pub fn mounted(codes: &Table, own: u32, base: u32, fill: u16) -> Table
    requires { own ≤ 20 }
{
    let base = base as usize;
    array::from_fn(|address| {
        if address >> own == base {
            code_at(codes, address ^ base << own)
        } else {
            fill
        }
    })
}
