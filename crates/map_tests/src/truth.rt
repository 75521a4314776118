// Truth tables: the code of each address. A table of fewer pins repeats itself.
ghost use Rattle.std.specs.Prelude.{◌≡◌, ◌≤◌, slice_index_or};

use scripts::request::How;
use std::array;

pub type Table<const N: usize> = [u16; N];

// No kind's code.
pub const NO_CODE: u16 = u16::MAX;

pub fn addresses(pins: usize) -> usize
    ensures { (2 ≤ result) × (result ≤ 32) }
{
    match pins {
        1 => 2,
        2 => 4,
        3 => 8,
        4 => 16,
        _ => 32,
    }
}

pub fn code_at(codes: &[u16], address: usize) -> u16
    ensures { result ≡ slice_index_or codes.now address 65535 }
{
    codes.get(address).copied().unwrap_or(NO_CODE)
}

// A bit of the pattern for each address, lowest first.
pub fn bits<const N: usize>(pins: usize, pattern: u64) -> Table<N> {
    let count = addresses(pins);
    array::from_fn(|address| (pattern >> (address % count) & 1) as u16)
}

// Two bits of the pattern for each address, lowest first, that pick one of four codes.
pub fn settings<const N: usize>(four: &[u16; 4], pins: usize, pattern: u64) -> Table<N> {
    let count = addresses(pins);
    array::from_fn(|address| code_at(four, (pattern >> (address % count * 2) & 3) as usize))
}

// The setting that wins: one with a chip before one with none, then the one with more waits, then the left. Told by cases,
// where the product compares pairs.
fn overlaid(left: u16, right: u16) -> u16 {
    let idle = left / 8 == 0;
    if idle != (right / 8 == 0) {
        if idle { right } else { left }
    } else if left % 8 < right % 8 {
        right
    } else {
        left
    }
}

// The code that a joining makes of two.
pub fn joined_code(how: How, left: u16, right: u16) -> u16 {
    match how {
        How::Both => left & right,
        How::Either => left | right,
        How::Differ => left ^ right,
        How::Overlay => overlaid(left, right),
    }
}
