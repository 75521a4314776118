// Map files written from truth tables.
use crate::building::{bit_map_from, range_map, setting_map};
use crate::truth::{addresses, code_at};
use std::alloc::{AllocError, Global};

// A number in a byte. Pins and codes of map files fit.
fn byte(number: usize) -> u8 {
    u8::try_from(number).unwrap_or(u8::MAX)
}

fn byte_at(codes: &[u16], address: usize) -> u8 {
    byte(code_at(codes, address) as usize)
}

// Each of the addresses of so many pins whose code is not the one before it, with its code.
fn changes(heap: Global, pins: usize, codes: &[u16]) -> Result<Vec<(u32, u8)>, AllocError> {
    codes
        .array_windows::<2>()
        .zip(1..addresses(pins) as u32)
        .filter(|([before, code], _)| before != code)
        .map(|([_, code], address)| (address, byte(*code as usize)))
        .collect(heap)
}

// A switch file of bits with this truth table.
pub fn bit_file(heap: Global, pins: usize, codes: &[u16]) -> Result<Vec<u8>, AllocError> {
    let switches = changes(heap, pins, codes)?
        .iter()
        .map(|(address, _)| *address)
        .collect::<Vec<u32>>(heap)?;
    bit_map_from(heap, byte(pins), byte_at(codes, 0), &switches)
}

// A switch file of chip settings with this truth table.
pub fn setting_file(heap: Global, pins: usize, codes: &[u16]) -> Result<Vec<u8>, AllocError> {
    let switches = changes(heap, pins, codes)?;
    setting_map(heap, byte(pins), byte_at(codes, 0), &switches)
}

// A range file with this truth table.
pub fn range_file(heap: Global, pins: usize, codes: &[u16]) -> Result<Vec<u8>, AllocError> {
    let end = addresses(pins) as u32;
    let inside = |address: u32| address < end && code_at(codes, address as usize) == 1;
    let firsts = (0..end).filter(|address| inside(*address) && !inside(address.wrapping_sub(1)));
    let lasts = (0..end).filter(|address| inside(*address) && !inside(address.wrapping_add(1)));
    let ranges = firsts.zip(lasts).collect::<Vec<(u32, u32)>>(heap)?;
    range_map(heap, byte(pins), &ranges)
}
