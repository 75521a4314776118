// Map files written for tests. Pins and changes are parameters: they are what a file is made of, and no more.
use faults::fault::Fault;
use files::accept::accept;
use files::format::Format;
use std::alloc::{AllocError, Global};

// `ACCEPTED`, or the refusal as it prints.
pub fn verdict(heap: Global, bytes: &[u8], format: Format) -> Result<String, AllocError> {
    match accept(bytes, format) {
        Ok(_) => String::from_str(heap, "ACCEPTED"),
        Err(fault) => fault.to_string(heap),
    }
}

// A switch file of bits, first end 0, with switches at these addresses.
pub fn bit_map(heap: Global, pins: u8, switches: &[u32]) -> Result<Vec<u8>, AllocError> {
    bit_map_from(heap, pins, 0, switches)
}

// The same with a first end.
pub fn bit_map_from(
    heap: Global,
    pins: u8,
    first: u8,
    switches: &[u32],
) -> Result<Vec<u8>, AllocError> {
    let mut file = header(heap, 0, pins, first, switches.len())?;
    for address in switches {
        push_address(&mut file, *address)?;
    }
    Ok(file)
}

// A switch file of chip settings with a first code, and switches with addresses and codes.
pub fn setting_map(
    heap: Global,
    pins: u8,
    first: u8,
    switches: &[(u32, u8)],
) -> Result<Vec<u8>, AllocError> {
    let mut file = header(heap, 1, pins, first, switches.len())?;
    for (address, code) in switches {
        push_address(&mut file, *address)?;
        file.push(*code)?;
    }
    Ok(file)
}

// A range file with these first and last addresses.
pub fn range_map(heap: Global, pins: u8, ranges: &[(u32, u32)]) -> Result<Vec<u8>, AllocError> {
    let mut file = Vec::new(heap);
    file.extend_from_slice(b"RNG")?;
    file.extend_from_slice(&[0, 1, pins])?;
    push_count(&mut file, ranges.len())?;
    for (first, last) in ranges {
        push_address(&mut file, *first)?;
        push_address(&mut file, *last)?;
    }
    Ok(file)
}

fn header(
    heap: Global,
    kind: u8,
    pins: u8,
    first: u8,
    count: usize,
) -> Result<Vec<u8>, AllocError> {
    let mut file = Vec::new(heap);
    file.extend_from_slice(b"SWL")?;
    file.extend_from_slice(&[0, 1, kind, pins, first])?;
    push_count(&mut file, count)?;
    Ok(file)
}

// The lowest two bytes, the highest first.
fn push_count(file: &mut Vec<u8>, count: usize) -> Result<(), AllocError> {
    file.extend_from_slice(&count.to_be_bytes()[6..])
}

// The lowest three bytes, the highest first.
fn push_address(file: &mut Vec<u8>, address: u32) -> Result<(), AllocError> {
    file.extend_from_slice(&address.to_be_bytes()[1..])
}
