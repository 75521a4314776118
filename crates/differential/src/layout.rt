// The listing of truth tables, to the byte.
use crate::parts::{Place, part_count, places};
use crate::plain::Plain;
use std::alloc::{AllocError, Global};

#[derive(Clone, Copy)]
enum Reference {
    Code(usize),
    Node(usize),
    Empty,
}

// The lowest byte.
fn byte(number: usize) -> u8 {
    (number & 0xFF) as u8
}

fn two_bytes(number: usize) -> [u8; 2] {
    [byte(number >> 8), byte(number)]
}

impl Reference {
    fn bytes(self) -> [u8; 3] {
        match self {
            Reference::Code(code) => [0, byte(code >> 8), byte(code)],
            Reference::Node(number) => [1, byte(number >> 8), byte(number)],
            Reference::Empty => [0xFF, 0, 0],
        }
    }
}

fn reference_at(references: &[Reference], name: usize) -> Reference {
    references.get(name).copied().unwrap_or(Reference::Empty)
}

// The names of the parts of a place in the order in which they are met: by line, then by the values of the fixed pins.
fn met_parts(heap: Global, place: &Place) -> Result<Vec<usize>, AllocError> {
    let mut open = place
        .halves
        .iter()
        .map(|halves| halves.is_part())
        .collect::<Vec<bool>>(heap)?;
    let mut met = Vec::new(heap);
    for name in &place.names {
        if let Some(unmet) = open.get_mut(*name) {
            if *unmet {
                met.push(*name)?;
            }
            *unmet = false;
        }
    }
    Ok(met)
}

// What stands for each chunk of a place, by name: a part by its number, any other chunk as one of its halves.
fn references(
    heap: Global,
    place: &Place,
    below: &[Reference],
    met: &[usize],
    first: usize,
) -> Result<Vec<Reference>, AllocError> {
    let mut references = place
        .halves
        .iter()
        .map(|halves| reference_at(below, halves.low))
        .collect::<Vec<Reference>>(heap)?;
    for (at, name) in met.iter().enumerate() {
        if let Some(reference) = references.get_mut(*name) {
            *reference = Reference::Node(first.saturating_add(at));
        }
    }
    Ok(references)
}

// The bytes of the nodes of a place.
fn node_rows(
    heap: Global,
    number: usize,
    place: &Place,
    below: &[Reference],
    met: &[usize],
) -> Result<Vec<u8>, AllocError> {
    let mut rows = Vec::new(heap);
    for name in met {
        if let Some(halves) = place.halves.get(*name) {
            rows.push(byte(number))?;
            rows.extend_from_slice(&reference_at(below, halves.low).bytes())?;
            rows.extend_from_slice(&reference_at(below, halves.high).bytes())?;
        }
    }
    Ok(rows)
}

fn code_references(heap: Global) -> Result<Vec<Reference>, AllocError> {
    (0..128).map(|code| Reference::Code(code)).collect(heap)
}

// The nodes of all places, and the references of the held lines.
fn nodes_and_roots(
    heap: Global,
    places: &[Place],
) -> Result<(Vec<u8>, Vec<Reference>), AllocError> {
    let mut below = code_references(heap)?;
    let mut rows = Vec::new(heap);
    let mut first = part_count(places);
    for (number, place) in places.iter().enumerate().rev() {
        let met = met_parts(heap, place)?;
        first = first.saturating_sub(met.len());
        rows.push(node_rows(heap, number, place, &below, &met)?)?;
        below = references(heap, place, &below, &met, first)?;
    }
    let mut nodes = Vec::new(heap);
    for row in rows.iter().rev() {
        nodes.extend_from_slice(row)?;
    }
    let mut roots = Vec::new(heap);
    if let Some(place) = places.first() {
        for name in &place.names {
            roots.push(reference_at(&below, *name))?;
        }
    }
    Ok((nodes, roots))
}

// The listing of a plan.
pub fn layout(heap: Global, plain: &Plain) -> Result<Vec<u8>, AllocError> {
    let places = places(heap, plain.pins(), &plain.ordered(heap)?)?;
    let (nodes, roots) = nodes_and_roots(heap, &places)?;
    let mut bytes = Vec::new(heap);
    bytes.extend_from_slice(b"LST")?;
    bytes.extend_from_slice(&[0, 1, byte(plain.pins())])?;
    bytes.extend_from_slice(plain.order)?;
    bytes.extend_from_slice(&two_bytes(part_count(&places)))?;
    bytes.extend_from_slice(&nodes)?;
    let mut roots = roots.iter();
    for line in 0..32 {
        let reference = match plain.line(line) {
            Some(_) => roots.next().copied().unwrap_or(Reference::Empty),
            None => Reference::Empty,
        };
        bytes.extend_from_slice(&reference.bytes())?;
    }
    Ok(bytes)
}
