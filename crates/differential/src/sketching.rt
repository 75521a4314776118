// Maps and layers by chance.
use crate::chance::Chance;
use crate::drawing::{Drawing, Map, Mount};
use crate::truth::addresses;
use std::alloc::{AllocError, Global};

// Four codes each: such that joinings of bits take too, with ties for overlay, and of the highest numbers.
const PALETTES: [[u8; 4]; 7] = [
    [0, 1, 0, 1],
    [1, 8, 17, 25],
    [9, 17, 25, 33],
    [9, 17, 1, 0],
    [8, 16, 24, 8],
    [7, 15, 120, 127],
    [2, 3, 64, 63],
];

fn power(pins: u8) -> u32 {
    u32::try_from(addresses(usize::from(pins))).unwrap_or(u32::MAX)
}

// A few addresses from 1 on, below the top.
fn few(heap: Global, chance: &mut Chance, top: u32) -> Result<Vec<u32>, AllocError> {
    let mut chosen = Vec::new(heap);
    for _ in 0..chance.below(6) {
        chosen.push(chance.below(top.saturating_sub(1)).saturating_add(1))?;
    }
    chosen.sort_unstable();
    chosen.dedup();
    Ok(chosen)
}

// All multiples of a step.
fn even(heap: Global, step: u32, top: u32) -> Result<Vec<u32>, AllocError> {
    (1..top)
        .filter(|address| address.checked_rem(step) == Some(0))
        .collect(heap)
}

// Each address, or not, from 1 on.
fn dense(heap: Global, chance: &mut Chance, top: u32) -> Result<Vec<u32>, AllocError> {
    let mut chosen = Vec::new(heap);
    for address in 1..top {
        if chance.one_in(2) {
            chosen.push(address)?;
        }
    }
    Ok(chosen)
}

// Rising addresses from 1 on, as many as a file may have.
fn rising(heap: Global, chance: &mut Chance, pins: u8) -> Result<Vec<u32>, AllocError> {
    let top = power(pins);
    let mut chosen = match chance.below(10) {
        0 => dense(heap, chance, top)?,
        1 | 2 => {
            let step = power(chance.byte_below(pins));
            even(heap, step, top)?
        },
        _ => few(heap, chance, top)?,
    };
    chosen.truncate(1024);
    Ok(chosen)
}

fn settings(
    heap: Global,
    chance: &mut Chance,
    first: u8,
    palette: &[u8],
    addresses: &[u32],
) -> Result<Vec<(u32, u8)>, AllocError> {
    let mut switches = Vec::new(heap);
    let mut before = first;
    for address in addresses {
        let code = chance.pick(palette, first);
        if code != before {
            switches.push((*address, code))?;
        }
        before = code;
    }
    Ok(switches)
}

// Ranges from every other address to before the next one, all of them one lower or not; the last may reach the top.
fn ranges(
    heap: Global,
    chance: &mut Chance,
    top: u32,
    addresses: &[u32],
) -> Result<Vec<(u32, u32)>, AllocError> {
    let lower = chance.below(2);
    let mut ranges = Vec::new(heap);
    for pair in addresses.chunks(2) {
        let (first, behind) = match pair {
            [first, behind] => (*first, *behind),
            [first] => (*first, top),
            _ => continue,
        };
        let last = behind.saturating_sub(1);
        ranges.push((first.saturating_sub(lower), last.saturating_sub(lower)))?;
    }
    Ok(ranges)
}

fn sketch_map(
    heap: Global,
    chance: &mut Chance,
    pins: u8,
    palette: &[u8],
) -> Result<Map, AllocError> {
    let addresses = rising(heap, chance, pins)?;
    let inverted = chance.one_in(4);
    Ok(match chance.below(4) {
        0 => Map::Bits {
            first: chance.byte_below(2),
            switches: addresses,
            inverted,
        },
        1 | 2 => {
            let first = chance.pick(palette, 0);
            Map::Settings {
                first,
                switches: settings(heap, chance, first, palette, &addresses)?,
            }
        },
        _ => Map::Ranges {
            ranges: ranges(heap, chance, power(pins), &addresses)?,
            inverted,
        },
    })
}

// A number below the count, or a bad one.
fn within(chance: &mut Chance, count: u32) -> u32 {
    let number = chance.below(count);
    if chance.slips() {
        number.saturating_add(count)
    } else {
        number
    }
}

fn sketch_mask(chance: &mut Chance, pins: u8) -> Option<u32> {
    if chance.one_in(5) {
        Some(within(chance, power(pins)))
    } else {
        None
    }
}

fn sketch_mount(chance: &mut Chance, own: u8, pins: u8, palette: &[u8], map: &Map) -> Mount {
    let pins = if chance.slips() {
        chance.byte_below(24)
    } else {
        pins
    };
    let base = within(chance, power(pins.saturating_sub(own)));
    let fill = match map {
        Map::Settings { .. } => chance.pick(palette, 0),
        Map::Bits { .. } | Map::Ranges { .. } => chance.byte_below(2),
    };
    Mount {
        pins: u32::from(pins),
        base,
        fill,
    }
}

// A drawing that suits a plan of so many pins, most often.
pub fn sketch(heap: Global, chance: &mut Chance, pins: u8) -> Result<Drawing, AllocError> {
    let mounts = chance.one_in(4);
    let own = if chance.slips() {
        chance.byte_below(12).saturating_add(1)
    } else if mounts {
        chance.byte_below(pins).saturating_add(1)
    } else {
        pins
    };
    let palette = chance.pick(&PALETTES, [0, 1, 2, 3]);
    let map = sketch_map(heap, chance, own, &palette)?;
    let flipped = sketch_mask(chance, own);
    let mounted = if mounts {
        Some(sketch_mount(chance, own, pins, &palette, &map))
    } else {
        None
    };
    let turned = sketch_mask(chance, pins);
    Ok(Drawing {
        pins: own,
        map,
        flipped,
        mounted,
        turned,
    })
}
