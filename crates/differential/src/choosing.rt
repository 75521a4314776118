// Calls by chance, most of them such that they go through.
use crate::call::Call;
use crate::chance::Chance;
use crate::drawing::Drawing;
use crate::plain::Plain;
use crate::sketching::sketch;
use crate::truth::addresses;
use rows::hand::Hand;
use scripts::request::How;
use std::alloc::{AllocError, Global};

// So many lines are taken and emptied most of the time.
const POOL: u8 = 10;

const HOWS: [How; 4] = [How::Both, How::Either, How::Differ, How::Overlay];

// The lines of the pool, spread over all lines; 0 and 31 are among them.
fn pool_line(at: u8) -> u8 {
    at.wrapping_mul(7) % 32
}

// The first line of the pool from here on that is held, or is not.
fn next_line(plain: &Plain, start: u8, held: bool) -> u8 {
    for step in 0..POOL {
        let line = pool_line(start.wrapping_add(step) % POOL);
        if plain.line(line).is_some() == held {
            return line;
        }
    }
    pool_line(start)
}

// Whether every line of the pool is held.
fn is_full(plain: &Plain) -> bool {
    plain.line(next_line(plain, 0, false)).is_some()
}

// A line that is held, or one that is empty; or a bad one.
fn choose_line(chance: &mut Chance, plain: &Plain, held: bool) -> u8 {
    let start = chance.byte_below(POOL);
    if !chance.slips() {
        return next_line(plain, start, held);
    }
    match chance.below(6) {
        0..=2 => next_line(plain, start, !held),
        3 => chance.byte_below(32),
        _ => chance.byte_below(224).saturating_add(32),
    }
}

fn choose_pin(chance: &mut Chance, pins: u8) -> u8 {
    let pin = chance.byte_below(pins);
    if chance.slips() {
        pin.saturating_add(pins)
    } else {
        pin
    }
}

fn choose_address(chance: &mut Chance, pins: usize) -> u32 {
    let top = u32::try_from(addresses(pins)).unwrap_or(u32::MAX);
    let address = chance.below(top);
    if chance.slips() {
        chance.pick(&[top, top.saturating_add(address), u32::MAX], top)
    } else {
        address
    }
}

fn draw(heap: Global, chance: &mut Chance, plain: &Plain, pins: u8) -> Result<Call, AllocError> {
    Ok(Call::Draw {
        drawing: sketch(heap, chance, pins)?,
        line: choose_line(chance, plain, false),
    })
}

fn is_of_bits(plain: &Plain, line: u8) -> bool {
    match plain.line(line) {
        Some(held) => held.truth.is_taken_by(How::Both),
        None => true,
    }
}

// Any joining of two lines of bits; and overlay, most often, of others.
fn choose_how(chance: &mut Chance, plain: &Plain, left: u8, right: u8) -> How {
    let bits = is_of_bits(plain, left) && is_of_bits(plain, right);
    if bits || chance.one_in(4) {
        chance.pick(&HOWS, How::Both)
    } else {
        How::Overlay
    }
}

fn join(chance: &mut Chance, plain: &Plain) -> Call {
    let left = choose_line(chance, plain, true);
    let right = choose_line(chance, plain, true);
    Call::Join {
        how: choose_how(chance, plain, left, right),
        left,
        right,
        line: choose_line(chance, plain, false),
    }
}

fn strap(chance: &mut Chance, plain: &Plain, pins: u8) -> Call {
    Call::Strap {
        from: choose_line(chance, plain, true),
        pin: choose_pin(chance, pins),
        high: chance.one_in(2),
        line: choose_line(chance, plain, false),
    }
}

fn erase(chance: &mut Chance, plain: &Plain) -> Call {
    Call::Erase {
        line: choose_line(chance, plain, true),
    }
}

pub fn choose_call(heap: Global, chance: &mut Chance, plain: &Plain) -> Result<Call, AllocError> {
    let pins = u8::try_from(plain.pins()).unwrap_or(0);
    if is_full(plain) && !chance.one_in(4) {
        return Ok(erase(chance, plain));
    }
    Ok(match chance.below(20) {
        0..=5 => draw(heap, chance, plain, pins)?,
        6..=10 => join(chance, plain),
        11..=13 => strap(chance, plain, pins),
        14 | 15 => erase(chance, plain),
        16 => Call::Read {
            line: choose_line(chance, plain, true),
            address: choose_address(chance, plain.pins()),
        },
        17 | 18 => Call::Same {
            left: choose_line(chance, plain, true),
            right: choose_line(chance, plain, true),
        },
        _ => Call::Count {
            line: choose_line(chance, plain, true),
        },
    })
}

// The tree records that a drawing needs, where it suits the plan.
fn needed_records(heap: Global, plain: &Plain, drawing: &Drawing) -> Result<usize, AllocError> {
    let pins = drawing.source_pins() as usize;
    if drawing.layer_fault().is_some() || pins != plain.pins() {
        return Ok(16);
    }
    Ok(drawing.truth(heap)?.mixed_blocks(pins))
}

fn choose_records(chance: &mut Chance, needed: usize) -> usize {
    if chance.slips() {
        let short = chance.place_below(needed);
        chance.pick(&[needed.saturating_sub(1), short, 0], 0)
    } else {
        needed.saturating_add(chance.pick(&[0, 0, 1, 40], 0))
    }
}

fn choose_nodes(chance: &mut Chance, size: usize) -> usize {
    if chance.slips() {
        let others = [size.saturating_sub(1), size.saturating_add(1), 0];
        chance.pick(&others, 0)
    } else {
        size
    }
}

fn choose_work(chance: &mut Chance, least: usize) -> usize {
    if chance.slips() {
        let short = chance.place_below(least);
        chance.pick(&[least.saturating_sub(1), short, 0], 0)
    } else {
        least.saturating_add(chance.pick(&[0, 0, 1], 0))
    }
}

// What is lent to a call that needs so many tree records.
pub fn choose_lent(chance: &mut Chance, plain: &Plain, needed: usize) -> Hand {
    Hand {
        nodes: choose_nodes(chance, plain.size),
        records: choose_records(chance, needed),
        work: choose_work(chance, plain.work()),
    }
}

pub fn choose_lent_to(
    heap: Global,
    chance: &mut Chance,
    plain: &Plain,
    call: &Call,
) -> Result<Hand, AllocError> {
    let needed = match call {
        Call::Draw { drawing, .. } => needed_records(heap, plain, drawing)?,
        _ => 0,
    };
    Ok(choose_lent(chance, plain, needed))
}

// A line and an address for a reading.
pub fn choose_reading(chance: &mut Chance, plain: &Plain) -> (u8, u32) {
    (
        choose_line(chance, plain, true),
        choose_address(chance, plain.pins()),
    )
}

// Room for a listing of this length.
pub fn choose_room(chance: &mut Chance, length: usize) -> usize {
    if chance.slips() {
        let short = chance.place_below(length);
        chance.pick(&[length.saturating_sub(1), short, 0], 0)
    } else {
        length.saturating_add(chance.pick(&[0, 1, 5], 0))
    }
}
