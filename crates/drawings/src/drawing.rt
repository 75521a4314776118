ghost use Rattle.std.specs.Prelude.{◌≡◌, ◌<◌, ◌≤◌};
ghost use Rattle.tables.specs.Additions.{KeepsLoans};
ghost use Rattle.drawings.specs.Fixed.{bit_of};
ghost use Rattle.drawings.specs.Draws.{DrawsIn, DrawsRoot};

use model::{Branch, MOST_PINS, Node};
use tables::adding::Growing;
use tables::line::Line;
use trees::read::FixedBits;
use trees::tree::{Record, Tree};

// The bit of a pin in an address; pin 0 is the top bit.
fn pin_bit(pins: usize, pin: u8) -> u32
    ensures { pins ≤ 20 → pin < pins → result ≡ bit_of pins pin }
{
    if pins > MOST_PINS || usize::from(pin) >= pins {
        return 0;
    }
    1 << (pins - 1 - usize::from(pin))
}

// A tree that is drawn in an order.
#[derive(Clone, Copy)]
pub struct Subject<'a> {
    pub tree: Tree,
    pub records: &'a [Record],
    pub order: &'a [u8],
}

// The pins before `place` in an order, as bits of an address, fixed.
#[derive(Clone, Copy)]
pub struct FixedPins {
    pub place: u8,
    pub bits: FixedBits,
}

// A branch for what a tree leaves where pins are fixed. None where no slot is left.
pub fn draw_tree(subject: Subject, growing: &mut Growing, fixed: FixedPins) -> Option<Branch>
    ensures loans { KeepsLoans growing.old growing.new }
    ensures draws { DrawsIn subject.entry.tree subject.entry.records.now subject.entry.order.now fixed growing.old growing.new result }
{
    if let Some(code) = subject.tree.code_left(subject.records, fixed.bits) {
        return Some(Branch::End(code));
    }
    let pins = subject.order.len();
    let FixedPins { place, bits } = fixed;
    // By `as`: with `usize::from` each answer that follows would have to rewrite by its equation.
    if pins > MOST_PINS || place as usize >= pins {
        return None;
    }
    let bit = pin_bit(pins, subject.order[place as usize]);
    let low = FixedBits {
        mask: bits.mask | bit,
        value: bits.value,
    };
    let high = FixedBits {
        value: bits.value | bit,
        ..low
    };
    let with_low = FixedPins {
        place: place + 1,
        bits: low,
    };
    let with_high = FixedPins {
        bits: high,
        ..with_low
    };
    let low = draw_tree(subject, growing, with_low)?;
    let high = draw_tree(subject, growing, with_high)?;
    growing.node_for(place, low, high)
}

// A root for what a tree means, beside what the held lines reach. None where no slot is left.
pub fn draw_root(
    subject: Subject,
    nodes: &mut [Node],
    work: &mut [u32],
    pins: u8,
    lines: &[Line],
) -> Option<Branch>
    ensures { DrawsRoot subject.entry.tree subject.entry.records.now subject.entry.order.now nodes.old work.old pins lines.now nodes.new result }
{
    let mut growing = Growing::prepare(nodes, work, pins, lines);
    let none = FixedPins {
        place: 0,
        bits: FixedBits { mask: 0, value: 0 },
    };
    draw_tree(subject, &mut growing, none)
}
