ghost use Rattle.std.specs.Prelude.{◌≡◌, ◌≤◌, true, length, take};
ghost use Rattle.faults.specs.Refusals.{is_none};
ghost use Rattle.plans.specs.Orders.{misplaced_below};

use tables::line::Line;

// The number of nodes that are reached from the held lines. A record of its own, a form that the project asks for: it is to be lent by itself.
#[derive(Clone, Copy)]
pub struct Usage {
    pub used: u16,
}

// A plan without its node table: an order of pins, 32 lines, the length of the table, and the used number.
// The order is an array with the number of its pins, since a plan has no heap.
#[derive(Clone, Copy)]
pub struct Header {
    pub(crate) order: [u8; 20],
    pub(crate) pins: u8,
    pub(crate) lines: [Line; 32],
    pub(crate) size: usize,
    pub(crate) usage: Usage,
    ghost some: { 1 ≤ pins },
    ghost few: { pins ≤ 20 },
    ghost room: { length order ≡ 20 },
    ghost named: { is_none (misplaced_below (take pins order) pins) ≡ true },
    ghost lined: { length lines ≡ 32 },
    ghost stocked: { 1 ≤ size },
    ghost sized: { size ≤ 4096 },
}
