ghost use Rattle.std.specs.Prelude.{◌≡◌, ◌≤◌, length};
ghost use Rattle.listings.specs.Rows.{filled, room, KeepsLoan};
ghost use Rattle.listings.specs.Numbers.{NumbersFrom, Inverts, Numbers};

use crate::fronts::{Level, meet_lines};
use crate::row::Row;
use model::Node;
use std::mem::swap;
use tables::indexing::MOST_NODES;
use tables::line::Line;

// The nodes that lines reach in the order of a listing, and the number of each node.
#[derive(Clone, Copy)]
pub(crate) struct Numbering<'a> {
    pub(crate) order: &'a [u32],
    pub(crate) numbers: &'a [u32],
    ghost few: { length order.now ≤ 4096 },
}

// Numbers what is reached from a front, place by place. The two rows change parts from place to place.
fn number_from<'a>(
    nodes: &[Node],
    front: &mut Row<'a, u32>,
    ahead: &mut Row<'a, u32>,
    seen: &mut [u32],
    order: &mut Row<u32>,
    pins: u8,
)
    ensures loan { KeepsLoan order.old order.new }
    ensures numbers { room ahead.old ≡ room front.old → length seen.old ≡ room front.old → NumbersFrom pins nodes.now 0 (filled front.old) (room front.old) (room order.old) (filled order.old) (filled order.new) }
{
    for place in 0..pins {
        let level = Level { nodes, place };
        let here = front.filled();
        level.pick_all(here, order);
        level.advance(here, ahead, seen);
        swap(front, ahead);
    }
}

// Writes the index of each node of a list at the node's own entry.
fn invert(order: &[u32], numbers: &mut [u32])
    requires { length order.now ≤ 4096 }
    ensures { Inverts order.now numbers.old numbers.new }
{
    for (k, entry) in order.iter().enumerate() {
        let i = *entry as usize;
        if i < numbers.len() {
            numbers[i] = k as u32;
        }
    }
}

// Numbers the nodes that lines reach, in parts of the work; none where the table is too long or the work too short.
pub(crate) fn number_nodes<'a>(
    nodes: &[Node],
    work: &'a mut [u32],
    pins: u8,
    lines: &[Line],
) -> Numbering<'a>
    ensures { Numbers pins nodes.now work.old lines.now result.order.now result.numbers.now }
{
    let len = nodes.len();
    if len > MOST_NODES || work.len() < 4 * len {
        return Numbering {
            order: &[],
            numbers: &[],
        };
    }
    let (order, rest) = work.split_at_mut(len);
    let (numbers, rest) = rest.split_at_mut(len);
    let (front, rest) = rest.split_at_mut(len);
    let (ahead, _) = rest.split_at_mut(len);
    let mut order = Row::over(order);
    let mut front = Row::over(front);
    let mut ahead = Row::over(ahead);
    meet_lines(&mut front, numbers, lines);
    number_from(nodes, &mut front, &mut ahead, numbers, &mut order, pins);
    let order = order.into_filled();
    invert(order, numbers);
    Numbering { order, numbers }
}
