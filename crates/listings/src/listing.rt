ghost use Rattle.std.specs.Prelude.{◌≡◌, ◌+◌, ◌*◌, ◌≤◌, length, Some, None, MatchResult};
ghost use Rattle.listings.specs.Lists.{size_refusal, ListsLines};

use crate::numbers::{Numbering, number_nodes};
use crate::writing::{Pins, write_listing};
use faults::fault::{Fault, Ground};
use model::{MOST_PINS, Node};
use tables::indexing::MOST_NODES;
use tables::line::Line;

// Refuses pins, nodes or work of a number with which no listing is made.
fn check_sizes(pins: usize, nodes: usize, work: usize) -> Result<(), Fault>
    ensures { MatchResult result (λ u. (size_refusal pins nodes work ≡ None) × (pins ≤ 20)) (λ f. size_refusal pins nodes work ≡ Some f) }
{
    if pins > MOST_PINS {
        return Err(Ground::OrderLength.at(pins));
    }
    if nodes > MOST_NODES {
        return Err(Ground::NodeTable.at(nodes));
    }
    if work < 4 * nodes {
        return Err(Ground::Work.at(work));
    }
    Ok(())
}

// How long a listing of 32 lines is.
fn listing_length(pins: Pins, numbering: Numbering) -> usize
    ensures { result ≡ 104 + length pins.entry.order.now + 7 * length numbering.entry.order.now }
{
    104 + pins.order.len() + 7 * numbering.order.len()
}

// Writes the listing of 32 lines at the front of a buffer, and tells its length. Refused are, in this order, more than
// 20 pins, more than 4,096 nodes, work of fewer than 4 numbers a node, and a buffer shorter than the listing; the buffer
// then stays as it was.
pub fn list_lines(
    nodes: &[Node],
    work: &mut [u32],
    pins: &[u8],
    lines: &[Line; 32],
    buffer: &mut [u8],
) -> Result<usize, Fault>
    ensures { ListsLines nodes.now (length work.old) pins.now lines.now buffer.old result buffer.new }
{
    let pin_count = pins.len();
    check_sizes(pin_count, nodes.len(), work.len())?;
    let pins = Pins { order: pins };
    let numbering = number_nodes(nodes, work, pin_count as u8, lines);
    let needed = listing_length(pins, numbering);
    if buffer.len() < needed {
        return Err(Ground::Buffer.at(needed));
    }
    write_listing(&mut buffer[..needed], pins, nodes, numbering, lines);
    Ok(needed)
}
