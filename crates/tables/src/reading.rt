ghost use Rattle.std.specs.Prelude.{◌≡◌, ℕ, ◌<◌, ◌≤◌, length, Decides};
ghost use Rattle.model.specs.Diagrams.{listed, next, walk, code};
ghost use Rattle.model.specs.Lists.{In};
ghost use Rattle.model.specs.declared.Branch.TheVariants.{End as end};
ghost use Rattle.model.specs.Selections.{pin};
ghost use Rattle.tables.specs.Reads.{place_of};

use model::{Branch, MOST_PINS, Node};

// The node of that number: blank past the end of the table.
pub fn node_at(nodes: &[Node], i: u16) -> Node
    ensures { result ≡ listed nodes.now i }
{
    nodes.get(usize::from(i)).copied().unwrap_or(Node::blank())
}

// The place of a branch's node; an end stands past all pins.
pub fn place_of(nodes: &[Node], pins: u8, branch: Branch) -> u8
    ensures { result ≡ place_of (listed nodes.now) pins branch }
{
    match branch {
        Branch::End(_) => pins,
        Branch::Node(i) => node_at(nodes, i).place,
    }
}

// Where the pin at a place, low or high, leads from a branch.
pub fn step(nodes: &[Node], place: u8, high: bool, branch: Branch) -> Branch
    ensures { result ≡ next (listed nodes.now) place high branch }
{
    match branch {
        Branch::End(_) => branch,
        Branch::Node(i) => {
            let node = node_at(nodes, i);
            if node.place == place {
                node.side(high)
            } else {
                branch
            }
        }
    }
}

// Whether a branch is an end.
pub fn is_end(branch: Branch) -> bool
    ensures { Decides result (branch ≡ end (code branch)) }
{
    matches!(branch, Branch::End(_))
}

// The code of an end; 0 for a node.
pub fn code_of(branch: Branch) -> u16
    ensures { result ≡ code branch }
{
    match branch {
        Branch::End(c) => c,
        Branch::Node(_) => 0,
    }
}

// Whether a pin is high in an address; pin 0 is the top bit.
fn is_high(pins: usize, p: u8, address: u32) -> bool
    ensures { pins ≤ 32 → p < pins → result ≡ pin pins address p }
{
    pins <= 32 && usize::from(p) < pins && (address >> (pins - 1 - usize::from(p))) % 2 == 1
}

// The code at which an address ends, read from a root along the order; 0 for an order longer than any plan's.
// The order is the caller's slice, and any other is read without harm: a type for it would ask more of callers.
pub fn read(nodes: &[Node], order: &[u8], root: Branch, address: u32) -> u16
    ensures { length order.now ≤ 20 → ((p : ℕ) → In p order.now → p < length order.now) → result ≡ walk (length order.now) (listed nodes.now) order.now 0 root address }
{
    let pins = order.len();
    if pins > MOST_PINS {
        return 0;
    }
    let mut branch = root;
    for (place, pin) in order.iter().enumerate() {
        let high = is_high(pins, *pin, address);
        branch = step(nodes, place as u8, high, branch);
    }
    code_of(branch)
}
