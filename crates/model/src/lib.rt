#![tactic(auto)]

ghost use Rattle.std.specs.Prelude.{◌≡◌};
ghost use Rattle.model.specs.Diagrams.{blank, side};

pub mod theorems;

// An order has at most so many pins.
pub const MOST_PINS: usize = 20;

// Where a diagram goes on: at an end, by its code, or at a node, by its number.
// By number, since nodes stand in a table that the caller lends, and no heap may hold them.
#[derive(Clone, Copy, PartialEq, Eq, Drop, Debug)]
pub enum Branch {
    End(u16),
    Node(u16),
}

// A node asks the pin at its place in the order.
#[derive(Clone, Copy, PartialEq, Eq, Drop, Debug)]
pub struct Node {
    pub place: u8,
    pub low: Branch,
    pub high: Branch,
}

impl Node {
    // The node of all zeros, which is read past the end of a table.
    pub fn blank() -> Node
        ensures { result ≡ blank }
    {
        Node {
            place: 0,
            low: Branch::End(0),
            high: Branch::End(0),
        }
    }

    // The branch for the node's pin low or high.
    pub fn side(self, high: bool) -> Branch
        ensures { result ≡ side high self }
    {
        if high { self.high } else { self.low }
    }
}
