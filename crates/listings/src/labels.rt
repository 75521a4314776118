// Branches, nodes and lines under the numbers of a listing, and their bytes.
ghost use Rattle.std.specs.Prelude.{◌≡◌, length};
ghost use Rattle.model.specs.Lists.{each};
ghost use Rattle.model.specs.Listings.{two_bytes, reference, line_reference, node_bytes};
ghost use Rattle.listings.specs.Labels.{relabel, relabelled};

use crate::fronts::number_in;
use crate::numbers::Numbering;
use model::{Branch, Node};
use tables::line::Line;

impl<'a> Numbering<'a> {
    fn relabel_branch(self, branch: Branch) -> Branch
        ensures { result ≡ relabel self.entry.numbers.now branch }
    {
        match branch {
            Branch::End(_) => branch,
            Branch::Node(i) => {
                let number = self.numbers.get(usize::from(i)).copied().unwrap_or(0);
                Branch::Node(number_in(number))
            }
        }
    }

    pub(crate) fn relabel_node(self, node: Node) -> Node
        ensures { result ≡ relabelled self.entry.numbers.now node }
    {
        Node {
            place: node.place,
            low: self.relabel_branch(node.low),
            high: self.relabel_branch(node.high),
        }
    }

    // By `?`: of a `map` whose closure holds `self` the check does not learn enough.
    pub(crate) fn relabel_line(self, line: Line) -> Line
        ensures { result ≡ each (relabel self.entry.numbers.now) line }
    {
        Some(self.relabel_branch(line?))
    }

    // The used number in two bytes, the higher first.
    pub(crate) fn used_bytes(self) -> [u8; 2]
        ensures { result ≡ two_bytes (length self.entry.order.now) }
    {
        let used = self.order.len() as u16;
        used.to_be_bytes()
    }
}

// A reference: 0 and an end code, or 1 and a node number.
fn branch_bytes(branch: Branch) -> [u8; 3]
    ensures { result ≡ reference branch }
{
    let (kind, number) = match branch {
        Branch::End(c) => (0, c),
        Branch::Node(i) => (1, i),
    };
    let [high, low] = number.to_be_bytes();
    [kind, high, low]
}

pub(crate) fn line_bytes(line: Line) -> [u8; 3]
    ensures { result ≡ line_reference line }
{
    line.map_or([0xFF, 0, 0], branch_bytes)
}

// A node: its place, then its low and its high reference.
pub(crate) fn node_bytes(node: Node) -> [u8; 7]
    ensures { result ≡ node_bytes node }
{
    let [low, a, b] = branch_bytes(node.low);
    let [high, c, d] = branch_bytes(node.high);
    [node.place, low, a, b, high, c, d]
}
