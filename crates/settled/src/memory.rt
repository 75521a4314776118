ghost use Rattle.std.specs.Prelude.{◌≡◌, length};

use model::Node;
use trees::tree::Record;

// The tables of a plan of two pins and three nodes. Callers lend its fields through one `&mut` of it, and by `&mut` even to be
// read: two fields of a variable are not covered, nor a `&` beside a `&mut`.
#[derive(Clone, Copy)]
pub(crate) struct Memory {
    pub(crate) nodes: [Node; 3],
    pub(crate) records: [Record; 3],
    pub(crate) work: [u32; 60],
    ghost stocked: { length nodes ≡ 3 },
    ghost recorded: { length records ≡ 3 },
    ghost roomy: { length work ≡ 60 },
}

impl Memory {
    pub(crate) fn blank() -> Memory {
        Memory {
            nodes: [Node::blank(); 3],
            records: [Record::blank(); 3],
            work: [0; 60],
        }
    }
}
