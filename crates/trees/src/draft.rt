ghost use Rattle.std.specs.Prelude.{◌≡◌, ◌≤◌, length};

use crate::tree::{Half, Record};
use faults::fault::{Fault, Ground};
use sources::block::Block;

impl Record {
    ghost use Rattle.trees.specs.Growth.{fresh};

    // A block whose halves are not yet known.
    pub(crate) fn undivided(block: Block) -> Record
        ensures { result ≡ fresh block.level block.number }
    {
        Record {
            block,
            low: Half::Code(0),
            high: Half::Code(0),
        }
    }
}

// The records of a tree while it grows: the first `len` of a lent table.
// No `Row` of listings: that passes over what has no room and promises nothing then, where this refuses and says so.
#[derive(Drop)]
pub(crate) struct Draft<'a> {
    pub(crate) table: &'a mut [Record],
    pub(crate) len: usize,
    ghost inside: { len ≤ length table.now },
}

impl<'a> Draft<'a> {
    ghost use Rattle.trees.specs.Growth.{Keeps, Opens};

    // A new record for a block.
    pub(crate) fn open(&mut self, block: Block) -> Result<Half, Fault>
        ensures keeps { Keeps self.old self.new }
        ensures opened { Opens block.level block.number self.old.table.now self.old.len self.new.table.now self.new.len result }
    {
        if self.len >= self.table.len() {
            return Err(Ground::TreeTable.at(self.table.len()));
        }
        let half = Half::Split(self.len);
        self.table[self.len] = Record::undivided(block);
        self.len += 1;
        Ok(half)
    }
}
