ghost use Rattle.std.specs.Prelude.{◌≡◌};
ghost use Rattle.trees.specs.Records.{blank};

use sources::block::Block;

// What stands for a block: its code where all its addresses have one, or the index of its record where it is mixed.
// By index, since records stand in a table that the caller lends, and no heap may hold them.
#[derive(Clone, Copy)]
pub enum Half {
    Code(u16),
    Split(usize),
}

// A mixed block with its two halves.
#[derive(Clone, Copy)]
pub struct Record {
    pub block: Block,
    pub low: Half,
    pub high: Half,
}

impl Record {
    // The record of all zeros, for a table before its first build.
    pub fn blank() -> Record
        ensures { result ≡ blank }
    {
        Record {
            block: Block::whole(),
            low: Half::Code(0),
            high: Half::Code(0),
        }
    }
}

// A tree of `len` records at the start of a table, with what stands for the block of all addresses.
#[derive(Clone, Copy)]
pub struct Tree {
    pub pins: u32,
    pub root: Half,
    pub len: usize,
}
