ghost use Rattle.std.specs.Prelude.{◌≡◌, ◌-◌, ◌^◌, length, min};

use crate::lent::Tables;

// How much of each lent table a call is handed: at most so many from the front.
#[derive(Clone, Copy, Debug)]
pub struct Hand {
    pub nodes: usize,
    pub records: usize,
    pub work: usize,
}

impl Hand {
    // Everything.
    pub fn all() -> Hand
        ensures { result ≡ record { nodes = 2 ^ 64 - 1; records = 2 ^ 64 - 1; work = 2 ^ 64 - 1 } }
    {
        Hand {
            nodes: usize::MAX,
            records: usize::MAX,
            work: usize::MAX,
        }
    }

    // What it gives of these tables.
    pub(crate) fn within(self, tables: &Tables) -> Hand
        ensures nodes { result.nodes ≡ min self.nodes (length tables.now.nodes.now) }
        ensures records { result.records ≡ min self.records (length tables.now.records.now) }
        ensures work { result.work ≡ min self.work (length tables.now.work.now) }
    {
        Hand {
            nodes: self.nodes.min(tables.nodes.len()),
            records: self.records.min(tables.records.len()),
            work: self.work.min(tables.work.len()),
        }
    }
}
