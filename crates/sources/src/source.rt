ghost use Rattle.std.specs.Prelude.{◌≡◌, ℕ, ◌≤◌};
ghost use Rattle.sources.specs.Blocks.{Says};
ghost use Rattle.sources.specs.Mapping.{Mapped, OnAll};

use crate::block::Block;
use ends::end::End;

// What a source answers of a block: each address has the end, two addresses differ, or there is no such block.
#[derive(Clone, Copy, PartialEq, Eq, Debug)]
pub enum Answer<E> {
    All(E),
    Mixed,
    Outside,
}

impl<E> Answer<E> {
    // The answer once each end is changed.
    pub fn map<T, F: FnOnce(E) -> T>(self, change: F) -> Answer<T>
        requires { OnAll self (F.pre change) }
        ensures { Mapped (F.post change) self result }
    {
        match self {
            Answer::All(end) => Answer::All(change(end)),
            Answer::Mixed => Answer::Mixed,
            Answer::Outside => Answer::Outside,
        }
    }
}

// No source has more pins.
pub const MOST_PINS: u32 = 20;

// A source means a pin count, 1 to 20, and an end for each address.
pub trait Source {
    type Of: End;

    ghost width: { Self → ℕ };

    ghost selection: { Self → ℕ → Self.Of };

    // What each source proves of its pin count.
    ghost some: { (s : Self) → 1 ≤ width s };

    ghost few: { (s : Self) → width s ≤ 20 };

    fn pins(&self) -> u32
        ensures { result ≡ width self.now };

    // What is true of a block.
    fn ask(&self, block: Block) -> Answer<Self::Of>
        ensures { Says (width self.now) (selection self.now) block.level block.number result };
}
