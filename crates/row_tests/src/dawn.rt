ghost use Rattle.std.proofs.Common.{lit≤};
ghost use Rattle.row_tests.specs.Lamps.{dawn};

use crate::lamp::Lamp;
use sources::block::Block;
use sources::source::{Answer, Source};

// Two pins: off, off, dim, bright.
#[derive(Clone, Copy)]
pub struct Dawn;

impl Source for Dawn {
    type Of = Lamp;

    ghost width = { λ _. 2 };

    ghost selection = { λ _. dawn };

    ghost some = { λ _. lit≤ tt };

    ghost few = { λ _. lit≤ tt };

    fn pins(&self) -> u32 {
        2
    }

    fn ask(&self, block: Block) -> Answer<Lamp> {
        match (block.level, block.number) {
            (0, 0) => Answer::Mixed,
            (1, 0) => Answer::All(Lamp::Off),
            (1, 1) => Answer::Mixed,
            (2, 0) => Answer::All(Lamp::Off),
            (2, 1) => Answer::All(Lamp::Off),
            (2, 2) => Answer::All(Lamp::Dim),
            (2, 3) => Answer::All(Lamp::Bright),
            _ => Answer::Outside,
        }
    }
}
