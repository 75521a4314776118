ghost use Rattle.std.specs.Prelude.{◌≡◌};
ghost use Rattle.sources.specs.Layers.{inverted};

use crate::block::Block;
use crate::source::{Answer, Source};

// An inverted line: every end of the source below is the other bit.
#[derive(Drop)]
pub struct Inverted<S> {
    below: S,
}

impl<S: Source<Of = bool>> Inverted<S> {
    pub fn new(below: S) -> Inverted<S>
        ensures { result.below ≡ below }
    {
        Inverted { below }
    }
}

impl<S: Source<Of = bool>> Source for Inverted<S> {
    type Of = bool;

    ghost width = { λ s. S.Source.width s.below };

    ghost selection = { λ s. inverted (S.Source.selection s.below) };

    ghost some = { λ s. S.Source.some s.below };

    ghost few = { λ s. S.Source.few s.below };

    fn pins(&self) -> u32 {
        self.below.pins()
    }

    fn ask(&self, block: Block) -> Answer<bool> {
        self.below.ask(block).map(|end| !end)
    }
}
