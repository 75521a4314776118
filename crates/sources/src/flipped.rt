ghost use Rattle.std.specs.Prelude.{◌≡◌, ◌≤◌, Some, None, MatchResult};
ghost use Rattle.sources.specs.Layers.{flipped};
ghost use Rattle.sources.specs.Grounds.{flip_fault};
ghost use Rattle.sources.specs.Steps.{turned};

use crate::block::Block;
use crate::source::{Answer, Source};
use faults::fault::{Fault, Ground};

// Inverted pins: an address has the end that it has below with the pins of the mask turned over.
#[derive(Drop)]
pub struct Flipped<S> {
    below: S,
    mask: u32,
}

impl<S: Source + Drop> Flipped<S> {
    // Refuses a mask with a bit that is no pin's.
    pub fn new(below: S, mask: u32) -> Result<Flipped<S>, Fault>
        ensures { MatchResult result (λ s. (flip_fault (S.Source.width below) mask ≡ None) × (s.below ≡ below) × (s.mask ≡ mask)) (λ f. flip_fault (S.Source.width below) mask ≡ Some f) }
    {
        if mask >= 1 << below.pins() {
            return Err(Ground::SourceLayer.at(mask as usize));
        }
        Ok(Flipped { below, mask })
    }
}

// The block that has the addresses of a block with the pins of the mask turned over.
// That there are at most 20 pins is a law of each source, and so a premise here; as a type it would stand in the public
// trait.
fn turned_block(pins: u32, mask: u32, block: Block) -> Block
    requires { (pins ≤ 20) × (block.level ≤ pins) }
    ensures { (result.level ≡ block.level) × (result.number ≡ turned pins mask block.level block.number) }
{
    let top = (mask >> (pins - block.level)) % (1 << block.level);
    Block {
        number: block.number ^ top,
        ..block
    }
}

impl<S: Source> Source for Flipped<S> {
    type Of = S::Of;

    ghost width = { λ s. S.Source.width s.below };

    ghost selection = { λ s. flipped (S.Source.width s.below) s.mask (S.Source.selection s.below) };

    ghost some = { λ s. S.Source.some s.below };

    ghost few = { λ s. S.Source.few s.below };

    fn pins(&self) -> u32 {
        self.below.pins()
    }

    fn ask(&self, block: Block) -> Answer<S::Of> {
        let pins = self.below.pins();
        if !block.is_in(pins) {
            return Answer::Outside;
        }
        self.below.ask(turned_block(pins, self.mask, block))
    }
}
