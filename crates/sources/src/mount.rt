ghost use Rattle.std.specs.Prelude.{◌≡◌, Some, None, MatchResult};
ghost use Rattle.sources.specs.Layers.{mounted};
ghost use Rattle.sources.specs.Grounds.{mount_fault};
ghost use Rattle.sources.specs.Steps.{with_fill};

use crate::block::Block;
use crate::mounted::Mounted;
use crate::overlap::{Overlap, overlap_of};
use crate::source::{Answer, MOST_PINS, Source};
use ends::end::End;
use faults::fault::{Fault, Ground};

impl<S: Source + Drop> Mounted<S> {
    // Refuses more than 20 pins, or fewer than the source has; then a base past the last place for the source.
    pub fn new(below: S, pins: u32, base: u32, fill: S::Of) -> Result<Mounted<S>, Fault>
        ensures { MatchResult result (λ s. (mount_fault pins (S.Source.width below) base ≡ None) × (s.below ≡ below) × (s.pins ≡ pins) × (s.base ≡ base) × (s.fill ≡ fill)) (λ f. mount_fault pins (S.Source.width below) base ≡ Some f) }
    {
        let own = below.pins();
        if own > pins || pins > MOST_PINS {
            return Err(Ground::SourceLayer.at(pins as usize));
        }
        if base >= 1 << (pins - own) {
            return Err(Ground::SourceLayer.at(base as usize));
        }
        Ok(Mounted {
            below,
            pins,
            base,
            fill,
        })
    }
}

// The answer for addresses that have this answer, and some others that have the fill end.
fn with_fill<E: End>(answer: Answer<E>, fill: E) -> Answer<E>
    ensures { result ≡ with_fill E.End.code answer fill }
{
    match &answer {
        Answer::All(end) if end.encode() != fill.encode() => Answer::Mixed,
        _ => answer,
    }
}

impl<S: Source> Source for Mounted<S> {
    type Of = S::Of;

    ghost width = { λ s. s.pins };

    ghost selection = { λ s. mounted s.pins (S.Source.width s.below) s.base s.fill (S.Source.selection s.below) };

    ghost some = { λ s. s.some };

    ghost few = { λ s. s.few };

    fn pins(&self) -> u32 {
        self.pins
    }

    fn ask(&self, block: Block) -> Answer<S::Of> {
        if !block.is_in(self.pins) {
            return Answer::Outside;
        }
        match overlap_of(self.pins, self.below.pins(), self.base, block) {
            Overlap::Apart => Answer::All(self.fill),
            Overlap::Within(block) => self.below.ask(block),
            Overlap::Around => with_fill(self.below.ask(Block::whole()), self.fill),
        }
    }
}
