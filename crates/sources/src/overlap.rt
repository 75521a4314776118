ghost use Rattle.std.specs.Prelude.{◌≡◌, ◌≤◌};
ghost use Rattle.sources.specs.Steps.{overlap};

use crate::block::Block;

// How a block of a mount meets the source that is mounted.
#[derive(Clone, Copy)]
pub(crate) enum Overlap {
    // No address of the block is one of the source.
    Apart,
    // The block is this one of the source.
    Within(Block),
    // The block has all addresses of the source, and others.
    Around,
}

// How a block meets a source of `own` pins that stands in `pins` pins at `base`.
// That both are at most 20 is a law of each source; as a type it would stand in the public trait.
pub(crate) fn overlap_of(pins: u32, own: u32, base: u32, block: Block) -> Overlap
    requires { (pins ≤ 20) × ((own ≤ 20) × (block.level ≤ pins)) }
    ensures { result ≡ overlap pins own base block.level block.number }
{
    let Block { level, number } = block;
    if level + own < pins {
        if base >> (pins - own - level) == number {
            Overlap::Around
        } else {
            Overlap::Apart
        }
    } else {
        let level = level + own - pins;
        if number >> level == base {
            Overlap::Within(Block {
                level,
                number: number % (1 << level),
            })
        } else {
            Overlap::Apart
        }
    }
}
