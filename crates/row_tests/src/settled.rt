// A row of this crate's own, settled by the law.
ghost use Rattle.std.specs.Prelude.{◌≡◌, Ok};

use crate::dawn::Dawn;
use crate::lamp::Brighter;
use faults::fault::Fault;
use model::Node;
use rows::after::after_row;
use rows::calls::{Draw, Erase, Join, Strap};
use rows::hand::Hand;
use rows::lent::Tables;
use trees::tree::Record;

const WHOLE: Hand = Hand {
    nodes: 8,
    records: 4,
    work: 120,
};

// Lamps 0 0 1 2 on line 0, and 1 2 1 2 on line 1; an erasure with a node too few is refused, and so is a join onto line 1.
pub fn lamps_settle() -> Result<u16, Fault>
    ensures { result ≡ Ok 2 }
{
    let draw = Draw {
        source: Dawn,
        line: 0,
        hand: WHOLE,
    };
    let strap = Strap {
        from: 0,
        pin: 0,
        high: true,
        line: 1,
        hand: WHOLE,
    };
    let erase = Erase {
        line: 0,
        hand: Hand { nodes: 7, ..WHOLE },
    };
    let join = Join {
        joining: Brighter,
        left: 0,
        right: 1,
        line: 1,
        hand: WHOLE,
    };
    let row = ((draw, strap), (erase, join));
    let outcome = after_row(
        &row,
        &[0, 1],
        &mut Tables {
            nodes: &mut [Node::blank(); 8],
            records: &mut [Record::blank(); 4],
            work: &mut [0; 120],
        },
    )?;
    Ok(outcome.used)
}
