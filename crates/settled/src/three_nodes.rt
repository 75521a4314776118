ghost use Rattle.settled.specs.Three.{Settles};

use crate::outcome::Outcome;
use crate::third_line::third_line_settles;
use faults::fault::Fault;

// With three nodes and the pins in their order: switches 1 3 on line 0 and 1 2 3 on line 1 use three nodes;
// switch 2 on line 2 is refused; once line 0 is erased it is drawn, and two nodes are used.
pub fn three_nodes_settle() -> Result<Outcome, Fault>
    ensures { Settles result }
{
    let told = third_line_settles()?;
    told.erased?;
    told.drawn_then?;
    Ok(Outcome {
        used: told.used,
        refusal: told.drawn.err(),
        used_then: told.used_then,
    })
}
