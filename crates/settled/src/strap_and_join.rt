ghost use Rattle.settled.specs.Examples.{Settle, StrapAndJoinSettle};

use crate::four_reads::read_each;
use crate::memory::Memory;
use crate::outcomes::StrapAndJoin;
use crate::two_lines::draw_two;
use ends::joining::{Differ, Joining};
use faults::fault::Fault;

// Pin 0 of line 0 is strapped high onto line 2, and line 0 is joined with itself onto line 3.
pub fn strap_and_join_settle() -> Result<StrapAndJoin, Fault>
    ensures { Settle StrapAndJoinSettle result }
{
    let mut memory = Memory::blank();
    let memory = &mut memory;
    let mut plan = draw_two(memory)?;
    let strapped = plan.strap(0, 0, true, 2, &mut memory.nodes, &mut memory.work);
    let ends = read_each(&plan, &memory.nodes, 2);
    let used = plan.used();
    let joined = plan.join(&Differ, 0, 0, 3, &mut memory.nodes, &mut memory.work);
    let count = plan.count(&mut memory.nodes, &mut memory.work, 3);
    Ok(StrapAndJoin {
        strapped,
        ends,
        used,
        joined,
        count,
    })
}
