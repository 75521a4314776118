ghost use Rattle.settled.specs.Examples.{Settle, ThreeNodesSettle};

use crate::memory::Memory;
use crate::outcomes::ThreeNodes;
use crate::samples::HALVED;
use crate::two_lines::{draw_file, draw_two};
use faults::fault::Fault;

// A third map is drawn on line 2 beside two lines, and once more after line 0 was erased.
pub fn third_line_settles() -> Result<ThreeNodes, Fault>
    ensures { Settle ThreeNodesSettle result }
{
    let mut memory = Memory::blank();
    let memory = &mut memory;
    let mut plan = draw_two(memory)?;
    let used = plan.used();
    let drawn = draw_file(&mut plan, HALVED, 2, memory);
    let erased = plan.erase(&mut memory.nodes, &mut memory.work, 0);
    let drawn_then = draw_file(&mut plan, HALVED, 2, memory);
    let used_then = plan.used();
    Ok(ThreeNodes {
        used,
        drawn,
        erased,
        drawn_then,
        used_then,
    })
}
