ghost use Rattle.std.specs.Prelude.{MatchResult};
ghost use Rattle.plans.specs.Holding.{Did, Holds};
ghost use Rattle.settled.specs.Lines.{drawing, two_drawn};

use crate::memory::Memory;
use crate::samples::{ALTERNATING, DIFFERING};
use faults::fault::Fault;
use plans::open::OpenPlan;
use readers::bit_file::BitFile;

pub(crate) fn draw_file(
    plan: &mut OpenPlan,
    bytes: &[u8],
    line: u8,
    memory: &mut Memory,
) -> Result<(), Fault>
    ensures { Did plan.old.header memory.old.nodes (drawing line bytes.now) result plan.new.header memory.new.nodes }
{
    let map = BitFile::over(bytes);
    plan.draw(
        &map,
        line,
        &mut memory.nodes,
        &mut memory.records,
        &mut memory.work,
    )
}

// A plan of three nodes in address order, with switches 1 3 on line 0 and switches 1 2 3 on line 1.
pub(crate) fn draw_two(memory: &mut Memory) -> Result<OpenPlan, Fault>
    ensures { MatchResult result (λ plan. Holds plan.header memory.new.nodes two_drawn) (λ _. ⊥) }
{
    let mut plan = OpenPlan::new(&[0, 1], &memory.nodes)?;
    draw_file(&mut plan, DIFFERING, 0, memory)?;
    draw_file(&mut plan, ALTERNATING, 1, memory)?;
    Ok(plan)
}
