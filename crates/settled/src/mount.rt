ghost use Rattle.std.specs.Prelude.{◌≡◌, false, None};
ghost use Rattle.ends.specs.Codes.{bit_code};
ghost use Rattle.sources.specs.Grounds.{mount_fault};
ghost use Rattle.sources.specs.Layers.{mounted};
ghost use Rattle.trees.specs.Mixed.{codes};
ghost use Rattle.settled.specs.Examples.{MountSettles};
ghost use Rattle.settled.specs.Readings.{ReadsFour};

use crate::four_reads::read_each;
use crate::memory::Memory;
use crate::samples::SINGLE;
use ends::end::End;
use faults::fault::Fault;
use plans::open::OpenPlan;
use readers::bit_file::BitFile;
use sources::mounted::Mounted;
use sources::source::Source;

// The codes of a source of two pins, drawn on a new plan and read at each address.
fn read_four<S: Source>(source: &S) -> Result<[Result<u16, Fault>; 4], Fault>
    ensures { ReadsFour (S.Source.width source.now) (codes S.Of.End.code (S.Source.selection source.now)) result }
{
    let mut memory = Memory::blank();
    let memory = &mut memory;
    let mut plan = OpenPlan::new(&[0, 1], &memory.nodes)?;
    plan.draw(
        source,
        0,
        &mut memory.nodes,
        &mut memory.records,
        &mut memory.work,
    )?;
    Ok(read_each(&plan, &memory.nodes, 0))
}

// A source mounted in 2 pins at base 1 with fill 0.
fn read_mounted<S: Source<Of = bool> + Drop>(one: S) -> Result<[Result<u16, Fault>; 4], Fault>
    ensures { mount_fault 2 (S.Source.width one) 1 ≡ None → ReadsFour 2 (codes bit_code (mounted 2 (S.Source.width one) 1 false (S.Source.selection one))) result }
{
    let two = Mounted::new(one, 2, 1, false)?;
    read_four(&two)
}

// One pin with switch 1, mounted so, is drawn and read at each address.
pub fn mount_settles() -> Result<[Result<u16, Fault>; 4], Fault>
    ensures { MountSettles result }
{
    read_mounted(BitFile::read(SINGLE)?)
}
