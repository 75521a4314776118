ghost use Rattle.std.specs.Prelude.{◌≡◌, ◌+◌, ◌<◌, ◌≤◌, length};
ghost use Rattle.sources.specs.Blocks.{Inside};
ghost use Rattle.trees.specs.Growth.{with_halves, Keeps, Grows, Drafted, Advances};
ghost use Rattle.trees.specs.Mixed.{codes, block_code};
ghost use Rattle.trees.specs.Records.{Builds};

use crate::draft::Draft;
use crate::tree::{Half, Record, Tree};
use ends::end::End;
use faults::fault::Fault;
use sources::block::Block;
use sources::source::{Answer, Source};

impl Record {
    // The block with its halves.
    fn divided(self, low: Half, high: Half) -> Record
        ensures { result ≡ with_halves self low high }
    {
        Record { low, high, ..self }
    }
}

// The one code of a block, or nothing if the block is mixed.
fn code_of<S: Source>(source: &S, block: Block) -> Option<u16>
    requires { Inside (S.Source.width source.now) block.level block.number }
    ensures { result ≡ block_code (S.Source.width source.now) (codes S.Of.End.code (S.Source.selection source.now)) block.level block.number }
{
    match source.ask(block) {
        Answer::All(end) => Some(end.encode()),
        Answer::Mixed => None,
        Answer::Outside => unreachable(),
    }
}

// What stands for a block, with a new record if the block is mixed.
fn grow<S: Source>(source: &S, block: Block, draft: &mut Draft) -> Result<Half, Fault>
    requires { Inside (S.Source.width source.now) block.level block.number }
    ensures keeps { Keeps draft.old draft.new }
    ensures grown { Grows (S.Source.width source.now) (codes S.Of.End.code (S.Source.selection source.now)) block.level block.number draft.old.table.now draft.old.len draft.new.table.now draft.new.len result }
{
    match code_of(source, block) {
        Some(code) => Ok(Half::Code(code)),
        None => draft.open(block),
    }
}

// Gives the record `i` its two halves.
fn divide<S: Source>(source: &S, draft: &mut Draft, i: usize) -> Result<(), Fault>
    requires { (Drafted (S.Source.width source.now) (codes S.Of.End.code (S.Source.selection source.now)) draft.old.table.now i draft.old.len) × (i < draft.old.len) }
    ensures keeps { Keeps draft.old draft.new }
    ensures divided { Advances (S.Source.width source.now) (codes S.Of.End.code (S.Source.selection source.now)) draft.old.table.now draft.old.len draft.new.table.now (i + 1) draft.new.len result }
{
    let record = draft.table[i];
    let low = Block {
        level: record.block.level + 1,
        number: 2 * record.block.number,
    };
    let high = Block {
        number: low.number + 1,
        ..low
    };
    let low = grow(source, low, draft)?;
    let high = grow(source, high, draft)?;
    draft.table[i] = record.divided(low, high);
    Ok(())
}

// Gives each of the records from `done` on its two halves.
fn divide_row<S: Source>(source: &S, draft: &mut Draft, done: usize) -> Result<(), Fault>
    requires { Drafted (S.Source.width source.now) (codes S.Of.End.code (S.Source.selection source.now)) draft.old.table.now done draft.old.len }
    ensures keeps { Keeps draft.old draft.new }
    ensures divided { Advances (S.Source.width source.now) (codes S.Of.End.code (S.Source.selection source.now)) draft.old.table.now draft.old.len draft.new.table.now draft.old.len draft.new.len result }
{
    // By index: the table grows behind the records that are gone through.
    for i in done..draft.len {
        divide(source, draft, i)?;
    }
    Ok(())
}

// Writes the contracted tree of a source into the table, level by level.
pub fn build<S: Source>(source: &S, table: &mut [Record]) -> Result<Tree, Fault>
    ensures { Builds (S.Source.width source.now) (codes S.Of.End.code (S.Source.selection source.now)) table.old table.new result }
{
    let pins = source.pins();
    let mut draft = Draft { table, len: 0 };
    let root = grow(source, Block::whole(), &mut draft)?;
    let mut done = 0;
    for level in 0..pins {
        let row = draft.len;
        divide_row(source, &mut draft, done)?;
        done = row;
    }
    Ok(Tree {
        pins,
        root,
        len: draft.len,
    })
}
