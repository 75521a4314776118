ghost use Rattle.std.specs.Prelude.{◌≡◌, None};
ghost use Rattle.files.specs.Formats.{pins_of};
ghost use Rattle.files.specs.Verdict.{fault};
ghost use Rattle.trees.specs.Mixed.{codes};
ghost use Rattle.settled.specs.Reckonings.{Reckons};

use crate::outcomes::Reckoning;
use ends::end::End;
use faults::fault::Fault;
use model::Node;
use plans::open::OpenPlan;
use readers::kind::Kind;
use readers::map_file::MapFile;
use sources::source::Source;
use trees::build::build;
use trees::tree::Record;

// The tree records of a map, and the nodes of its line on a new plan in this order.
fn reckon<S: Source>(source: &S, order: &[u8]) -> Result<Reckoning, Fault>
    ensures { Reckons (S.Source.width source.now) (codes S.Of.End.code (S.Source.selection source.now)) order.now result }
{
    let mut nodes = [Node::blank(); 8];
    let mut records = [Record::blank(); 8];
    let mut work = [0; 200];
    let tree = build(source, &mut records)?;
    let mut plan = OpenPlan::new(order, &nodes)?;
    plan.draw(source, 0, &mut nodes, &mut records, &mut work)?;
    let count = plan.count(&nodes, &mut work, 0)?;
    Ok(Reckoning {
        records: tree.len,
        nodes: count,
    })
}

// The same of a map file of any kind.
pub(crate) fn reckon_file<K: Kind>(bytes: &[u8], order: &[u8]) -> Result<Reckoning, Fault>
    ensures { fault K.format bytes.now ≡ None → Reckons (pins_of K.format bytes.now) (codes K.Of.End.code (K.selection bytes.now)) order.now result }
{
    reckon(&MapFile::<K>::read(bytes)?, order)
}
