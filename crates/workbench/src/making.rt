ghost use Rattle.std.specs.Prelude.{◌≡◌, ℕ, ◌<◌, Some, length};
ghost use Rattle.plans.specs.Plain.{make_told};
ghost use Rattle.workbench.specs.Calls.{handed};
ghost use Rattle.workbench.specs.Desks.{Situation, Stands};
ghost use Rattle.workbench.specs.Requests.{Begun};
ghost use Rattle.workbench.specs.Telling.{retold};

use crate::answer::{Answer, Misplaced};
use crate::desk::{Desk, Stage};
use crate::sheet::Sheet;
use faults::fault::{Fault, Ground};
use model::Node;
use plans::open::OpenPlan;
use tables::indexing::MOST_NODES;

// A refusal of the node table, made one of a table of another length.
fn retold(fault: Fault, count: usize) -> Fault
    ensures { result ≡ retold fault.ground fault count }
{
    match fault.ground {
        Ground::NodeTable => Ground::NodeTable.at(count),
        _ => fault,
    }
}

// The refusal of a plan with more nodes than any plan has: that of its order, or else of its table, which need not be
// there.
fn refusal_of_many(order: &[u8], count: usize) -> Fault
    requires { 4096 < count }
    ensures { make_told order.now count ≡ Some result }
{
    match OpenPlan::new(order, &[]) {
        Ok(_) => Ground::NodeTable.at(count),
        Err(fault) => retold(fault, count),
    }
}

// A new plan over the first nodes of a table, with the former let go.
pub(crate) fn begin(
    desk: &mut Desk,
    order: &[u8],
    count: usize,
    nodes: &[Node],
) -> Result<Answer, Misplaced>
    ensures { (s : Situation) (r w b : ℕ) → Stands desk.old nodes.now s → Begun (handed (length nodes.now) r w b) s count order.now desk.new nodes.now result }
{
    if count > MOST_NODES {
        return Ok(Answer::Refused(refusal_of_many(order, count)));
    }
    if count > nodes.len() {
        return Err(Misplaced::FewNodes);
    }
    match OpenPlan::new(order, &nodes[..count]) {
        Ok(plan) => {
            let sheet = Sheet {
                pins: order.len(),
                nodes: count,
            };
            desk.stage = Stage::Open { plan, sheet };
            Ok(Answer::Done)
        }
        Err(fault) => Ok(Answer::Refused(fault)),
    }
}
