ghost use Rattle.std.specs.Prelude.{ℕ, List, length};
ghost use Rattle.plans.specs.Plain.{Plain};
ghost use Rattle.scripts.specs.Requests.{act_of};
ghost use Rattle.workbench.specs.Calls.{handed, Stepped};
ghost use Rattle.workbench.specs.Desks.{issued, Sits};

use crate::answer::{Answer, Misplaced};
use crate::desk::Stage;
use crate::sheet::Sheet;
use crate::telling::answered;
use model::Node;
use plans::issued::IssuedPlan;
use scripts::request::Call;

// A call on an issued plan.
pub(crate) fn step_issued(
    plan: IssuedPlan,
    sheet: Sheet,
    call: &Call,
    nodes: &[Node],
    work: &mut [u32],
    buffer: &mut [u8],
) -> (Stage, Result<Answer, Misplaced>)
    ensures { (p : Plain) (bs : List ℕ) (r : ℕ) → Sits plan.header sheet nodes.now p → Stepped (handed (length nodes.now) r (length work.old) (length buffer.old)) (issued p) (act_of call.now) bs buffer.old result.0 nodes.now result.1 buffer.new }
{
    match call {
        Call::Read { line, address } => {
            let answer = answered(plan.read(nodes, *line, *address), Answer::Code);
            (Stage::Issued { plan, sheet }, Ok(answer))
        }
        Call::List { .. } => {
            let answer = answered(plan.list(nodes, work, buffer), Answer::Listing);
            (Stage::Issued { plan, sheet }, Ok(answer))
        }
        Call::Reopen => {
            let plan = plan.reopen();
            (Stage::Open { plan, sheet }, Ok(Answer::Done))
        }
        _ => (Stage::Issued { plan, sheet }, Err(Misplaced::Issued)),
    }
}
