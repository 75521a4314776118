ghost use Rattle.plans.specs.Plain.{Plain};
ghost use Rattle.rows.specs.Rows.{KeepsLoans};
ghost use Rattle.scripts.specs.Requests.{act_of};
ghost use Rattle.workbench.specs.Calls.{all_lent, Stepped};
ghost use Rattle.workbench.specs.Desks.{opened, Sits};

use crate::answer::{Answer, Misplaced};
use crate::desk::Stage;
use crate::drawing::draw_map;
use crate::joining::join;
use crate::sheet::Sheet;
use crate::telling::answered;
use plans::open::OpenPlan;
use rows::lent::Tables;
use scripts::request::Call;

// A call on an open plan.
pub(crate) fn step_open(
    plan: OpenPlan,
    sheet: Sheet,
    call: &Call,
    bytes: &[u8],
    tables: &mut Tables,
    buffer: &[u8],
) -> (Stage, Result<Answer, Misplaced>)
    ensures loans { KeepsLoans tables.old tables.new }
    ensures stepped { (p : Plain) → Sits plan.header sheet tables.old.nodes.now p → Stepped (all_lent tables.old buffer.now) (opened p) (act_of call.now) bytes.now buffer.now result.0 tables.new.nodes.now result.1 buffer.now }
{
    let mut plan = plan;
    let nodes = &mut *tables.nodes;
    let work = &mut *tables.work;
    let answer = match call {
        Call::Draw { line, map, .. } => {
            let told = draw_map(&mut plan, *map, bytes, *line, tables);
            Ok(answered(told, |()| Answer::Done))
        }
        Call::Join {
            how,
            left,
            right,
            line,
        } => {
            let told = join(&mut plan, *how, *left, *right, *line, nodes, work);
            Ok(answered(told, |()| Answer::Done))
        }
        Call::Strap {
            from,
            pin,
            high,
            line,
        } => {
            let told = plan.strap(*from, *pin, *high, *line, nodes, work);
            Ok(answered(told, |()| Answer::Done))
        }
        Call::Erase { line } => {
            let told = plan.erase(nodes, work, *line);
            Ok(answered(told, |()| Answer::Done))
        }
        Call::Read { line, address } => Ok(answered(
            plan.read(nodes, *line, *address),
            Answer::Code,
        )),
        Call::Same { left, right } => Ok(answered(plan.same(*left, *right), Answer::Same)),
        Call::Used => Ok(Answer::Used(plan.used())),
        Call::Count { line } => {
            let told = plan.count(nodes, work, *line);
            Ok(answered(told, |nodes| Answer::Nodes { line: *line, nodes }))
        }
        Call::Issue => {
            let plan = plan.issue();
            return (Stage::Issued { plan, sheet }, Ok(Answer::Done));
        }
        Call::Reopen | Call::List { .. } => Err(Misplaced::Open),
    };
    (Stage::Open { plan, sheet }, answer)
}
