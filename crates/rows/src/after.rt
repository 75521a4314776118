// Rows on a new plan.
ghost use Rattle.std.specs.Prelude.{◌≡◌, ℕ, ◌<◌, length, None, slice_index_or};
ghost use Rattle.plans.specs.Holding.{Holds};
ghost use Rattle.plans.specs.Plain.{Plain};
ghost use Rattle.rows.specs.Laws.{plain_after, AfterMaking, count_if_told, Priced};
ghost use Rattle.rows.specs.Rows.{whole, KeepsLoans};

use crate::lent::Tables;
use crate::outcome::Outcome;
use crate::row::Row;
use faults::fault::Fault;
use model::Node;
use plans::open::OpenPlan;
use std::array;

// A new plan on which a row was run.
// Order and tables are two parameters, here and in the other laws: two rows are compared on plans of one order, each with
// tables of its own.
pub fn plan_after<R: Row>(row: &R, order: &[u8], tables: &mut Tables) -> Result<OpenPlan, Fault>
    ensures loans { KeepsLoans tables.old tables.new }
    ensures holds { AfterMaking order.now (whole tables.old) result (λ plan. Holds plan.header tables.new.nodes.now (plain_after order.now (whole tables.old) (R.Row.calls row.now))) }
{
    let nodes = &mut *tables.nodes;
    let mut plan = OpenPlan::new(order, nodes)?;
    row.run(&mut plan, tables);
    Ok(plan)
}

// The count of a line, or nothing where it is refused.
// From here on nodes and work go apart: nodes are only read, and a `&` of one field of `Tables` beside a `&mut` of another
// has no rule.
#[tactic(auto, using(crate::proofs::Pricing::counted))]
fn count_of(plan: &OpenPlan, nodes: &[Node], work: &mut [u32], line: u8) -> Option<u16>
    ensures { (p : Plain) → Holds plan.now.header nodes.now p → result ≡ count_if_told p line (length nodes.now) (length work.old) }
{
    plan.count(nodes, work, line).ok()
}

fn counts_of(plan: &OpenPlan, nodes: &[Node], work: &mut [u32]) -> [Option<u16>; 32]
    ensures { (p : Plain) → Holds plan.now.header nodes.now p → (d : ℕ) → d < 32 → slice_index_or result d None ≡ count_if_told p d (length nodes.now) (length work.old) }
{
    array::from_fn(|line| count_of(plan, nodes, work, line as u8))
}

// A plan with its used number and its counts.
fn price(plan: OpenPlan, nodes: &[Node], work: &mut [u32]) -> Outcome
    ensures { (p : Plain) → Holds plan.header nodes.now p → Priced p nodes.now (length work.old) result }
{
    let used = plan.used();
    let counts = counts_of(&plan, nodes, work);
    Outcome { plan, used, counts }
}

// The used number and the counts after a row on a new plan.
pub fn after_row<R: Row>(row: &R, order: &[u8], tables: &mut Tables) -> Result<Outcome, Fault>
    ensures loans { KeepsLoans tables.old tables.new }
    ensures priced { AfterMaking order.now (whole tables.old) result (Priced (plain_after order.now (whole tables.old) (R.Row.calls row.now)) tables.new.nodes.now (length tables.old.work.now)) }
{
    let plan = plan_after(row, order, tables)?;
    let nodes = &mut *tables.nodes;
    let work = &mut *tables.work;
    Ok(price(plan, nodes, work))
}
