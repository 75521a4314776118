ghost use Rattle.std.specs.Prelude.{◌≡◌, length};
ghost use Rattle.rows.specs.Rows.{KeepsLoans};
ghost use Rattle.scripts.specs.Requests.{act_of, asked};
ghost use Rattle.workbench.specs.Calls.{all_lent, handed, Stepped};
ghost use Rattle.workbench.specs.Desks.{Bench, Situation, StandsAt, Stands};
ghost use Rattle.workbench.specs.Requests.{Acted, Carried};

use crate::answer::{Answer, Misplaced};
use crate::desk::{Desk, Lengths, Stage};
use crate::handing::lengths_of;
use crate::issued::step_issued;
use crate::making::begin;
use crate::opened::step_open;
use model::Node;
use rows::lent::Tables;
use scripts::request::{Call, Request};
use std::mem;
use trees::tree::Record;

// A call on whatever plan there is, with just the tables that it is handed, as parameters like those of a plan's calls.
// Tried: `act` lends a `Tables` of the cut slices; a call may not keep the loans of two slices of one `&mut Tables`.
fn step(
    stage: Stage,
    call: &Call,
    bytes: &[u8],
    nodes: &mut [Node],
    records: &mut [Record],
    work: &mut [u32],
    buffer: &mut [u8],
) -> (Stage, Result<Answer, Misplaced>)
    ensures { (b : Bench) → StandsAt stage nodes.old b → Stepped (handed (length nodes.old) (length records.old) (length work.old) (length buffer.old)) b (act_of call.now) bytes.now buffer.old result.0 nodes.new result.1 buffer.new }
{
    match stage {
        Stage::Bare => (Stage::Bare, Err(Misplaced::Bare)),
        Stage::Open { plan, sheet } => {
            let mut tables = Tables {
                nodes,
                records,
                work,
            };
            step_open(plan, sheet, call, bytes, &mut tables, buffer)
        }
        Stage::Issued { plan, sheet } => step_issued(plan, sheet, call, nodes, work, buffer),
    }
}

// A call, with as much of the lent tables as it is to be handed.
fn act(
    desk: &mut Desk,
    call: &Call,
    bytes: &[u8],
    tables: &mut Tables,
    buffer: &mut [u8],
) -> Result<Answer, Misplaced>
    ensures loans { KeepsLoans tables.old tables.new }
    ensures acted { (s : Situation) → Stands desk.old tables.old.nodes.now s → Acted (all_lent tables.old buffer.old) s (act_of call.now) bytes.now buffer.old desk.new tables.new.nodes.now result buffer.new }
{
    let stage = mem::replace(&mut desk.stage, Stage::Bare);
    let sheet = stage.sheet();
    let lent = Lengths {
        records: tables.records.len(),
        work: tables.work.len(),
    };
    let lengths = lengths_of(desk.lengths, sheet, lent);
    let count = sheet.nodes.min(tables.nodes.len());
    let nodes = &mut tables.nodes[..count];
    let records = &mut tables.records[..lengths.records];
    let work = &mut tables.work[..lengths.work];
    let (stage, answer) = step(stage, call, bytes, nodes, records, work, buffer);
    desk.stage = stage;
    answer
}

// Carries out one request, with the bytes of the file that it names. Refused calls and those that have no place alter
// nothing.
pub fn carry_out(
    desk: &mut Desk,
    request: &Request,
    bytes: &[u8],
    tables: &mut Tables,
    buffer: &mut [u8],
) -> Result<Answer, Misplaced>
    ensures loans { KeepsLoans tables.old tables.new }
    ensures carried { (s : Situation) → Stands desk.old tables.old.nodes.now s → Carried (all_lent tables.old buffer.old) s (asked request.now) bytes.now buffer.old desk.new tables.new.nodes.now result buffer.new }
{
    match request {
        Request::Plan {
            nodes: count,
            order,
        } => {
            let nodes = &mut *tables.nodes;
            begin(desk, order, *count, nodes)
        }
        Request::Tables { records, work } => {
            desk.lengths = Some(Lengths {
                records: *records,
                work: *work,
            });
            Ok(Answer::Done)
        }
        Request::Call(call) => act(desk, call, bytes, tables, buffer),
    }
}
