ghost use Rattle.std.specs.Prelude.{◌≡◌};
ghost use Rattle.rows.specs.Rows.{KeepsLoans};
ghost use Rattle.scripts.specs.Requests.{asked};
ghost use Rattle.workbench.specs.Calls.{all_lent};
ghost use Rattle.workbench.specs.Desks.{Situation, Stands, start};
ghost use Rattle.workbench.specs.Requests.{RequestAnswered, request_shown};
ghost use Rattle.workbench.specs.Rows.{runs, row_shown};

use crate::answer::{Answer, Misplaced};
use crate::carrying::carry_out;
use crate::desk::Desk;
use rows::lent::Tables;
use scripts::request::Request;

// A request, with the bytes of the file that it names.
#[derive(Drop)]
pub struct Given {
    pub request: Request,
    pub bytes: Vec<u8>,
}

// Carries out a row of requests, one after the other, refused and misplaced ones in their places.
pub fn run(desk: &mut Desk, row: &[Given], tables: &mut Tables, buffer: &mut [u8])
    ensures loans { KeepsLoans tables.old tables.new }
    ensures stands { (s : Situation) → Stands desk.old tables.old.nodes.now s → Stands desk.new tables.new.nodes.now (runs (all_lent tables.old buffer.old) s row.now) }
    ensures wrote { (s : Situation) → Stands desk.old tables.old.nodes.now s → buffer.new ≡ row_shown (all_lent tables.old buffer.old) s row.now buffer.old }
{
    for given in row {
        let _ = carry_out(desk, &given.request, &given.bytes, tables, buffer);
    }
}

// What a request answers after any row of requests on a desk with no plan, and what the row and it leave in the buffer.
pub fn answer_after(
    row: &[Given],
    given: &Given,
    tables: &mut Tables,
    buffer: &mut [u8],
) -> Result<Answer, Misplaced>
    ensures loans { KeepsLoans tables.old tables.new }
    ensures answers { let lent = all_lent tables.old buffer.old in RequestAnswered lent (runs lent start row.now) (asked given.now.request) given.now.bytes.items result }
    ensures wrote { let lent = all_lent tables.old buffer.old in buffer.new ≡ request_shown lent (runs lent start row.now) (asked given.now.request) (row_shown lent start row.now buffer.old) }
{
    let mut desk = Desk::bare();
    run(&mut desk, row, tables, buffer);
    carry_out(&mut desk, &given.request, &given.bytes, tables, buffer)
}
