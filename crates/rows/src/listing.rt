// Listings of rows on new plans.
ghost use Rattle.std.specs.Prelude.{length};
ghost use Rattle.rows.specs.Laws.{plain_after, ListingIsTheLayout, RowsCompared};
ghost use Rattle.rows.specs.Rows.{whole, KeepsLoans};

use crate::after::plan_after;
use crate::lent::Tables;
use crate::row::Row;
use faults::fault::Fault;

// The listing after a row on a new plan, at the front of a buffer. Tells its length.
pub fn list_row<R: Row>(
    row: &R,
    order: &[u8],
    tables: &mut Tables,
    buffer: &mut [u8],
) -> Result<usize, Fault>
    ensures loans { KeepsLoans tables.old tables.new }
    ensures listed { ListingIsTheLayout order.now (whole tables.old) (plain_after order.now (whole tables.old) (R.Row.calls row.now)) buffer.old result buffer.new }
{
    let plan = plan_after(row, order, tables)?;
    let nodes = &mut *tables.nodes;
    let work = &mut *tables.work;
    plan.issue().list(nodes, work, buffer)
}

// Whether two rows, each on a new plan of one order with tables of its own, list the same bytes.
pub fn lists_alike<A: Row, B: Row>(
    one: &A,
    two: &B,
    order: &[u8],
    tables: &mut Tables,
    buffer: &mut [u8],
    other_tables: &mut Tables,
    other_buffer: &mut [u8],
) -> Result<bool, Fault>
    ensures loans { KeepsLoans tables.old tables.new }
    ensures other_loans { KeepsLoans other_tables.old other_tables.new }
    ensures compared { RowsCompared order.now (whole tables.old) (whole other_tables.old) (plain_after order.now (whole tables.old) (A.Row.calls one.now)) (plain_after order.now (whole other_tables.old) (B.Row.calls two.now)) buffer.old other_buffer.old result buffer.new other_buffer.new }
{
    let len = list_row(one, order, tables, buffer)?;
    let other_len = list_row(two, order, other_tables, other_buffer)?;
    Ok(&buffer[..len] == &other_buffer[..other_len])
}
