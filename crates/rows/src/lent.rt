use model::Node;
use trees::tree::Record;

// The tables that are lent to a row.
// Behind `&mut Tables` each is lent on by `&mut`, even to be read: a `&` beside a `&mut` has no rule yet, and after a `&` alone the proof has lost the table.
#[derive(Drop)]
pub struct Tables<'a> {
    pub nodes: &'a mut [Node],
    pub records: &'a mut [Record],
    pub work: &'a mut [u32],
}
