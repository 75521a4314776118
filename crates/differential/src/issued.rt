// What an issued plan tells: readings, and its listing to the byte.
use crate::call::{Name, Told};
use crate::chance::Chance;
use crate::choosing::{choose_lent, choose_reading, choose_room};
use crate::layout::layout;
use crate::lending::{front, front_mut};
use crate::plain::Plain;
use crate::tally::{Seen, Tally};
use model::Node;
use plans::issued::IssuedPlan;
use std::process::Abort;
use std::test::Fail;

// What stands in a buffer before a listing.
const BEFORE: u8 = 0xA5;

// One reading, refused or not.
pub fn check_issued_read(
    rt: &(impl Abort + AllocGlobal),
    plan: &IssuedPlan,
    plain: &Plain,
    chance: &mut Chance,
    nodes: &[Node],
    tally: &mut Tally,
) -> Result<(), Fail> {
    chance.settle();
    let (line, address) = choose_reading(chance, plain);
    let lent = choose_lent(chance, plain, 0);
    let forecast = plain.read(rt.alloc(), line, address, lent)?;
    let told = plan
        .read(front(nodes, lent.nodes), line, address)
        .map(Told::Code);
    assert_eq!(rt;
        told,
        forecast.answer(),
        "issued, line {line} at {address} with {lent:?}"
    );
    tally.note_call(Name::ReadIssued, &forecast.faults)?;
    Ok(())
}

// One listing; a refused one leaves the buffer as it was.
pub fn check_listing(
    rt: &(impl Abort + AllocGlobal),
    plan: &IssuedPlan,
    plain: &Plain,
    chance: &mut Chance,
    nodes: &[Node],
    work: &mut [u32],
    tally: &mut Tally,
) -> Result<(), Fail> {
    chance.settle();
    let mut expected = layout(rt.alloc(), plain)?;
    let length = expected.len();
    let lent = choose_lent(chance, plain, 0);
    let room = choose_room(chance, length);
    let faults = plain.list_faults(rt.alloc(), lent, length, room)?;
    let answer = match faults.first() {
        Some(fault) => Err(*fault),
        None => Ok(length),
    };
    let mut buffer = vec![in rt.alloc(); BEFORE; room]?;
    let told = plan.list(
        front(nodes, lent.nodes),
        front_mut(work, lent.work),
        &mut buffer,
    );
    assert_eq!(rt; told, answer, "list with {lent:?} and room {room}");
    if answer.is_err() {
        expected.clear();
    }
    expected.resize(room, BEFORE)?;
    assert_eq!(rt; buffer.as_slice(), expected.as_slice());
    tally.note_call(Name::List, &faults)?;
    if plain.shares() {
        tally.note(Seen::Shared)?;
    }
    Ok(())
}
