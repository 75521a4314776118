// Plans made, or refused, over orders and tables of all lengths.
use crate::call::Name;
use crate::chance::Chance;
use crate::noise::noise_nodes;
use crate::orders::shuffled;
use crate::tally::Tally;
use crate::wanted::{OF_MAKINGS, check_seen};
use faults::fault::{Fault, Ground};
use model::Node;
use plans::open::OpenPlan;
use std::alloc::{AllocError, Global};
use std::process::Abort;
use std::test::Fail;

// The first position with a pin that there is not, or that was there before.
fn misplaced(order: &[u8]) -> Option<usize> {
    for (at, pin) in order.iter().enumerate() {
        let named = order.iter().take(at).any(|before| before == pin);
        if usize::from(*pin) >= order.len() || named {
            return Some(at);
        }
    }
    None
}

fn make_faults(heap: Global, order: &[u8], nodes: usize) -> Result<Vec<Fault>, AllocError> {
    let mut faults = Vec::new(heap);
    let pins = order.len();
    if pins < 1 || pins > 20 {
        faults.push(Ground::OrderLength.at(pins))?;
    }
    if let Some(at) = misplaced(order) {
        faults.push(Ground::OrderPin.at(at))?;
    }
    if nodes < 1 || nodes > 4096 {
        faults.push(Ground::NodeTable.at(nodes))?;
    }
    Ok(faults)
}

// An order of 0 to 22 pins, perhaps with some pin changed.
fn choose_order(heap: Global, chance: &mut Chance) -> Result<Vec<u8>, AllocError> {
    let pins = chance.byte_below(23);
    let mut order = shuffled(heap, chance, pins)?;
    if chance.one_in(2) {
        let at = chance.place_below(order.len());
        let other = chance.byte_below(pins.saturating_add(2));
        if let Some(pin) = order.get_mut(at) {
            *pin = other;
        }
    }
    Ok(order)
}

fn choose_length(chance: &mut Chance) -> usize {
    let some = chance.place_below(4098);
    chance.pick(&[some, 0, 1, 4096, 4097], some)
}

// A new plan uses nothing, and all its lines are empty.
fn check_new(rt: &(impl Abort + AllocGlobal), plan: &OpenPlan, nodes: &[Node]) -> Result<(), Fail> {
    assert_eq!(rt; plan.used(), 0);
    for line in 0..32 {
        let empty = Ground::LineEmpty.at(usize::from(line));
        assert_eq!(rt; plan.read(nodes, line, 0), Err(empty));
    }
    Ok(())
}

fn check_making(
    rt: &(impl Abort + AllocGlobal),
    order: &[u8],
    nodes: &[Node],
    tally: &mut Tally,
) -> Result<(), Fail> {
    let faults = make_faults(rt.alloc(), order, nodes.len())?;
    match OpenPlan::new(order, nodes) {
        Ok(plan) => {
            assert!(rt; faults.is_empty(), "made of {order:?}");
            check_new(rt, &plan, nodes)?;
        },
        Err(fault) => assert_eq!(rt; Some(&fault), faults.first(), "{order:?}"),
    }
    tally.note_call(Name::Make, &faults)?;
    Ok(())
}

#[test]
fn of_all_lengths(rt: HostRuntime) -> Result<(), Fail> {
    let mut chance = Chance::new(77);
    let mut tally = Tally::new(rt.alloc());
    let nodes = noise_nodes(rt.alloc(), &mut chance, 4097)?;
    for _ in 0..1000 {
        let order = choose_order(rt.alloc(), &mut chance)?;
        let length = choose_length(&mut chance);
        let (lent, _) = nodes.split_at(length.min(nodes.len()));
        check_making(&rt, &order, lent, &mut tally)?;
    }
    check_seen(&rt, &tally, &OF_MAKINGS)
}
