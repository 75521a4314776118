#![tactic(auto)]
// Times draws on a plan. With the word `run` it prints a row for each map and order.
use faults::fault::Fault;
use map_tests::building::bit_map;
use model::Node;
use plans::open::OpenPlan;
use plans::work::work_for;
use readers::bit_file::BitFile;
use std::alloc::{AllocError, Global};
use std::time::Instant;
use std::{env, fmt, io};
use tables::indexing::MOST_NODES;
use trees::tree::Record;

const RECORDS: usize = 20_480;

// Where switch `i` of `count` stands, of those that divide the addresses evenly.
fn switch_at(addresses: u32, count: u32, i: u32) -> u32 {
    let along = i.wrapping_add(1).wrapping_mul(addresses);
    along.checked_div(count.wrapping_add(1)).unwrap_or(0)
}

fn spread(heap: Global, addresses: u32, count: u32) -> Result<Vec<u32>, AllocError> {
    (0..count)
        .map(|i| switch_at(addresses, count, i))
        .collect(heap)
}

// The pins in address order, or from the last to the first.
#[derive(Clone, Copy)]
enum Order {
    Address,
    Reversed,
}

impl Order {
    fn pins(self, heap: Global, pins: u8) -> Result<Vec<u8>, AllocError> {
        match self {
            Order::Address => (0..pins).collect(heap),
            Order::Reversed => (0..pins).rev().collect(heap),
        }
    }
}

impl fmt::Display for Order {
    fn fmt<W: fmt::Write>(&self, f: &mut fmt::Formatter<W>) -> fmt::Result {
        match self {
            Order::Address => write!(f, "address"),
            Order::Reversed => write!(f, "reversed"),
        }
    }
}

// The microseconds that a draw takes, and its outcome.
fn time_draw(
    rt: &HostRuntime,
    plan: &mut OpenPlan,
    file: &BitFile,
    nodes: &mut [Node],
    work: &mut [u32],
) -> io::Result<(u128, Result<(), Fault>)> {
    let mut records = vec![in rt.alloc(); Record::blank(); RECORDS]?;
    let start = Instant::now(rt)?;
    let told = plan.draw(file, 0, nodes, &mut records, work);
    let time = start.elapsed(rt)?;
    Ok((time.as_micros(), told))
}

// Draws a map on a new plan, and prints the time and the used number or the refusal.
fn print_draw(rt: &HostRuntime, order: &[u8], file: &BitFile, work: &mut [u32]) -> io::Result<()> {
    let mut nodes = vec![in rt.alloc(); Node::blank(); MOST_NODES]?;
    match OpenPlan::new(order, &nodes) {
        Ok(mut plan) => {
            let (time, told) = time_draw(rt, &mut plan, file, &mut nodes, work)?;
            print_outcome(rt, time, plan.used(), told)
        }
        Err(fault) => println!(rt; "{fault}"),
    }
}

fn print_outcome(
    rt: &HostRuntime,
    time: u128,
    used: u16,
    told: Result<(), Fault>,
) -> io::Result<()> {
    match told {
        Ok(()) => println!(rt; "{time} USED {used}"),
        Err(fault) => println!(rt; "{time} {fault}"),
    }
}

// One row: a map of so many switches, drawn in one order.
fn print_row(
    rt: &HostRuntime,
    pins: u8,
    count: u32,
    file: &BitFile,
    order: Order,
) -> io::Result<()> {
    let row = order.pins(rt.alloc(), pins)?;
    let mut work = vec![in rt.alloc(); 0; work_for(pins, MOST_NODES as u16)]?;
    print!(rt; "{pins} {count} {order} ")?;
    print_draw(rt, &row, file, &mut work)
}

// The rows of one map: at most one switch for each address above 0.
fn print_map(rt: &HostRuntime, pins: u8, most: u32) -> io::Result<()> {
    let addresses = 1u32.checked_shl(u32::from(pins)).unwrap_or(0);
    let count = most.min(addresses.saturating_sub(1));
    let switches = spread(rt.alloc(), addresses, count)?;
    let bytes = bit_map(rt.alloc(), pins, &switches)?;
    let file = BitFile::over(&bytes);
    for order in [Order::Address, Order::Reversed] {
        print_row(rt, pins, count, &file, order)?;
    }
    Ok(())
}

fn print_maps(rt: &HostRuntime, pins: u8) -> io::Result<()> {
    for most in [1, 16, 256, 1024] {
        print_map(rt, pins, most)?;
    }
    Ok(())
}

fn print_table(rt: &HostRuntime) -> io::Result<()> {
    println!(rt; "pins switches order microseconds outcome")?;
    print_maps(rt, 8)?;
    print_maps(rt, 12)?;
    print_maps(rt, 16)?;
    print_maps(rt, 20)
}

fn is_asked(rt: &HostRuntime) -> io::Result<bool> {
    let mut words = env::args(rt)?;
    Ok(words.nth(1).is_some_and(|word| word.as_str() == "run"))
}

fn main(rt: HostRuntime) -> io::Result<()> {
    if is_asked(&rt)? {
        print_table(&rt)
    } else {
        println!(rt; "drawtimes run: times draws of 8 to 20 pins")
    }
}
