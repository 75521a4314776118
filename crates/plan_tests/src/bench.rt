// A plan beside the truth tables of its lines.
use crate::parts::count_parts;
use crate::steps::{Step, run};
use crate::truth::{SETTINGS, Table, bit_of, joined, strapped};
use faults::fault::Fault;
use map_tests::truth::{addresses, bits, settings};
use model::Node;
use plans::open::OpenPlan;
use rows::hand::Hand;
use std::alloc::{AllocError, Global};
use std::process::Abort;
use std::test::Fail;
use trees::tree::Record;

// What is told where nothing is refused.
pub const DONE: &'static str = "DONE";

// The tables have a node, a record and a number more than are lent. Only lines below 8 have truth tables.
#[derive(Drop)]
pub struct Bench<'a> {
    plan: OpenPlan,
    order: &'a [u8],
    nodes: Vec<Node>,
    records: Vec<Record>,
    work: Vec<u32>,
    lent: Hand,
    lines: [Option<Table>; 8],
}

// So many of the first elements, or all.
fn front<T>(all: &mut [T], most: usize) -> &mut [T] {
    let len = all.len();
    let (front, _) = all.split_at_mut(most.min(len));
    front
}

fn line_of(lines: &[Option<Table>], line: u8) -> Table {
    lines
        .get(line as usize)
        .copied()
        .flatten()
        .unwrap_or([0; 16])
}

fn shown(heap: Global, told: Option<Fault>) -> Result<String, AllocError> {
    match told {
        None => String::from_str(heap, DONE),
        Some(fault) => fault.to_string(heap),
    }
}

impl<'a> Bench<'a> {
    // A new plan of so many nodes, and just the work that it asks for.
    pub fn new(heap: Global, order: &'a [u8], size: u8) -> Result<Bench<'a>, Fail> {
        let lent = Hand {
            nodes: size as usize,
            records: 15,
            // By hand, and not by `work_for`, which the plan asks too.
            work: 4 * (order.len() % 21 + 1) * (usize::from(size) + 2),
        };
        let plan = OpenPlan::new(order, &vec![in heap; Node::blank(); lent.nodes]?)?;
        Ok(Bench {
            plan,
            order,
            nodes: vec![in heap; Node::blank(); lent.nodes + 1]?,
            records: vec![in heap; Record::blank(); lent.records + 1]?,
            work: vec![in heap; 0; lent.work + 1]?,
            lent,
            lines: [None; 8],
        })
    }

    // What a call tells with so much lent, as it prints.
    fn told(&mut self, heap: Global, step: Step, lent: Hand) -> Result<String, AllocError> {
        let pins = self.order.len();
        let nodes = front(&mut self.nodes, lent.nodes);
        let records = front(&mut self.records, lent.records);
        let work = front(&mut self.work, lent.work);
        shown(
            heap,
            run(heap, step, pins, &mut self.plan, nodes, records, work)?,
        )
    }

    // The truth tables after a call.
    fn note(&mut self, step: Step) {
        let pins = self.order.len();
        let (d, codes) = match step {
            Step::Bits(pattern, d) => (d, Some(bits(pins, pattern))),
            Step::Settings(pattern, d) => (d, Some(settings(&SETTINGS, pins, pattern))),
            Step::Join(how, a, b, d) => {
                let left = line_of(&self.lines, a);
                let right = line_of(&self.lines, b);
                (d, Some(joined(how, &left, &right)))
            }
            Step::Strap(a, pin, high, d) => {
                let codes = line_of(&self.lines, a);
                (d, Some(strapped(&codes, bit_of(pins, pin), high)))
            }
            Step::Erase(d) => (d, None),
            Step::Other(..) | Step::Read(..) | Step::Same(..) | Step::Count(_) => return,
        };
        if let Some(line) = self.lines.get_mut(d as usize) {
            *line = codes;
        }
    }

    // The count and the codes of a line.
    fn check_line(
        &mut self,
        rt: &(impl Abort + AllocGlobal),
        line: u8,
        codes: Table,
    ) -> Result<(), Fail> {
        let order = self.order;
        let nodes = front(&mut self.nodes, self.lent.nodes);
        let count = self.plan.count(nodes, &mut self.work, line)?;
        assert_eq!(rt; count as usize, count_parts(rt.alloc(), &[codes], order)?);
        for (address, code) in (0..addresses(order.len()) as u32).zip(codes) {
            assert_eq!(rt; self.plan.read(nodes, line, address)?, code);
        }
        Ok(())
    }

    // Every held line, each pair of them, and the used number.
    fn check_all(&mut self, rt: &(impl Abort + AllocGlobal)) -> Result<(), Fail> {
        let mut held = Vec::new(rt.alloc());
        for (line, codes) in (0..8).zip(self.lines) {
            if let Some(codes) = codes {
                held.push((line, codes))?;
                self.check_line(rt, line, codes)?;
            }
        }
        for (a, codes) in &held {
            for (b, others) in &held {
                assert_eq!(rt; self.plan.same(*a, *b)?, codes == others);
            }
        }
        let tables = held
            .iter()
            .map(|(_, codes)| *codes)
            .collect::<Vec<Table>>(rt.alloc())?;
        assert_eq!(rt;
            self.plan.used() as usize,
            count_parts(rt.alloc(), &tables, self.order)?
        );
        Ok(())
    }

    // A call that tells this, with so much lent; a refused one changes nothing.
    pub fn step_with(
        &mut self,
        rt: &(impl Abort + AllocGlobal),
        step: Step,
        lent: Hand,
        told: &str,
    ) -> Result<(), Fail> {
        assert_eq!(rt; self.told(rt.alloc(), step, lent)?.as_str(), told);
        if told == DONE {
            self.note(step);
        }
        self.check_all(rt)
    }

    // The same with all lent that the plan asks for.
    pub fn step(
        &mut self,
        rt: &(impl Abort + AllocGlobal),
        step: Step,
        told: &str,
    ) -> Result<(), Fail> {
        let lent = self.lent;
        self.step_with(rt, step, lent, told)
    }
}
