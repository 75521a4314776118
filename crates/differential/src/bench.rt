// A plan beside the plain one, with its tables.
use crate::call::{Call, Told};
use crate::chance::Chance;
use crate::choosing::{choose_call, choose_lent_to};
use crate::issued::{check_issued_read, check_listing};
use crate::lending::{front, front_mut};
use crate::noise::{noise_nodes, noise_record};
use crate::plain::Plain;
use crate::running::run;
use crate::tally::{Seen, Tally};
use crate::truth::addresses;
use faults::fault::{Fault, Ground};
use model::Node;
use plans::open::OpenPlan;
use rows::hand::Hand;
use scripts::request::How;
use std::alloc::{AllocError, Global};
use std::process::Abort;
use std::test::Fail;
use trees::tree::Record;

// The tables are longer than the plan asks for.
#[derive(Drop)]
pub struct Bench<'a> {
    plan: OpenPlan,
    plain: Plain<'a>,
    chance: Chance,
    // How many calls there were before.
    made: usize,
    nodes: Vec<Node>,
    records: Vec<Record>,
    work: Vec<u32>,
}

impl<'a> Bench<'a> {
    // A new plan over a table of nodes that it never made.
    pub fn new(heap: Global, seed: u64, order: &'a [u8], size: usize) -> Result<Bench<'a>, Fail> {
        let mut chance = Chance::new(seed);
        let plain = Plain::new(heap, order, size)?;
        let nodes = noise_nodes(heap, &mut chance, size.saturating_add(1))?;
        let plan = OpenPlan::new(order, front(&nodes, size))?;
        let work = vec![in heap; 0; plain.work().saturating_add(1)]?;
        let records = vec![in heap; Record::blank(); addresses(order.len()).saturating_add(40)]?;
        Ok(Bench {
            plan,
            plain,
            chance,
            made: 0,
            nodes,
            records,
            work,
        })
    }

    // Anything may stand in records and work before a call.
    fn scribble(&mut self) {
        let record = noise_record(&mut self.chance);
        let number = self.chance.below(u32::MAX);
        let number = self.chance.pick(&[0, 1, number, u32::MAX], 0);
        if self.chance.one_in(4) {
            self.records.fill(record);
            self.work.fill(number);
        }
    }

    fn run(
        &mut self,
        heap: Global,
        call: &Call,
        lent: Hand,
    ) -> Result<Result<Told, Fault>, AllocError> {
        let nodes = front_mut(&mut self.nodes, lent.nodes);
        let records = front_mut(&mut self.records, lent.records);
        let work = front_mut(&mut self.work, lent.work);
        run(heap, &mut self.plan, call, nodes, records, work)
    }

    // A line at one address.
    fn check_read(
        &self,
        rt: &(impl Abort + AllocGlobal),
        line: u8,
        address: usize,
    ) -> Result<(), Fail> {
        let nodes = front(&self.nodes, self.plain.size);
        let expected = match self.plain.line(line) {
            Some(held) => Ok(held.truth.at(address)),
            None => Err(Ground::LineEmpty.at(usize::from(line))),
        };
        let at = u32::try_from(address).unwrap_or(u32::MAX);
        assert_eq!(rt;
            self.plan.read(nodes, line, at),
            expected,
            "line {line} at {address}"
        );
        Ok(())
    }

    fn check_count(&mut self, rt: &(impl Abort + AllocGlobal), line: u8) -> Result<(), Fail> {
        let Some(expected) = self.plain.line(line).map(|held| held.count) else {
            return Ok(());
        };
        let nodes = front_mut(&mut self.nodes, self.plain.size);
        let count = self.plan.count(nodes, &mut self.work, line)?;
        assert_eq!(rt; usize::from(count), expected, "count of line {line}");
        Ok(())
    }

    fn check_address(&self, rt: &(impl Abort + AllocGlobal), address: usize) -> Result<(), Fail> {
        for line in 0..32 {
            self.check_read(rt, line, address)?;
        }
        Ok(())
    }

    // The used number, and every line: at all addresses if they are few, else at some.
    fn check_some(&mut self, rt: &(impl Abort + AllocGlobal)) -> Result<(), Fail> {
        let made = self.made;
        assert_eq!(rt;
            usize::from(self.plan.used()),
            self.plain.used,
            "used after {made} calls"
        );
        let top = addresses(self.plain.pins());
        if top <= 16 {
            for address in 0..top {
                self.check_address(rt, address)?;
            }
        } else {
            for _ in 0..6 {
                let address = self.chance.place_below(top);
                self.check_address(rt, address)?;
            }
        }
        Ok(())
    }

    // Every held line at every address, and against every other.
    pub fn check_all(&mut self, rt: &(impl Abort + AllocGlobal)) -> Result<(), Fail> {
        self.check_some(rt)?;
        for line in 0..32 {
            self.check_line(rt, line)?;
        }
        Ok(())
    }

    fn check_line(&mut self, rt: &(impl Abort + AllocGlobal), line: u8) -> Result<(), Fail> {
        self.check_count(rt, line)?;
        for address in 0..addresses(self.plain.pins()) {
            self.check_read(rt, line, address)?;
        }
        for other in 0..32 {
            self.check_same(rt, line, other)?;
        }
        Ok(())
    }

    fn check_same(&self, rt: &(impl Abort + AllocGlobal), line: u8, other: u8) -> Result<(), Fail> {
        if let (Some(a), Some(b)) = (self.plain.line(line), self.plain.line(other)) {
            let same = a.truth.codes.as_slice() == b.truth.codes.as_slice();
            assert_eq!(rt;
                self.plan.same(line, other)?,
                same,
                "lines {line} and {other}"
            );
        }
        Ok(())
    }

    fn note_tie(&self, call: &Call, tally: &mut Tally) -> Result<(), AllocError> {
        match call {
            Call::Join {
                how: How::Overlay,
                left,
                right,
                ..
            } if self.plain.has_tie(*left, *right) => tally.note(Seen::Tie),
            _ => Ok(()),
        }
    }

    // One more call, refused or not.
    pub fn step(&mut self, rt: &(impl Abort + AllocGlobal), tally: &mut Tally) -> Result<(), Fail> {
        let heap = rt.alloc();
        self.chance.settle();
        let call = choose_call(heap, &mut self.chance, &self.plain)?;
        let lent = choose_lent_to(heap, &mut self.chance, &self.plain, &call)?;
        let forecast = self.plain.forecast(heap, &call, lent)?;
        self.scribble();
        let told = self.run(heap, &call, lent)?;
        let made = self.made;
        let order = self.plain.order;
        assert_eq!(rt;
            told,
            forecast.answer(),
            "call {made} on {order:?}: {call:?} with {lent:?}"
        );
        self.made = made.saturating_add(1);
        tally.note_call(call.name(), &forecast.faults)?;
        if forecast.faults.is_empty() {
            self.note_tie(&call, tally)?;
        }
        let change = forecast.into_change();
        let written = change.held_line();
        self.plain.change(heap, change)?;
        if let Some(line) = written {
            self.check_count(rt, line)?;
        }
        self.check_some(rt)
    }

    // The plan issued, read, listed and opened again.
    pub fn list(
        self,
        rt: &(impl Abort + AllocGlobal),
        tally: &mut Tally,
    ) -> Result<Bench<'a>, Fail> {
        let Bench {
            plan,
            plain,
            mut chance,
            made,
            nodes,
            records,
            mut work,
        } = self;
        let issued = plan.issue();
        for _ in 0..3 {
            check_issued_read(rt, &issued, &plain, &mut chance, &nodes, tally)?;
        }
        check_listing(rt, &issued, &plain, &mut chance, &nodes, &mut work, tally)?;
        Ok(Bench {
            plan: issued.reopen(),
            plain,
            chance,
            made,
            nodes,
            records,
            work,
        })
    }
}
