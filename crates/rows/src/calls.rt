// The rows of one call.
// Each cuts the tables that it hands out itself: parts of a `&mut` that a method of `Tables` cut would tell nothing of the
// whole. One row over any call, with a trait of calls, would be a layer more for whoever writes rows, to save these lines.
ghost use Rattle.std.specs.Prelude.{[], ◌∷◌};
ghost use Rattle.growths.specs.Codes.{code_join, decodes};
ghost use Rattle.plans.specs.Plain.{draw, join, strap, erase};
ghost use Rattle.rows.specs.Rows.{handed};
ghost use Rattle.trees.specs.Mixed.{codes};

use crate::hand::Hand;
use crate::lent::Tables;
use crate::row::Row;
use ends::end::End;
use ends::joining::Joining;
use plans::open::OpenPlan;
use sources::source::Source;

// Drawing a source on a line.
#[derive(Drop)]
pub struct Draw<S> {
    pub source: S,
    pub line: u8,
    pub hand: Hand,
}

impl<S: Source> Row for Draw<S> {
    ghost calls = { λ r l. draw r.line (S.Source.width r.source) (codes S.Of.End.code (S.Source.selection r.source)) (handed r.hand l).nodes (handed r.hand l).records (handed r.hand l).work ∷ [] };

    fn run(&self, plan: &mut OpenPlan, tables: &mut Tables) {
        let hand = self.hand.within(tables);
        let nodes = &mut tables.nodes[..hand.nodes];
        let records = &mut tables.records[..hand.records];
        let work = &mut tables.work[..hand.work];
        let _ = plan.draw(&self.source, self.line, nodes, records, work);
    }
}

// Joining two lines on a third.
#[derive(Drop)]
pub struct Join<J> {
    pub joining: J,
    pub left: u8,
    pub right: u8,
    pub line: u8,
    pub hand: Hand,
}

impl<J: Joining> Row for Join<J> {
    ghost calls = { λ r l. join (decodes J.Of.End.decoded) (code_join J.Of.End.decoded J.Of.End.code J.Joining.joined) r.left r.right r.line (handed r.hand l).nodes (handed r.hand l).work ∷ [] };

    fn run(&self, plan: &mut OpenPlan, tables: &mut Tables) {
        let hand = self.hand.within(tables);
        let nodes = &mut tables.nodes[..hand.nodes];
        let work = &mut tables.work[..hand.work];
        let _ = plan.join(&self.joining, self.left, self.right, self.line, nodes, work);
    }
}

// Strapping a pin of one line, onto another.
#[derive(Clone, Copy)]
pub struct Strap {
    pub from: u8,
    pub pin: u8,
    pub high: bool,
    pub line: u8,
    pub hand: Hand,
}

impl Row for Strap {
    ghost calls = { λ r l. strap r.from r.pin r.high r.line (handed r.hand l).nodes (handed r.hand l).work ∷ [] };

    fn run(&self, plan: &mut OpenPlan, tables: &mut Tables) {
        let hand = self.hand.within(tables);
        let nodes = &mut tables.nodes[..hand.nodes];
        let work = &mut tables.work[..hand.work];
        let _ = plan.strap(self.from, self.pin, self.high, self.line, nodes, work);
    }
}

// Erasing a line.
#[derive(Clone, Copy)]
pub struct Erase {
    pub line: u8,
    pub hand: Hand,
}

impl Row for Erase {
    ghost calls = { λ r l. erase r.line (handed r.hand l).nodes (handed r.hand l).work ∷ [] };

    fn run(&self, plan: &mut OpenPlan, tables: &mut Tables) {
        let hand = self.hand.within(tables);
        let nodes = &mut tables.nodes[..hand.nodes];
        let work = &mut tables.work[..hand.work];
        let _ = plan.erase(nodes, work, self.line);
    }
}
