ghost use Rattle.std.specs.Prelude.{◌≡◌, ℕ, length, IfOk};
ghost use Rattle.growths.specs.Growths.{Grows};
ghost use Rattle.model.specs.Selections.{Selection, view_of};
ghost use Rattle.plans.specs.Holding.{Did, order_of};
ghost use Rattle.plans.specs.Plain.{draw, draw_refusal};
ghost use Rattle.plans.specs.Results.{refusal};
ghost use Rattle.trees.specs.Mixed.{codes};
ghost use Rattle.trees.specs.Records.{Built};

use crate::header::Header;
use crate::line_number::LineNumber;
use crate::marking::Marking;
use crate::open::OpenPlan;
use drawings::drawing::{Subject, draw_root};
use ends::end::End;
use faults::fault::{Fault, Ground};
use model::{Branch, Node};
use sources::source::Source;
use trees::build::build;
use trees::tree::{Record, Tree};

impl Header {
    // What a draw asks of its arguments.
    fn check_draw(
        &self,
        pins: u32,
        line: u8,
        nodes: usize,
        work: usize,
    ) -> Result<LineNumber, Fault>
        ensures told { refusal result ≡ draw_refusal self.now.pins self.now.size pins line nodes work }
        ensures same { IfOk result (λ at. at.number ≡ line) }
    {
        if pins != u32::from(self.pins) {
            return Err(Ground::SourcePins.at(pins as usize));
        }
        self.check_held(line, nodes, work)
    }

    // A root for a built tree, beside the lines of the plan. None where no slot is left.
    // The lent tables are parameters, as the calls of a plan take them: of a struct the contract would have to say that its
    // references stay the same.
    fn grow_tree(
        &self,
        tree: Tree,
        records: &[Record],
        nodes: &mut [Node],
        work: &mut [u32],
    ) -> Option<Branch>
        ensures { (f : Selection) → Built self.now.pins f records.now tree → Grows self.now.pins nodes.old work.old self.now.lines (view_of self.now.pins (order_of self.now) f) nodes.new result }
    {
        let subject = Subject {
            tree,
            records,
            order: self.order(),
        };
        draw_root(subject, nodes, work, self.pins, &self.lines)
    }
}

impl OpenPlan {
    // Puts the selection of a source on an empty line.
    pub fn draw<S: Source>(
        &mut self,
        source: &S,
        line: u8,
        nodes: &mut [Node],
        records: &mut [Record],
        work: &mut [u32],
    ) -> Result<(), Fault>
        ensures { Did self.old.header nodes.old (draw line (S.Source.width source.now) (codes S.Of.End.code (S.Source.selection source.now)) (length nodes.old) (length records.old) (length work.old)) result self.new.header nodes.new }
    {
        let line = self
            .header
            .check_draw(source.pins(), line, nodes.len(), work.len())?;
        self.header.check_vacant(line)?;
        let tree = build(source, records)?;
        let root = self.header.grow_tree(tree, records, nodes, work);
        self.header
            .settle(line, root, &mut Marking::over(nodes, work))
    }
}
