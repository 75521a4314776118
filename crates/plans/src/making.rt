ghost use Rattle.std.specs.Prelude.{◌≡◌, length, Some, MatchResult};
ghost use Rattle.plans.specs.Holding.{Made};
ghost use Rattle.plans.specs.Plain.{make_told};

use crate::header::{Header, Usage};
use crate::open::OpenPlan;
use crate::order::{check_order, padded};
use faults::fault::{Fault, Ground};
use model::{MOST_PINS, Node};
use tables::indexing::MOST_NODES;
use tables::line::Line;

impl OpenPlan {
    // A plan of this order over a node table of this length, with empty lines.
    pub fn new(order: &[u8], nodes: &[Node]) -> Result<OpenPlan, Fault>
        ensures { MatchResult result (λ plan. Made order.now nodes.now plan.header) (λ f. make_told order.now (length nodes.now) ≡ Some f) }
    {
        let pins = order.len();
        if !(1..=MOST_PINS).contains(&pins) {
            return Err(Ground::OrderLength.at(pins));
        }
        check_order(order)?;
        let size = nodes.len();
        if !(1..=MOST_NODES).contains(&size) {
            return Err(Ground::NodeTable.at(size));
        }
        let header = Header {
            order: padded(order),
            pins: pins as u8,
            lines: [None; 32],
            size,
            usage: Usage { used: 0 },
        };
        Ok(OpenPlan::over(header))
    }
}
