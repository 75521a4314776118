ghost use Rattle.std.specs.Prelude.{◌≡◌, None};
ghost use Rattle.workbench.specs.Desks.{stage_pins, stage_nodes};
ghost use Rattle.workbench.specs.declared.desk.Stage.TheVariants.{Bare};

use crate::sheet::Sheet;
use plans::issued::IssuedPlan;
use plans::open::OpenPlan;

// How long the tree table and the work are that calls are handed.
#[derive(Clone, Copy)]
pub struct Lengths {
    pub records: usize,
    pub work: usize,
}

// A plan and its sheet are two fields: one struct of both would be generic in the plan's state, for these two uses.
#[derive(Drop)]
pub enum Stage {
    Bare,
    Open { plan: OpenPlan, sheet: Sheet },
    Issued { plan: IssuedPlan, sheet: Sheet },
}

// What a script is carried out on: no plan yet, an open one or an issued one; and the lengths of the tables, if they
// were set.
#[derive(Drop)]
pub struct Desk {
    pub(crate) stage: Stage,
    pub(crate) lengths: Option<Lengths>,
}

impl Stage {
    // How many pins and nodes the plan has; 0 of each where there is none, since then no table is looked at.
    pub(crate) fn sheet(&self) -> Sheet
        ensures pins { result.pins ≡ stage_pins self.now }
        ensures nodes { result.nodes ≡ stage_nodes self.now }
    {
        match self {
            Stage::Bare => Sheet { pins: 0, nodes: 0 },
            Stage::Open { sheet, .. } | Stage::Issued { sheet, .. } => *sheet,
        }
    }
}

impl Desk {
    // A desk with no plan.
    pub fn bare() -> Desk
        ensures stage { result.stage ≡ Bare }
        ensures lengths { result.lengths ≡ None }
    {
        Desk {
            stage: Stage::Bare,
            lengths: None,
        }
    }
}
