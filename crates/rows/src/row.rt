ghost use Rattle.std.specs.Prelude.{List, [], ◌++◌};
ghost use Rattle.plans.specs.Plain.{Call};
ghost use Rattle.rows.specs.Rows.{Lent, whole, KeepsLoans, Ran};

use crate::lent::Tables;
use plans::open::OpenPlan;

// A row of calls on one plan, with the tables that are lent to it.
pub trait Row {
    // The calls, with tables of these lengths.
    ghost calls: { Self → Lent → List Call };

    // Makes the calls one after the other, refused ones in their places.
    fn run(&self, plan: &mut OpenPlan, tables: &mut Tables)
        ensures loans { KeepsLoans tables.old tables.new }
        ensures ran { Ran plan.old.header tables.old.nodes.now (calls self.now (whole tables.old)) plan.new.header tables.new.nodes.now };
}

// No call.
impl Row for () {
    ghost calls = { λ _ _. [] };

    fn run(&self, _plan: &mut OpenPlan, _tables: &mut Tables) {}
}

// One row and then another.
impl<A: Row, B: Row> Row for (A, B) {
    ghost calls = { λ r l. A.Row.calls r.0 l ++ B.Row.calls r.1 l };

    #[tactic(auto, using(crate::proofs::Running::ran_both))]
    fn run(&self, plan: &mut OpenPlan, tables: &mut Tables) {
        self.0.run(plan, tables);
        self.1.run(plan, tables);
    }
}

// A row that is lent is a row.
impl<'a, A: Row> Row for &'a A {
    ghost calls = { λ r. A.Row.calls r.now };

    fn run(&self, plan: &mut OpenPlan, tables: &mut Tables) {
        (**self).run(plan, tables);
    }
}
