use crate::plan::Plan;

#[derive(Clone, Copy)]
pub struct Open;

// A plan that can be drawn on.
// Each call is lent just the tables that it uses, a form that the project asks for, so that nodes, records and work are
// parameters.
pub type OpenPlan = Plan<Open>;
