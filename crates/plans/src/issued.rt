use crate::plan::Plan;

#[derive(Clone, Copy)]
pub struct Issued;

// A plan that can be listed.
pub type IssuedPlan = Plan<Issued>;
