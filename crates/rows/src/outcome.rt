use plans::open::OpenPlan;

// What a row comes to: the plan, its used number, and the count of each line, or nothing where it is refused.
#[derive(Drop)]
pub struct Outcome {
    pub plan: OpenPlan,
    pub used: u16,
    pub counts: [Option<u16>; 32],
}
