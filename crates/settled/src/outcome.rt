use faults::fault::Fault;

// What the calls of an example told.
#[derive(Clone, Copy)]
pub struct Outcome {
    pub used: u16,
    pub refusal: Option<Fault>,
    pub used_then: u16,
}
