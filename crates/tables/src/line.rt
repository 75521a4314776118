use model::Branch;

// A line is empty, or holds the root of a diagram.
// Lines go about with the pins of their order beside them: a struct of both would be made anew of a plan's header at each
// call.
pub type Line = Option<Branch>;
