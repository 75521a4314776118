// What the computed definitions come to, in the words of the rules.
ghost use Rattle.files.specs.Theorems.{AcceptedWhenObeyed, CoveredIsInside, LastIsTold};

// Bytes have no fault exactly when they obey the layout and the rules of the entries.
#[tactic(auto, using(crate::proofs::Obeying::obeys, crate::proofs::Obeying::obeyed))]
pub fn accepted_exactly_when_obeyed()
    ensures { AcceptedWhenObeyed }
{}

// The entry whose end an address has is the last one at or below it.
pub fn last_entry_is_told()
    ensures { LastIsTold }
{}

// An address is covered exactly when a range has it between its first and its last address.
#[tactic(auto, using(crate::proofs::Covers::covered_told))]
pub fn covered_is_inside_a_range()
    ensures { CoveredIsInside }
{}
