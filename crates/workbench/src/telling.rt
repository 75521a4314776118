// Answers of what a plan told.
ghost use Rattle.std.specs.Prelude.{◌≡◌, MatchResult};
ghost use Rattle.std.specs.Result.{ForOk};
ghost use Rattle.workbench.specs.declared.answer.Answer.TheVariants.{Refused};

use crate::answer::Answer;
use faults::fault::Fault;

// The answer made of a value, or the refusal.
pub(crate) fn answered<T, F: FnOnce(T) -> Answer>(told: Result<T, Fault>, value: F) -> Answer
    requires { ForOk told (F.pre value) }
    ensures { MatchResult told (λ x. F.post value x result) (λ f. result ≡ Refused f) }
{
    told.map_or_else(|fault| Answer::Refused(fault), value)
}
