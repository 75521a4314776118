ghost use Rattle.std.specs.Prelude.{◌≡◌, ◌<◌, None, IfOk};
ghost use Rattle.plans.specs.Plain.{no_line};
ghost use Rattle.plans.specs.Results.{refusal};

use faults::fault::{Fault, Ground};

// Lines are numbered from 0 to 31.
#[derive(Clone, Copy)]
pub(crate) struct LineNumber {
    pub(crate) number: u8,
    ghost inside: { number < 32 },
}

impl LineNumber {
    pub(crate) fn new(line: u8) -> Result<LineNumber, Fault>
        ensures told { refusal result ≡ no_line line None }
        ensures same { IfOk result (λ at. at.number ≡ line) }
    {
        if line > 31 {
            return Err(Ground::NoLine.at(usize::from(line)));
        }
        Ok(LineNumber { number: line })
    }
}
