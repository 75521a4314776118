ghost use Rattle.std.specs.Prelude.{◌≡◌, true, false, [], ◌∷◌, Ok};
ghost use Rattle.sources.specs.declared.source.Answer.TheVariants.{All};
ghost use Rattle.sources.specs.Examples.{MountSettles};
ghost use Rattle.sources.specs.Laws.{AnswersDetermined, FlipsByMask, MountsAtBase, RefusalsExact};

use crate::block::Block;
use crate::mounted::Mounted;
use crate::source::{Answer, Source};
use ends::end::End;
use faults::fault::Fault;

// Of any block of any selection, just one of the three answers is true.
pub fn answers_are_determined<E: End>()
    ensures { AnswersDetermined E }
{}

// What inverted pins and a mount do at each address, where their makers do not refuse.
pub fn layers_are_exact<E: End>()
    ensures flips { FlipsByMask E }
    ensures mounts { MountsAtBase E }
{}

// The makers refuse just the layers that have no meaning, on ground 20, at the mask, the pins or the base.
pub fn refusals_are_exact()
    ensures { RefusalsExact }
{}

// One pin with the ends 0 1, mounted in 2 pins at base 1 with fill 0, has the ends 0 0 0 1.
pub fn mount_settles()
    ensures { MountSettles }
{}

// The same by calls: any source of that selection, mounted so, answers so at each address.
pub fn mount_of_one_pin<S: Source<Of = bool> + Drop>(one: S) -> Result<[Answer<bool>; 4], Fault>
    ensures { S.Source.width one ≡ 1 → S.Source.selection one 0 ≡ false → S.Source.selection one 1 ≡ true → result ≡ Ok (All false ∷ All false ∷ All false ∷ All true ∷ []) }
{
    let two = Mounted::new(one, 2, 1, false)?;
    // Written out one by one, as the contract names the four answers.
    Ok([
        two.ask(Block {
            level: 2,
            number: 0,
        }),
        two.ask(Block {
            level: 2,
            number: 1,
        }),
        two.ask(Block {
            level: 2,
            number: 2,
        }),
        two.ask(Block {
            level: 2,
            number: 3,
        }),
    ])
}
