ghost use Rattle.std.specs.Prelude.{◌≡◌};
ghost use Rattle.model.specs.Diagrams.{code};
ghost use Rattle.tables.specs.Additions.{KeepsLoans};
ghost use Rattle.growths.specs.Codes.{code_join};
ghost use Rattle.growths.specs.Growths.{JoinsIn};

use ends::end::End;
use ends::joining::{Joining, join_codes};
use model::Branch;
use tables::adding::Growing;
use tables::reading::{code_of, is_end};

// The code that the joining gives the codes of two branches; 0 where its kind does not decode both.
fn joined_code<J: Joining>(joining: &J, a: Branch, b: Branch) -> u16
    ensures { result ≡ code_join J.Of.End.decoded J.Of.End.code J.Joining.joined (code a) (code b) }
{
    join_codes(joining, code_of(a), code_of(b)).unwrap_or(0)
}

// A branch for the join of two branches, whose places are `place` and later. None where no slot is left.
pub fn apply<J: Joining>(
    joining: &J,
    growing: &mut Growing,
    place: u8,
    a: Branch,
    b: Branch,
) -> Option<Branch>
    ensures loans { KeepsLoans growing.old growing.new }
    ensures joins { JoinsIn (code_join J.Of.End.decoded J.Of.End.code J.Joining.joined) place a b growing.old growing.new result }
{
    if place >= growing.pins || (is_end(a) && is_end(b)) {
        return Some(Branch::End(joined_code(joining, a, b)));
    }
    let low_a = growing.step(place, false, a);
    let low_b = growing.step(place, false, b);
    let high_a = growing.step(place, true, a);
    let high_b = growing.step(place, true, b);
    let low = apply(joining, growing, place + 1, low_a, low_b)?;
    // Neither branch asks the pin.
    if low_a == high_a && low_b == high_b {
        return Some(low);
    }
    let high = apply(joining, growing, place + 1, high_a, high_b)?;
    growing.node_for(place, low, high)
}
