ghost use Rattle.tables.specs.Additions.{KeepsLoans};
ghost use Rattle.growths.specs.Growths.{StrapsIn, Past};

use model::Branch;
use tables::adding::Growing;
use tables::reading::is_end;

// A branch with the pin at the place `at` set low or high, where the places of `branch` are `place` and later.
// None where no slot is left.
pub fn restrict(
    growing: &mut Growing,
    place: u8,
    at: u8,
    high: bool,
    branch: Branch,
) -> Option<Branch>
    ensures loans { KeepsLoans growing.old growing.new }
    ensures set { StrapsIn at high place branch growing.old growing.new result }
    ensures past { Past at place branch growing.old.nodes.now growing.old.marks.now growing.old.index.now growing.new.nodes.now growing.new.marks.now growing.new.index.now result }
{
    if at < place || place >= growing.pins || is_end(branch) {
        return Some(branch);
    }
    if place == at {
        return Some(growing.step(place, high, branch));
    }
    let low_side = growing.step(place, false, branch);
    let high_side = growing.step(place, true, branch);
    let low = restrict(growing, place + 1, at, high, low_side)?;
    // The branch does not ask the pin of this place.
    if low_side == high_side {
        return Some(low);
    }
    let up = restrict(growing, place + 1, at, high, high_side)?;
    growing.node_for(place, low, up)
}
