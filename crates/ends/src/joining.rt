ghost use Rattle.std.specs.Prelude.{◌≡◌, ◌&&◌, ◌||◌};
ghost use Rattle.ends.specs.Codes.{joined_code, unlike, overlaid};

use crate::end::End;
use crate::setting::Setting;

// A joining makes one end of a left and a right end of its kind, the same for the same pair.
pub trait Joining {
    type Of: End;

    ghost joined: { Self.Of → Self.Of → Self.Of };

    fn join(&self, left: Self::Of, right: Self::Of) -> Self::Of
        ensures { result ≡ joined left right };
}

#[derive(Clone, Copy, PartialEq, Eq, Debug)]
pub struct Both;

#[derive(Clone, Copy, PartialEq, Eq, Debug)]
pub struct Either;

#[derive(Clone, Copy, PartialEq, Eq, Debug)]
pub struct Differ;

#[derive(Clone, Copy, PartialEq, Eq, Debug)]
pub struct Overlay;

impl Joining for Both {
    type Of = bool;

    ghost joined = { ◌&&◌ };

    fn join(&self, left: bool, right: bool) -> bool {
        left & right
    }
}

impl Joining for Either {
    type Of = bool;

    ghost joined = { ◌||◌ };

    fn join(&self, left: bool, right: bool) -> bool {
        left | right
    }
}

impl Joining for Differ {
    type Of = bool;

    ghost joined = { unlike };

    fn join(&self, left: bool, right: bool) -> bool {
        left != right
    }
}

impl Joining for Overlay {
    type Of = Setting;

    ghost joined = { overlaid };

    fn join(&self, left: Setting, right: Setting) -> Setting {
        if (left.chip != 0, left.waits) < (right.chip != 0, right.waits) {
            right
        } else {
            left
        }
    }
}

// The code of what a joining makes of the ends of two codes, where its kind decodes both.
pub fn join_codes<J: Joining>(joining: &J, left: u16, right: u16) -> Option<u16>
    ensures { result ≡ joined_code J.Of.End.decoded J.Of.End.code J.Joining.joined left right }
{
    let left = <J::Of>::decode(left)?;
    let right = <J::Of>::decode(right)?;
    Some(joining.join(left, right).encode())
}
