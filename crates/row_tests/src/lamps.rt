// Lamps as ends, and a joining of them.
ghost use Rattle.row_tests.specs.Lamps.{lamp_code, lamp_of, brighter};
ghost use Rattle.std.proofs.Common.{rules};

use crate::lamp::{Brighter, Lamp};
use ends::end::End;
use ends::joining::Joining;

impl End for Lamp {
    ghost code = { lamp_code };

    ghost decoded = { lamp_of };

    ghost small = { Prim.search rules };

    ghost back = { Prim.search rules };

    ghost only = { Prim.search rules };

    fn encode(self) -> u16 {
        self as u16
    }

    fn decode(n: u16) -> Option<Lamp> {
        match n {
            0 => Some(Lamp::Off),
            1 => Some(Lamp::Dim),
            2 => Some(Lamp::Bright),
            _ => None,
        }
    }
}

impl Joining for Brighter {
    type Of = Lamp;

    ghost joined = { brighter };

    fn join(&self, left: Lamp, right: Lamp) -> Lamp {
        left.max(right)
    }
}
