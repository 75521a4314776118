ghost use Rattle.std.specs.Prelude.{Some};
ghost use Rattle.faults.specs.Refusals.{letter, refused};

use crate::fault::{Fault, Layer};
use std::fmt;

impl fmt::Display for Layer {
    ghost output = { λ l. Some (letter l) };

    fn fmt<W: fmt::Write>(&self, f: &mut fmt::Formatter<W>) -> fmt::Result {
        match self {
            Layer::File => write!(f, "F"),
            Layer::Entry => write!(f, "M"),
            Layer::Plan => write!(f, "P"),
        }
    }
}

impl fmt::Display for Fault {
    ghost output = { λ x. Some (refused x) };

    fn fmt<W: fmt::Write>(&self, f: &mut fmt::Formatter<W>) -> fmt::Result {
        let number = self.ground.number();
        let layer = self.layer;
        let place = self.place;
        write!(f, "REFUSED {number} {layer} {place}")
    }
}
