ghost use Rattle.std.specs.Prelude.{Some};
ghost use Rattle.quotes.specs.Lines.{line_text};

use std::fmt;

// The number of nodes of line 0, for which the price is asked.
#[derive(Clone, Copy, PartialEq, Eq, Debug)]
pub struct Price {
    pub nodes: u16,
}

impl fmt::Display for Price {
    ghost output = { λ p. Some (line_text p.nodes) };

    fn fmt<W: fmt::Write>(&self, f: &mut fmt::Formatter<W>) -> fmt::Result {
        let nodes = self.nodes;
        write!(f, "LINE 0 NODES {nodes}")
    }
}
