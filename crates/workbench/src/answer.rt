ghost use Rattle.std.specs.Prelude.{Some};
ghost use Rattle.workbench.specs.Lines.{line, misplaced};

use faults::fault::Fault;
use std::fmt;

// What a call answers.
#[derive(Clone, Copy, PartialEq, Eq, Debug)]
pub enum Answer {
    Done,
    Refused(Fault),
    Code(u16),
    Same(bool),
    Used(u16),
    Nodes { line: u8, nodes: u16 },
    Listing(usize),
}

// Why a desk has no place for a call.
#[derive(Clone, Copy, PartialEq, Eq, Debug)]
pub enum Misplaced {
    Bare,
    Open,
    Issued,
    FewNodes,
}

impl fmt::Display for Answer {
    ghost output = { λ a. Some (line a) };

    fn fmt<W: fmt::Write>(&self, f: &mut fmt::Formatter<W>) -> fmt::Result {
        match self {
            Answer::Done => write!(f, "OK"),
            Answer::Refused(fault) => write!(f, "{fault}"),
            Answer::Code(code) => write!(f, "CODE {code}"),
            Answer::Same(true) => write!(f, "SAME yes"),
            Answer::Same(false) => write!(f, "SAME no"),
            Answer::Used(used) => write!(f, "USED {used}"),
            Answer::Nodes { line, nodes } => write!(f, "LINE {line} NODES {nodes}"),
            Answer::Listing(len) => write!(f, "LISTING {len} BYTES"),
        }
    }
}

impl fmt::Display for Misplaced {
    ghost output = { λ m. Some (misplaced m) };

    fn fmt<W: fmt::Write>(&self, f: &mut fmt::Formatter<W>) -> fmt::Result {
        match self {
            Misplaced::Bare => write!(f, "there is no plan"),
            Misplaced::Open => write!(f, "the plan is open"),
            Misplaced::Issued => write!(f, "the plan is issued"),
            Misplaced::FewNodes => write!(f, "fewer nodes are there"),
        }
    }
}
