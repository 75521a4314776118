// Maps and calls for the tests.
use ends::joining::Joining;
use rows::calls::{Draw, Erase, Join};
use rows::hand::Hand;
use sources::source::Source;

// A map of two pins with first end 0 and switches 1 3: the ends 0 1 1 0.
pub const SWITCHES_1_3: [u8; 16] = [0x53, 0x57, 0x4C, 0, 1, 0, 2, 0, 0, 2, 0, 0, 1, 0, 0, 3];

pub fn draw<S: Source>(source: S, line: u8) -> Draw<S> {
    Draw {
        source,
        line,
        hand: Hand::all(),
    }
}

pub fn join<J: Joining>(joining: J, left: u8, right: u8, line: u8) -> Join<J> {
    Join {
        joining,
        left,
        right,
        line,
        hand: Hand::all(),
    }
}

pub fn erase(line: u8) -> Erase {
    Erase {
        line,
        hand: Hand::all(),
    }
}
