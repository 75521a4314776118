// Calls as values, what is lent to them, and what they tell.
use crate::drawing::Drawing;
use scripts::request::How;

#[derive(Drop, Debug)]
pub enum Call {
    Draw {
        drawing: Drawing,
        line: u8,
    },
    Join {
        how: How,
        left: u8,
        right: u8,
        line: u8,
    },
    Strap {
        from: u8,
        pin: u8,
        high: bool,
        line: u8,
    },
    Erase {
        line: u8,
    },
    Read {
        line: u8,
        address: u32,
    },
    Same {
        left: u8,
        right: u8,
    },
    Count {
        line: u8,
    },
}

// Calls by name, for the tally.
#[derive(Clone, Copy, PartialEq, Eq, Debug)]
pub enum Name {
    Make,
    Draw,
    Join,
    Strap,
    Erase,
    Read,
    ReadIssued,
    Same,
    Count,
    List,
}

impl Call {
    pub fn name(&self) -> Name {
        match self {
            Call::Draw { .. } => Name::Draw,
            Call::Join { .. } => Name::Join,
            Call::Strap { .. } => Name::Strap,
            Call::Erase { .. } => Name::Erase,
            Call::Read { .. } => Name::Read,
            Call::Same { .. } => Name::Same,
            Call::Count { .. } => Name::Count,
        }
    }
}

// What a call tells that is not refused.
#[derive(Clone, Copy, PartialEq, Eq, Debug)]
pub enum Told {
    Done,
    Code(u16),
    Same(bool),
    Count(u16),
}
