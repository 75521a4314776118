use ends::setting::Setting;

// A joining, by its name.
#[derive(Clone, Copy, PartialEq, Eq, Debug)]
pub enum How {
    Both,
    Either,
    Differ,
    Overlay,
}

// Where a source is mounted, with the end of all other addresses.
#[derive(Clone, Copy)]
pub struct Mount<E> {
    pub pins: u32,
    pub base: u32,
    pub fill: E,
}

// The layers that any source may have: first its pins are flipped, then it is mounted.
#[derive(Clone, Copy)]
pub struct Layers<E> {
    pub flipped: Option<u32>,
    pub mounted: Option<Mount<E>>,
}

// How a map file is read, and the layers over it.
#[derive(Clone, Copy)]
pub enum Map {
    Bits {
        inverted: bool,
        layers: Layers<bool>,
    },
    Settings {
        layers: Layers<Setting>,
    },
    Ranges {
        inverted: bool,
        layers: Layers<bool>,
    },
}

// A call on a plan. Files are named by the bytes of their names.
#[derive(Drop)]
pub enum Call {
    Draw {
        line: u8,
        map: Map,
        file: Vec<u8>,
    },
    Join {
        how: How,
        left: u8,
        right: u8,
        line: u8,
    },
    Strap {
        from: u8,
        pin: u8,
        high: bool,
        line: u8,
    },
    Erase {
        line: u8,
    },
    Read {
        line: u8,
        address: u32,
    },
    Same {
        left: u8,
        right: u8,
    },
    Used,
    Count {
        line: u8,
    },
    Issue,
    Reopen,
    List {
        file: Option<Vec<u8>>,
    },
}

// What a line asks for: a new plan, the lengths of the tables that later calls are handed, or a call.
#[derive(Drop)]
pub enum Request {
    Plan { nodes: usize, order: Vec<u8> },
    Tables { records: usize, work: usize },
    Call(Call),
}
