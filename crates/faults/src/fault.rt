ghost use Rattle.std.specs.Prelude.{◌≡◌};
ghost use Rattle.faults.specs.Grounds.{number, layer_of};
ghost use Rattle.faults.specs.Refusals.{at};

// Why a call refuses. The numbers are the product's own, and are tried in rising order.
#[derive(Clone, Copy, PartialEq, Eq, Debug)]
pub enum Ground {
    TooShort = 1,
    Mark = 2,
    Version = 3,
    Kind = 4,
    Pins = 5,
    Count = 6,
    Trailing = 7,
    AddressAbove = 8,
    AddressOrder = 9,
    NoCode = 10,
    SameEnd = 11,
    OrderLength = 12,
    OrderPin = 13,
    SourcePins = 14,
    NoLine = 15,
    StrapPin = 16,
    ReadAddress = 17,
    NodeTable = 18,
    Work = 19,
    SourceLayer = 20,
    LineEmpty = 21,
    LineTaken = 22,
    Undecoded = 23,
    TreeTable = 24,
    Parts = 25,
    Buffer = 26,
}

// What a refusal speaks of: the fields of a file, its entries, or a plan and the layers over sources.
#[derive(Clone, Copy, PartialEq, Eq, Debug)]
pub enum Layer {
    File,
    Entry,
    Plan,
}

// A refusal. The place is a byte offset, an entry or the offending number, by the ground.
#[derive(Clone, Copy, PartialEq, Eq, Debug)]
pub struct Fault {
    pub ground: Ground,
    pub layer: Layer,
    pub place: usize,
}

impl Ground {
    pub fn number(self) -> u8
        ensures { result ≡ number self }
    {
        self as u8
    }

    pub fn layer(self) -> Layer
        ensures { result ≡ layer_of self }
    {
        match self {
            Ground::TooShort
            | Ground::Mark
            | Ground::Version
            | Ground::Kind
            | Ground::Pins
            | Ground::Count
            | Ground::Trailing => Layer::File,
            Ground::AddressAbove | Ground::AddressOrder | Ground::NoCode | Ground::SameEnd => {
                Layer::Entry
            }
            _ => Layer::Plan,
        }
    }

    // The refusal on this ground at a place.
    pub fn at(self, place: usize) -> Fault
        ensures { result ≡ at self place }
    {
        Fault {
            ground: self,
            layer: self.layer(),
            place,
        }
    }
}
