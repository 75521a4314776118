ghost use Rattle.std.specs.Prelude.{◌≡◌, ◌≤◌};
ghost use Rattle.quotes.specs.Quotes.{Drawn, Quoted, address_order};

use faults::fault::Fault;
use model::Node;
use plans::open::OpenPlan;
use readers::bit_file::BitFile;
use sources::source::Source;
use trees::tree::Record;

const ADDRESS_ORDER: [u8; 20] = [
    0, 1, 2, 3, 4, 5, 6, 7, 8, 9, 10, 11, 12, 13, 14, 15, 16, 17, 18, 19,
];

// The first pins, each in its place.
fn address_order(pins: usize) -> &'static [u8]
    ensures { pins ≤ 20 → result.now ≡ address_order pins }
{
    ADDRESS_ORDER.get(0..pins).unwrap_or(&ADDRESS_ORDER)
}

// The nodes of a map on line 0 of a new plan in address order.
fn quote_map(map: &BitFile) -> Result<u16, Fault>
    ensures { Drawn map.now.bytes.now result }
{
    let mut nodes = [Node::blank(); 128];
    let mut records = [Record::blank(); 512];
    let mut work = [0; 6760];
    let mut plan = OpenPlan::new(address_order(map.pins() as usize), &nodes)?;
    plan.draw(map, 0, &mut nodes, &mut records, &mut work)?;
    plan.count(&nodes, &mut work, 0)
}

// The nodes of the map in a switch file of bits, drawn with 128 nodes, 512 tree records and work for 12 pins.
pub fn quote(bytes: &[u8]) -> Result<u16, Fault>
    ensures { Quoted bytes.now result }
{
    quote_map(&BitFile::read(bytes)?)
}
