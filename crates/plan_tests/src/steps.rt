// Calls on a plan, with the pattern of a truth table in place of a source.
use crate::truth::SETTINGS;
use faults::fault::Fault;
use map_tests::samples::{bit_file, setting_file};
use map_tests::truth::{bits, settings};
use model::Node;
use plans::open::OpenPlan;
use readers::bit_file::Bits;
use readers::kind::Kind;
use readers::map_file::MapFile;
use readers::setting_file::Settings;
use scripts::request::How;
use std::alloc::{AllocError, Global};
use trees::tree::Record;
use workbench::joining::join;

// A call as a value, so that rows of calls are tables. A draw has the pattern of a table of the plan's pins, or no
// table but another number of pins. The line that is written comes last.
#[derive(Clone, Copy)]
pub enum Step {
    Bits(u64, u8),
    Settings(u64, u8),
    Other(usize, u8),
    Join(How, u8, u8, u8),
    Strap(u8, u8, bool, u8),
    Erase(u8),
    Read(u8, u32),
    Same(u8, u8),
    Count(u8),
}

// A map file of any kind on a line.
fn draw<K: Kind>(
    plan: &mut OpenPlan,
    bytes: &[u8],
    d: u8,
    nodes: &mut [Node],
    records: &mut [Record],
    work: &mut [u32],
) -> Result<(), Fault> {
    plan.draw(&MapFile::<K>::over(bytes), d, nodes, records, work)
}

// Makes the call on a plan of so many pins, and hands back its refusal. The tables are three parameters: a
// `Tables` of parts of the bench's was tried, and the borrow checker does not cover it.
pub fn run(
    heap: Global,
    step: Step,
    pins: usize,
    plan: &mut OpenPlan,
    nodes: &mut [Node],
    records: &mut [Record],
    work: &mut [u32],
) -> Result<Option<Fault>, AllocError> {
    Ok(match step {
        Step::Bits(pattern, d) => {
            let bytes = bit_file(heap, pins, &bits::<16>(pins, pattern))?;
            draw::<Bits>(plan, &bytes, d, nodes, records, work).err()
        }
        Step::Settings(pattern, d) => {
            let bytes = setting_file(heap, pins, &settings::<16>(&SETTINGS, pins, pattern))?;
            draw::<Settings>(plan, &bytes, d, nodes, records, work).err()
        }
        Step::Other(pins, d) => {
            let bytes = bit_file(heap, pins, &[0; 16])?;
            draw::<Bits>(plan, &bytes, d, nodes, records, work).err()
        }
        Step::Join(how, a, b, d) => join(plan, how, a, b, d, nodes, work).err(),
        Step::Strap(a, pin, high, d) => plan.strap(a, pin, high, d, nodes, work).err(),
        Step::Erase(d) => plan.erase(nodes, work, d).err(),
        Step::Read(a, address) => plan.read(nodes, a, address).err(),
        Step::Same(a, b) => plan.same(a, b).err(),
        Step::Count(a) => plan.count(nodes, work, a).err(),
    })
}
