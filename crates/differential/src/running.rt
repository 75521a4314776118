// Calls made on a plan. The tables are three parameters: of a `Tables` made of parts of the bench's the borrow checker does
// not know enough.
use crate::call::{Call, Told};
use crate::drawing::{Drawing, Map};
use faults::fault::Fault;
use model::Node;
use plans::open::OpenPlan;
use readers::bit_file::Bits;
use readers::kind::Kind;
use readers::map_file::MapFile;
use readers::range_file::Ranges;
use readers::setting_file::Settings;
use sources::flipped::Flipped;
use sources::inverted::Inverted;
use sources::mounted::Mounted;
use sources::source::Source;
use std::alloc::{AllocError, Global};
use trees::tree::Record;
use workbench::joining::join;

// A source with the last layer over it.
fn draw_turned<S: Source>(
    plan: &mut OpenPlan,
    source: &S,
    drawing: &Drawing,
    line: u8,
    nodes: &mut [Node],
    records: &mut [Record],
    work: &mut [u32],
) -> Result<(), Fault> {
    match drawing.turned {
        None => plan.draw(source, line, nodes, records, work),
        Some(mask) => {
            let turned = Flipped::new(source, mask)?;
            plan.draw(&turned, line, nodes, records, work)
        },
    }
}

// A source with all layers over it that any source can have; the fill as an end.
fn draw_layers<S: Source>(
    plan: &mut OpenPlan,
    source: &S,
    drawing: &Drawing,
    fill: S::Of,
    line: u8,
    nodes: &mut [Node],
    records: &mut [Record],
    work: &mut [u32],
) -> Result<(), Fault> {
    match (drawing.flipped, drawing.mounted) {
        (None, None) => draw_turned(plan, source, drawing, line, nodes, records, work),
        (Some(mask), None) => {
            let flipped = Flipped::new(source, mask)?;
            draw_turned(plan, &flipped, drawing, line, nodes, records, work)
        },
        (None, Some(mount)) => {
            let mounted = Mounted::new(source, mount.pins, mount.base, fill)?;
            draw_turned(plan, &mounted, drawing, line, nodes, records, work)
        },
        (Some(mask), Some(mount)) => {
            let flipped = Flipped::new(source, mask)?;
            let mounted = Mounted::new(flipped, mount.pins, mount.base, fill)?;
            draw_turned(plan, &mounted, drawing, line, nodes, records, work)
        },
    }
}

fn fill_code(drawing: &Drawing) -> u8 {
    match drawing.mounted {
        Some(mount) => mount.fill,
        None => 0,
    }
}

fn draw_bits<K: Kind<Of = bool>>(
    plan: &mut OpenPlan,
    bytes: &[u8],
    inverted: bool,
    drawing: &Drawing,
    line: u8,
    nodes: &mut [Node],
    records: &mut [Record],
    work: &mut [u32],
) -> Result<(), Fault> {
    let file = MapFile::<K>::read(bytes)?;
    let fill = K::end(fill_code(drawing));
    if inverted {
        let source = Inverted::new(&file);
        draw_layers(plan, &source, drawing, fill, line, nodes, records, work)
    } else {
        draw_layers(plan, &file, drawing, fill, line, nodes, records, work)
    }
}

fn draw_settings(
    plan: &mut OpenPlan,
    bytes: &[u8],
    drawing: &Drawing,
    line: u8,
    nodes: &mut [Node],
    records: &mut [Record],
    work: &mut [u32],
) -> Result<(), Fault> {
    let file = MapFile::<Settings>::read(bytes)?;
    let fill = Settings::end(fill_code(drawing));
    draw_layers(plan, &file, drawing, fill, line, nodes, records, work)
}

fn draw(
    plan: &mut OpenPlan,
    bytes: &[u8],
    drawing: &Drawing,
    line: u8,
    nodes: &mut [Node],
    records: &mut [Record],
    work: &mut [u32],
) -> Result<(), Fault> {
    match drawing.map {
        Map::Bits { inverted, .. } => {
            draw_bits::<Bits>(plan, bytes, inverted, drawing, line, nodes, records, work)
        },
        Map::Ranges { inverted, .. } => {
            draw_bits::<Ranges>(plan, bytes, inverted, drawing, line, nodes, records, work)
        },
        Map::Settings { .. } => draw_settings(plan, bytes, drawing, line, nodes, records, work),
    }
}

// Makes the call, and hands back what it tells.
pub fn run(
    heap: Global,
    plan: &mut OpenPlan,
    call: &Call,
    nodes: &mut [Node],
    records: &mut [Record],
    work: &mut [u32],
) -> Result<Result<Told, Fault>, AllocError> {
    Ok(match call {
        Call::Draw { drawing, line } => {
            let bytes = drawing.map.bytes(heap, drawing.pins)?;
            draw(plan, &bytes, drawing, *line, nodes, records, work).map(|_| Told::Done)
        },
        Call::Join {
            how,
            left,
            right,
            line,
        } => join(plan, *how, *left, *right, *line, nodes, work).map(|_| Told::Done),
        Call::Strap {
            from,
            pin,
            high,
            line,
        } => plan
            .strap(*from, *pin, *high, *line, nodes, work)
            .map(|_| Told::Done),
        Call::Erase { line } => plan.erase(nodes, work, *line).map(|_| Told::Done),
        Call::Read { line, address } => plan.read(nodes, *line, *address).map(Told::Code),
        Call::Same { left, right } => plan.same(*left, *right).map(Told::Same),
        Call::Count { line } => plan.count(nodes, work, *line).map(Told::Count),
    })
}
