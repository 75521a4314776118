// Draws of map files with their layers, a generic function for each, one below the other.
ghost use Rattle.std.specs.Prelude.{length};
ghost use Rattle.ends.specs.Codes.{bit_code};
ghost use Rattle.plans.specs.Plain.{draw};
ghost use Rattle.rows.specs.Rows.{KeepsLoans};
ghost use Rattle.trees.specs.Mixed.{codes};
ghost use Rattle.workbench.specs.Drawings.{mount_told, mount_pins, mount_ends, layers_told, layers_pins, layers_ends, inverted_if, map_told, draw_call, Drew};

use ends::end::End;
use faults::fault::Fault;
use plans::open::OpenPlan;
use readers::bit_file::BitFile;
use readers::range_file::RangeFile;
use readers::setting_file::SettingFile;
use rows::lent::Tables;
use scripts::request::{Layers, Map, Mount};
use sources::flipped::Flipped;
use sources::inverted::Inverted;
use sources::mounted::Mounted;
use sources::source::Source;

fn draw_mounted<S: Source + Drop>(
    plan: &mut OpenPlan,
    source: S,
    mounted: Option<Mount<S::Of>>,
    line: u8,
    tables: &mut Tables,
) -> Result<(), Fault>
    ensures loans { KeepsLoans tables.old tables.new }
    ensures drew { Drew (mount_told mounted (S.Source.width source)) plan.old.header tables.old.nodes.now (draw line (mount_pins mounted (S.Source.width source)) (codes S.Of.End.code (mount_ends mounted (S.Source.width source) (S.Source.selection source))) (length tables.old.nodes.now) (length tables.old.records.now) (length tables.old.work.now)) result plan.new.header tables.new.nodes.now }
{
    match mounted {
        Some(mount) => {
            let source = Mounted::new(source, mount.pins, mount.base, mount.fill)?;
            plan.draw(&source, line, tables.nodes, tables.records, tables.work)
        }
        None => plan.draw(&source, line, tables.nodes, tables.records, tables.work),
    }
}

fn draw_layered<S: Source + Drop>(
    plan: &mut OpenPlan,
    source: S,
    layers: Layers<S::Of>,
    line: u8,
    tables: &mut Tables,
) -> Result<(), Fault>
    ensures loans { KeepsLoans tables.old tables.new }
    ensures drew { Drew (layers_told layers (S.Source.width source)) plan.old.header tables.old.nodes.now (draw line (layers_pins layers (S.Source.width source)) (codes S.Of.End.code (layers_ends layers (S.Source.width source) (S.Source.selection source))) (length tables.old.nodes.now) (length tables.old.records.now) (length tables.old.work.now)) result plan.new.header tables.new.nodes.now }
{
    match layers.flipped {
        Some(mask) => {
            let source = Flipped::new(source, mask)?;
            draw_mounted(plan, source, layers.mounted, line, tables)
        }
        None => draw_mounted(plan, source, layers.mounted, line, tables),
    }
}

fn draw_bits<S: Source<Of = bool> + Drop>(
    plan: &mut OpenPlan,
    source: S,
    inverted: bool,
    layers: Layers<bool>,
    line: u8,
    tables: &mut Tables,
) -> Result<(), Fault>
    ensures loans { KeepsLoans tables.old tables.new }
    ensures drew { Drew (layers_told layers (S.Source.width source)) plan.old.header tables.old.nodes.now (draw line (layers_pins layers (S.Source.width source)) (codes bit_code (layers_ends layers (S.Source.width source) (inverted_if inverted (S.Source.selection source)))) (length tables.old.nodes.now) (length tables.old.records.now) (length tables.old.work.now)) result plan.new.header tables.new.nodes.now }
{
    if inverted {
        let source = Inverted::new(source);
        draw_layered(plan, source, layers, line, tables)
    } else {
        draw_layered(plan, source, layers, line, tables)
    }
}

// Draws a map on a line, unless its file or a layer refuses.
pub(crate) fn draw_map(
    plan: &mut OpenPlan,
    map: Map,
    bytes: &[u8],
    line: u8,
    tables: &mut Tables,
) -> Result<(), Fault>
    ensures loans { KeepsLoans tables.old tables.new }
    ensures drew { Drew (map_told map bytes.now) plan.old.header tables.old.nodes.now (draw_call line map bytes.now (length tables.old.nodes.now) (length tables.old.records.now) (length tables.old.work.now)) result plan.new.header tables.new.nodes.now }
{
    match map {
        Map::Bits { inverted, layers } => {
            let source = BitFile::read(bytes)?;
            draw_bits(plan, source, inverted, layers, line, tables)
        }
        Map::Settings { layers } => {
            let source = SettingFile::read(bytes)?;
            draw_layered(plan, source, layers, line, tables)
        }
        Map::Ranges { inverted, layers } => {
            let source = RangeFile::read(bytes)?;
            draw_bits(plan, source, inverted, layers, line, tables)
        }
    }
}
