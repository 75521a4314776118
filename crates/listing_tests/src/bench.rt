// A plan with its tables, and its listing as text.
use map_tests::building::{bit_map, setting_map};
use model::Node;
use plans::issued::IssuedPlan;
use plans::open::OpenPlan;
use readers::bit_file::Bits;
use readers::kind::Kind;
use readers::map_file::MapFile;
use readers::setting_file::Settings;
use std::alloc::AllocError;
use std::process::Abort;
use std::test::Fail;
use trees::tree::Record;

// What stands in a buffer before a listing.
pub const BEFORE: u8 = 0xA5;

#[derive(Drop)]
pub struct Tables {
    pub nodes: Vec<Node>,
    pub records: Vec<Record>,
    pub work: Vec<u32>,
}

impl Tables {
    // Tables for plans of up to 4 pins and 16 nodes.
    pub fn new(rt: &impl AllocGlobal) -> Result<Tables, AllocError> {
        Ok(Tables {
            nodes: vec![in rt.alloc(); Node::blank(); 16]?,
            records: vec![in rt.alloc(); Record::blank(); 15]?,
            work: vec![in rt.alloc(); 7; 360]?,
        })
    }

    fn draw<K: Kind>(&mut self, plan: &mut OpenPlan, line: u8, bytes: &[u8]) -> Result<(), Fail> {
        plan.draw(
            &MapFile::<K>::read(bytes)?,
            line,
            &mut self.nodes,
            &mut self.records,
            &mut self.work,
        )?;
        Ok(())
    }

    pub fn draw_bits(
        &mut self,
        rt: &impl AllocGlobal,
        plan: &mut OpenPlan,
        line: u8,
        pins: u8,
        switches: &[u32],
    ) -> Result<(), Fail> {
        self.draw::<Bits>(plan, line, &bit_map(rt.alloc(), pins, switches)?)
    }

    pub fn draw_settings(
        &mut self,
        rt: &impl AllocGlobal,
        plan: &mut OpenPlan,
        line: u8,
        pins: u8,
        first: u8,
        switches: &[(u32, u8)],
    ) -> Result<(), Fail> {
        let bytes = setting_map(rt.alloc(), pins, first, switches)?;
        self.draw::<Settings>(plan, line, &bytes)
    }
}

// The bytes of a buffer in upper-case hexadecimal digits.
fn hex(rt: &impl AllocGlobal, bytes: &[u8]) -> Result<String, AllocError> {
    let mut text = String::new(rt.alloc());
    for byte in bytes {
        write!(text, "{byte:02X}")?;
    }
    Ok(text)
}

// The listing, or the refusal, and the buffer after it.
pub fn listed(
    rt: &impl AllocGlobal,
    plan: &IssuedPlan,
    tables: &mut Tables,
    room: usize,
) -> Result<(String, String), AllocError> {
    let mut buffer = vec![in rt.alloc(); BEFORE; room]?;
    let told = match plan.list(&tables.nodes, &mut tables.work, &mut buffer) {
        Ok(length) => format!(in rt.alloc(); "LISTING {length} BYTES")?,
        Err(fault) => fault.to_string(rt.alloc())?,
    };
    Ok((told, hex(rt, &buffer)?))
}

// A listing of this front and these first lines, all other lines empty, and a byte that stood behind it.
fn expected(rt: &impl AllocGlobal, front: &str, lines: &[&str]) -> Result<String, AllocError> {
    let mut text = String::from_str(rt.alloc(), front)?;
    for line in lines {
        text.push_str(line)?;
    }
    let empty = "FF0000".repeat(rt.alloc(), 32usize.saturating_sub(lines.len()))?;
    text.push_str(&empty)?;
    text.push_str("A5")?;
    Ok(text)
}

// The plan lists so.
pub fn check_listing(
    rt: &(impl Abort + AllocGlobal),
    plan: &IssuedPlan,
    tables: &mut Tables,
    front: &str,
    lines: &[&str],
) -> Result<(), Fail> {
    let text = expected(rt, front, lines)?;
    let (told, after) = listed(rt, plan, tables, text.len() / 2)?;
    assert_eq!(rt; after.as_str(), text.as_str());
    let length = (text.len() / 2).saturating_sub(1);
    assert_eq!(rt;
        told.as_str(),
        format!(in rt.alloc(); "LISTING {length} BYTES")?.as_str()
    );
    Ok(())
}
