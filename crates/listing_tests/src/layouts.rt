use crate::bench::{Tables, check_listing, listed};
use plans::open::OpenPlan;
use std::test::Fail;

// Head, order and used number of two lines of two pins that share a node, and its three nodes.
const SHARED: &'static str = "4C535400010200010003000100010100020100000000000101000001000000";

#[test]
fn of_one_switch(rt: HostRuntime) -> Result<(), Fail> {
    let mut tables = Tables::new(&rt)?;
    let mut plan = OpenPlan::new(&[0], &tables.nodes)?;
    tables.draw_bits(&rt, &mut plan, 0, 1, &[1])?;
    let front = "4C535400010100000100000000000001";
    check_listing(&rt, &plan.issue(), &mut tables, front, &["010000"])
}

#[test]
fn of_empty_lines_and_constants(rt: HostRuntime) -> Result<(), Fail> {
    let mut tables = Tables::new(&rt)?;
    let empty = OpenPlan::new(&[2, 0, 1], &tables.nodes)?.issue();
    let front = "4C53540001030200010000";
    check_listing(&rt, &empty, &mut tables, front, &[])?;
    let mut plan = empty.reopen();
    tables.draw_bits(&rt, &mut plan, 0, 3, &[])?;
    tables.draw_settings(&rt, &mut plan, 2, 3, 0x49, &[])?;
    let lines = ["000000", "FF0000", "000049"];
    check_listing(&rt, &plan.issue(), &mut tables, front, &lines)
}

// Ends 0 1 1 0 on line 0 and 0 1 0 1 on line 1, drawn in either order, and after other lines came and went.
#[test]
fn of_shared_lines_by_three_roads(rt: HostRuntime) -> Result<(), Fail> {
    let lines = ["010000", "010001"];
    let mut tables = Tables::new(&rt)?;
    let mut plan = OpenPlan::new(&[0, 1], &tables.nodes)?;
    tables.draw_bits(&rt, &mut plan, 0, 2, &[1, 3])?;
    tables.draw_bits(&rt, &mut plan, 1, 2, &[1, 2, 3])?;
    check_listing(&rt, &plan.issue(), &mut tables, SHARED, &lines)?;
    let mut plan = OpenPlan::new(&[0, 1], &tables.nodes)?;
    tables.draw_bits(&rt, &mut plan, 1, 2, &[1, 2, 3])?;
    tables.draw_bits(&rt, &mut plan, 0, 2, &[1, 3])?;
    check_listing(&rt, &plan.issue(), &mut tables, SHARED, &lines)?;
    let mut plan = OpenPlan::new(&[0, 1], &tables.nodes)?;
    tables.draw_bits(&rt, &mut plan, 7, 2, &[2, 3])?;
    tables.draw_settings(&rt, &mut plan, 8, 2, 0, &[(1, 9), (2, 3)])?;
    tables.draw_bits(&rt, &mut plan, 0, 2, &[1, 3])?;
    plan.erase(&tables.nodes, &mut tables.work, 8)?;
    tables.draw_bits(&rt, &mut plan, 1, 2, &[1, 2, 3])?;
    plan.erase(&tables.nodes, &mut tables.work, 7)?;
    check_listing(&rt, &plan.issue(), &mut tables, SHARED, &lines)
}

// Nodes of one place stand by the smallest line, then by the smallest values of the fixed pins, whichever was drawn first.
#[test]
fn by_place_then_line_then_setting(rt: HostRuntime) -> Result<(), Fail> {
    let mut tables = Tables::new(&rt)?;
    let mut plan = OpenPlan::new(&[1, 0], &tables.nodes)?;
    tables.draw_settings(&rt, &mut plan, 5, 2, 1, &[(1, 2), (2, 3), (3, 4)])?;
    tables.draw_settings(&rt, &mut plan, 3, 2, 3, &[(1, 4), (2, 2), (3, 1)])?;
    let front =
        "4C535400010201000006000100020100030001000401000501000003000002010000040000010100000100000301000002000004";
    let lines = ["FF0000", "FF0000", "FF0000", "010000", "FF0000", "010001"];
    check_listing(&rt, &plan.issue(), &mut tables, front, &lines)
}

// A buffer that is a byte short is refused, and stays as it is; issued plans are read, and go on when they are open again.
#[test]
fn of_a_short_buffer(rt: HostRuntime) -> Result<(), Fail> {
    let mut tables = Tables::new(&rt)?;
    let mut plan = OpenPlan::new(&[0, 1], &tables.nodes)?;
    tables.draw_bits(&rt, &mut plan, 0, 2, &[1, 3])?;
    let issued = plan.issue();
    assert_eq!(rt; issued.read(&tables.nodes, 0, 2)?, 1);
    let (told, after) = listed(&rt, &issued, &mut tables, 126)?;
    assert_eq!(rt; told.as_str(), "REFUSED 26 P 127");
    assert_eq!(rt; after.as_str(), "A5".repeat(rt.alloc(), 126)?.as_str());
    let mut plan = issued.reopen();
    tables.draw_bits(&rt, &mut plan, 1, 2, &[1, 2, 3])?;
    check_listing(
        &rt,
        &plan.issue(),
        &mut tables,
        SHARED,
        &["010000", "010001"],
    )
}
