use crate::carrying::carry_out;
use crate::desk::Desk;
use crate::running::{Given, answer_after};
use model::Node;
use rows::lent::Tables;
use scripts::parsing::parse;
use scripts::request::Request;
use std::test::Fail;
use trees::tree::Record;

// The ends 0 1 1 0.
const TWO: [u8; 16] = [0x53, 0x57, 0x4C, 0, 1, 0, 2, 0, 0, 2, 0, 0, 1, 0, 0, 3];

fn request_of(rt: &HostRuntime, line: &str) -> Result<Request, &'static str> {
    match parse(rt.alloc(), line.as_bytes()) {
        Ok(Some(request)) => Ok(request),
        _ => Err("the line is a call"),
    }
}

#[test]
fn answers_lines(rt: HostRuntime) -> Result<(), Fail> {
    let mut desk = Desk::bare();
    let mut tables = Tables {
        nodes: &mut [Node::blank(); 16],
        records: &mut [Record::blank(); 16],
        work: &mut [0; 216],
    };
    let mut buffer = [0; 127];
    for (line, answer) in [
        ("used", "there is no plan"),
        ("plan 17 0 1", "fewer nodes are there"),
        ("plan 4097 0 1", "REFUSED 18 P 4097"),
        ("plan 4097 1 1", "REFUSED 13 P 1"),
        ("plan 4 0 1", "OK"),
        ("list", "the plan is open"),
        ("draw 0 bits two", "OK"),
        ("draw 0 bits two", "REFUSED 22 P 0"),
        ("draw 1 flipped 4 bits two", "REFUSED 20 P 4"),
        ("draw 1 settings two", "REFUSED 4 F 5"),
        ("count 0", "LINE 0 NODES 3"),
        ("read 0 1", "CODE 1"),
        ("strap 0 0 high 1", "OK"),
        ("join differ 0 1 2", "OK"),
        ("read 2 1", "CODE 1"),
        ("read 2 2", "CODE 0"),
        ("same 0 2", "SAME no"),
        ("erase 2", "OK"),
        ("erase 1", "OK"),
        ("used", "USED 3"),
        ("tables 0 0", "OK"),
        ("count 0", "REFUSED 19 P 0"),
        ("tables 99 999", "OK"),
        ("issue", "OK"),
        ("used", "the plan is issued"),
        ("plan 0 0", "REFUSED 18 P 0"),
        ("list", "LISTING 127 BYTES"),
        ("reopen", "OK"),
        ("used", "USED 3"),
    ] {
        let request = request_of(&rt, line)?;
        let told = carry_out(&mut desk, &request, &TWO, &mut tables, &mut buffer);
        let text = match told {
            Ok(answer) => format!(in rt.alloc(); "{answer}")?,
            Err(why) => format!(in rt.alloc(); "{why}")?,
        };
        assert_eq!(rt; text.as_str(), answer, "at {line}");
    }
    assert_eq!(rt; &buffer[..10], b"LST\0\x01\x02\0\x01\0\x03".as_slice());
    Ok(())
}

#[test]
fn answers_after_a_row(rt: HostRuntime) -> Result<(), Fail> {
    let mut row = Vec::new(rt.alloc());
    for line in ["plan 4 0 1", "draw 0 bits two", "draw 0 bits two"] {
        let request = request_of(&rt, line)?;
        let bytes = Vec::from_slice(rt.alloc(), &TWO)?;
        row.push(Given { request, bytes })?;
    }
    let last = Given {
        request: request_of(&rt, "used")?,
        bytes: Vec::new(rt.alloc()),
    };
    let told = answer_after(
        &row,
        &last,
        &mut Tables {
            nodes: &mut [Node::blank(); 4],
            records: &mut [Record::blank(); 4],
            work: &mut [0; 72],
        },
        &mut [],
    );
    let text = match told {
        Ok(answer) => format!(in rt.alloc(); "{answer}")?,
        Err(why) => format!(in rt.alloc(); "{why}")?,
    };
    assert_eq!(rt; text.as_str(), "USED 3");
    Ok(())
}
