// Listings after rows: what is written, what is refused, and when two are the same.
use crate::dawn::Dawn;
use crate::lamp::Brighter;
use crate::samples::{SWITCHES_1_3, draw, erase, join};
use ends::joining::Differ;
use faults::fault::{Fault, Ground};
use model::Node;
use readers::bit_file::BitFile;
use rows::lent::Tables;
use rows::listing::{list_row, lists_alike};
use rows::row::Row;
use std::test::Fail;
use trees::tree::Record;

// Two rows on plans of two pins, the second with more nodes than the first.
fn alike<A: Row, B: Row>(one: &A, two: &B) -> Result<bool, Fault> {
    lists_alike(
        one,
        two,
        &[1, 0],
        &mut Tables {
            nodes: &mut [Node::blank(); 8],
            records: &mut [Record::blank(); 4],
            work: &mut [0; 120],
        },
        &mut [0; 160],
        &mut Tables {
            nodes: &mut [Node::blank(); 16],
            records: &mut [Record::blank(); 8],
            work: &mut [0; 216],
        },
        &mut [0xAA; 180],
    )
}

// The listing of lamps 0 0 1 2 on line 1: 104 bytes, 2 for the pins and 14 for the nodes.
fn list_dawn(buffer: &mut [u8]) -> Result<usize, Fault> {
    list_row(
        &draw(Dawn, 1),
        &[0, 1],
        &mut Tables {
            nodes: &mut [Node::blank(); 8],
            records: &mut [Record::blank(); 4],
            work: &mut [0; 120],
        },
        buffer,
    )
}

#[test]
fn a_listing_is_written(rt: HostRuntime) -> Result<(), Fail> {
    let mut buffer = [0xAA; 122];
    assert_eq!(rt; list_dawn(&mut buffer)?, 120);
    // The mark, version 1, two pins 0 1, two nodes: at place 0 to code 0 and node 1, at place 1 to codes 1 and 2.
    assert_eq!(rt;
        &buffer[..10],
        [0x4C, 0x53, 0x54, 0, 1, 2, 0, 1, 0, 2].as_slice()
    );
    assert_eq!(rt;
        &buffer[10..24],
        [0, 0, 0, 0, 1, 0, 1, 1, 0, 0, 1, 0, 0, 2].as_slice()
    );
    assert_eq!(rt;
        &buffer[24..33],
        [0xFF, 0, 0, 1, 0, 0, 0xFF, 0, 0].as_slice()
    );
    assert_eq!(rt; &buffer[117..], [0xFF, 0, 0, 0xAA, 0xAA].as_slice());
    Ok(())
}

#[test]
fn a_short_buffer_is_refused(rt: HostRuntime) {
    let mut buffer = [0xAA; 119];
    assert_eq!(rt; list_dawn(&mut buffer).err(), Some(Ground::Buffer.at(120)));
    assert_eq!(rt; &buffer[..3], [0xAA; 3].as_slice());
}

// The brighter of two lines on line 2, by two roads. On the second a join comes too soon and is refused.
#[test]
fn two_roads_end_alike(rt: HostRuntime) -> Result<(), Fail> {
    let bits = BitFile::over(&SWITCHES_1_3);
    let one = (
        (draw(&bits, 0), draw(Dawn, 1)),
        (join(Brighter, 0, 1, 2), (erase(0), erase(1))),
    );
    let two = (
        (draw(Dawn, 0), (join(Brighter, 0, 3, 2), draw(&bits, 3))),
        (join(Brighter, 0, 3, 2), (erase(3), erase(0))),
    );
    assert_eq!(rt; alike(&one, &two)?, true);
    Ok(())
}

#[test]
fn lines_are_told_apart(rt: HostRuntime) -> Result<(), Fail> {
    assert_eq!(rt; alike(&draw(Dawn, 1), &draw(Dawn, 2))?, false);
    Ok(())
}

// A line that is constant is not an empty one.
#[test]
fn nothing_is_like_nothing_only(rt: HostRuntime) -> Result<(), Fail> {
    let bits = BitFile::over(&SWITCHES_1_3);
    let constant = (draw(&bits, 0), (join(Differ, 0, 0, 1), erase(0)));
    assert_eq!(rt; alike(&constant, &())?, false);
    assert_eq!(rt; alike(&(), &())?, true);
    Ok(())
}
