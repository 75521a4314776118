// Rows of mixed calls, some of them refused, on a plan of two pins and eight nodes.
use crate::dawn::Dawn;
use crate::lamp::Brighter;
use crate::samples::{SWITCHES_1_3, draw, erase, join};
use ends::joining::{Both, Differ};
use faults::fault::{Fault, Ground};
use model::Node;
use readers::bit_file::BitFile;
use rows::after::after_row;
use rows::calls::{Draw, Erase, Join, Strap};
use rows::hand::Hand;
use rows::lent::Tables;
use rows::row::Row;
use std::test::Fail;
use trees::tree::Record;

// Two lines that are drawn, one of them twice, then two joins, then a strap.
type FourLines<'a> = (
    (Draw<&'a BitFile<'a>>, (Draw<Dawn>, Draw<Dawn>)),
    ((Join<Brighter>, Join<Both>), Strap),
);

// What is told after a row: the used number, and the counts of the first lines.
#[derive(Clone, Copy, PartialEq, Eq, Debug)]
struct Told {
    used: u16,
    counts: [Option<u16>; 5],
}

// A row on a new plan with eight nodes, four tree records and the work for two pins.
fn told_after<R: Row>(row: &R, order: &[u8]) -> Result<Told, Fault> {
    let mut tables = Tables {
        nodes: &mut [Node::blank(); 8],
        records: &mut [Record::blank(); 4],
        work: &mut [0; 120],
    };
    let outcome = after_row(row, order, &mut tables)?;
    let [a, b, c, d, e, ..] = outcome.counts;
    Ok(Told {
        used: outcome.used,
        counts: [a, b, c, d, e],
    })
}

// Calls that are refused for their tables: with one node too few, a tree record too few, work too short.
fn cut_short() -> (Erase, (Draw<Dawn>, Draw<Dawn>)) {
    let all = Hand::all();
    (
        Erase {
            line: 1,
            hand: Hand { nodes: 7, ..all },
        },
        (
            Draw {
                source: Dawn,
                line: 4,
                hand: Hand { records: 1, ..all },
            },
            Draw {
                source: Dawn,
                line: 4,
                hand: Hand { work: 119, ..all },
            },
        ),
    )
}

// Bits 0 1 1 0 on line 0, lamps 0 0 1 2 on line 1, the brighter of both on line 2, and line 1 with pin 0 high on line 3.
// The second draw on line 1 is refused, and so is a join of bits where a line has code 2.
fn four_lines<'a>(bits: &'a BitFile<'a>) -> FourLines<'a> {
    (
        (draw(bits, 0), (draw(Dawn, 1), draw(Dawn, 1))),
        (
            (join(Brighter, 0, 1, 2), join(Both, 0, 1, 3)),
            Strap {
                from: 1,
                pin: 0,
                high: true,
                line: 3,
                hand: Hand::all(),
            },
        ),
    )
}

#[test]
fn nothing_is_used_at_first(rt: HostRuntime) -> Result<(), Fail> {
    assert_eq!(rt;
        told_after(&(), &[0, 1])?,
        Told {
            used: 0,
            counts: [None; 5],
        }
    );
    Ok(())
}

#[test]
fn kinds_are_mixed(rt: HostRuntime) -> Result<(), Fail> {
    let bits = BitFile::over(&SWITCHES_1_3);
    assert_eq!(rt;
        told_after(&four_lines(&bits), &[0, 1])?,
        Told {
            used: 6,
            counts: [Some(3), Some(2), Some(3), Some(1), None],
        }
    );
    Ok(())
}

#[test]
fn another_order_has_other_counts(rt: HostRuntime) -> Result<(), Fail> {
    let bits = BitFile::over(&SWITCHES_1_3);
    assert_eq!(rt;
        told_after(&(four_lines(&bits), erase(0)), &[1, 0])?,
        Told {
            used: 6,
            counts: [None, Some(3), Some(3), Some(1), None],
        }
    );
    Ok(())
}

// A call behind a refused one is made.
#[test]
fn cut_tables_are_refused(rt: HostRuntime) -> Result<(), Fail> {
    let bits = BitFile::over(&SWITCHES_1_3);
    assert_eq!(rt;
        told_after(&(&four_lines(&bits), (cut_short(), erase(0))), &[0, 1])?,
        Told {
            used: 4,
            counts: [None, Some(2), Some(3), Some(1), None],
        }
    );
    assert_eq!(rt;
        told_after(&(cut_short(), draw(Dawn, 4)), &[0, 1])?,
        Told {
            used: 2,
            counts: [None, None, None, None, Some(2)],
        }
    );
    Ok(())
}

// A line differs from itself nowhere.
#[test]
fn constants_use_nothing(rt: HostRuntime) -> Result<(), Fail> {
    let bits = BitFile::over(&SWITCHES_1_3);
    assert_eq!(rt;
        told_after(
            &(draw(&bits, 0), (join(Differ, 0, 0, 1), erase(0))),
            &[0, 1],
        )?,
        Told {
            used: 0,
            counts: [None, Some(0), None, None, None],
        }
    );
    Ok(())
}

#[test]
fn an_order_is_refused(rt: HostRuntime) {
    assert_eq!(rt;
        told_after(&draw(Dawn, 0), &[0, 0]).err(),
        Some(Ground::OrderPin.at(1))
    );
}
