// Every address and every block of small map files.
use crate::asking::{check_source, told_by};
use crate::samples::{ALL_BITS, ALL_SETTINGS, Sample, bits, ranges, settings};
use ends::end::End;
use map_tests::building::{bit_map, range_map};
use readers::bit_file::{BitFile, Bits};
use readers::entry::{Range, Switch};
use readers::kind::Kind;
use readers::map_file::MapFile;
use readers::range_file::{RangeFile, Ranges};
use readers::setting_file::Settings;
use sources::block::Block;
use sources::source::{Answer, Source};
use std::process::Abort;
use std::test::Fail;

// At each address and at some past the top, the reader and the source of a table agree.
fn check_file<K: Kind>(rt: &impl Abort, sample: &Sample) -> Result<(), Fail> {
    let file = MapFile::<K>::read(&sample.bytes)?;
    let level = file.pins();
    for number in 0..34 {
        let told = file
            .end_at(number)
            .map_or(Answer::Outside, |end| Answer::All(end.encode()));
        assert_eq!(rt; told, told_by(&file, Block { level, number }).told);
    }
    check_source(rt, &file, &sample.codes);
    Ok(())
}

#[test]
fn all_files_of_bits(rt: HostRuntime) -> Result<(), Fail> {
    for (pins, patterns) in ALL_BITS {
        for pattern in 0..patterns {
            check_file::<Bits>(&rt, &bits(rt.alloc(), pins, pattern)?)?;
            check_file::<Ranges>(&rt, &ranges(rt.alloc(), pins, pattern)?)?;
        }
    }
    Ok(())
}

#[test]
fn all_files_of_settings(rt: HostRuntime) -> Result<(), Fail> {
    for (pins, patterns) in ALL_SETTINGS {
        for pattern in 0..patterns {
            check_file::<Settings>(&rt, &settings(rt.alloc(), pins, pattern)?)?;
        }
    }
    Ok(())
}

#[test]
fn some_larger_files(rt: HostRuntime) -> Result<(), Fail> {
    for i in 0..200u64 {
        let pattern = i * 0x9E_3779_B97F_4A7D;
        check_file::<Bits>(&rt, &bits(rt.alloc(), 4, pattern)?)?;
        check_file::<Bits>(&rt, &bits(rt.alloc(), 5, pattern)?)?;
        check_file::<Ranges>(&rt, &ranges(rt.alloc(), 5, pattern)?)?;
        check_file::<Settings>(&rt, &settings(rt.alloc(), 3, pattern)?)?;
    }
    Ok(())
}

#[test]
fn entries(rt: HostRuntime) -> Result<(), Fail> {
    let bytes = bit_map(rt.alloc(), 2, &[1, 3])?;
    let file = BitFile::read(&bytes)?;
    assert_eq!(rt; file.switches(), 2);
    for (i, address, end) in [(0, 0, false), (1, 1, true), (2, 3, false)] {
        assert_eq!(rt; file.switch(i), Some(Switch { address, end }));
    }
    assert_eq!(rt; file.switch(3), None);
    let bytes = range_map(rt.alloc(), 2, &[(1, 2)])?;
    let file = RangeFile::read(&bytes)?;
    assert_eq!(rt; file.ranges(), 1);
    assert_eq!(rt; file.range(0), None);
    assert_eq!(rt; file.range(1), Some(Range { first: 1, last: 2 }));
    assert_eq!(rt; file.range(2), None);
    Ok(())
}
