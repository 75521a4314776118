// Each layer over small map files: with every mask, at every base, with every fill end.
use crate::asking::check_source;
use crate::samples::{ALL_BITS, ALL_SETTINGS, bits, ranges, settings};
use crate::tables::{SETTINGS, Table, flipped, inverted, mounted};
use ends::end::End;
use readers::bit_file::BitFile;
use readers::range_file::RangeFile;
use readers::setting_file::SettingFile;
use sources::flipped::Flipped;
use sources::inverted::Inverted;
use sources::mounted::Mounted;
use sources::source::Source;
use std::process::Abort;
use std::test::Fail;

// Inverted pins, with every mask.
fn check_flipped<S: Source>(rt: &impl Abort, source: &S, codes: &Table) -> Result<(), Fail> {
    for mask in 0..1u32 << source.pins() {
        let made = Flipped::new(source, mask)?;
        check_source(rt, &made, &flipped(codes, mask));
    }
    Ok(())
}

// Mounted in up to two pins more, at every base, with the ends of these codes as fill.
fn check_mounted<S: Source>(
    rt: &impl Abort,
    source: &S,
    codes: &Table,
    fills: &[u16],
) -> Result<(), Fail> {
    let own = source.pins();
    for code in fills {
        let fill = <S::Of>::decode(*code).ok_or_else(|| Fail::new("no end"))?;
        for (more, bases) in [(0, 1), (1, 2), (2, 4)] {
            for base in 0..bases {
                let made = Mounted::new(source, own.saturating_add(more), base, fill)?;
                check_source(rt, &made, &mounted(codes, own, base, *code));
            }
        }
    }
    Ok(())
}

// A source of bits, under each layer.
fn check_layers<S: Source<Of = bool>>(
    rt: &impl Abort,
    source: &S,
    codes: &Table,
) -> Result<(), Fail> {
    check_source(rt, &Inverted::new(source), &inverted(codes));
    check_flipped(rt, source, codes)?;
    check_mounted(rt, source, codes, &[0, 1])
}

#[test]
fn over_all_files_of_bits(rt: HostRuntime) -> Result<(), Fail> {
    for (pins, patterns) in ALL_BITS {
        for pattern in 0..patterns {
            let sample = bits(rt.alloc(), pins, pattern)?;
            check_layers(&rt, &BitFile::over(&sample.bytes), &sample.codes)?;
        }
    }
    Ok(())
}

#[test]
fn over_all_files_of_settings(rt: HostRuntime) -> Result<(), Fail> {
    for (pins, patterns) in ALL_SETTINGS {
        for pattern in 0..patterns {
            let sample = settings(rt.alloc(), pins, pattern)?;
            let file = SettingFile::over(&sample.bytes);
            check_flipped(&rt, &file, &sample.codes)?;
            check_mounted(&rt, &file, &sample.codes, &SETTINGS)?;
        }
    }
    Ok(())
}

#[test]
fn over_range_files(rt: HostRuntime) -> Result<(), Fail> {
    for pattern in 0..256 {
        let sample = ranges(rt.alloc(), 3, pattern)?;
        check_layers(&rt, &RangeFile::over(&sample.bytes), &sample.codes)?;
    }
    Ok(())
}
