// Layers that are made or refused, at the edges: 20 P, with a place; and bytes that are no map file.
use faults::fault::{Fault, Ground, Layer};
use map_tests::building::bit_map;
use readers::bit_file::BitFile;
use sources::flipped::Flipped;
use sources::mounted::Mounted;
use sources::source::Source;
use std::test::Fail;

// The pins of a map, a mask, and the place of the refusal if there is one.
const MASKS: [(u8, u32, Option<usize>); 10] = [
    (1, 0, None),
    (1, 1, None),
    (1, 2, Some(2)),
    (3, 7, None),
    (3, 8, Some(8)),
    (3, 15, Some(15)),
    (20, 0xF_FFFF, None),
    (20, 0x10_0000, Some(0x10_0000)),
    (20, 0x8000_0000, Some(0x8000_0000)),
    (20, u32::MAX, Some(0xFFFF_FFFF)),
];

// The pins of a map, the pins of the mount, a base, and the place of the refusal if there is one.
const MOUNTS: [(u8, u32, u32, Option<usize>); 20] = [
    (1, 1, 0, None),
    (1, 1, 1, Some(1)),
    (1, 0, 0, Some(0)),
    (1, 2, 1, None),
    (1, 2, 2, Some(2)),
    (1, 20, 0x7_FFFF, None),
    (1, 20, 0x8_0000, Some(0x8_0000)),
    (1, 21, 0, Some(21)),
    (1, 21, u32::MAX, Some(21)),
    (1, 32, 0, Some(32)),
    (1, 33, 0, Some(33)),
    (1, u32::MAX, 0, Some(0xFFFF_FFFF)),
    (3, 2, 0, Some(2)),
    (3, 2, 9, Some(2)),
    (3, 5, 3, None),
    (3, 5, 4, Some(4)),
    (20, 20, 0, None),
    (20, 20, 1, Some(1)),
    (20, 20, u32::MAX, Some(0xFFFF_FFFF)),
    (20, 19, 1, Some(19)),
];

fn refusal(place: Option<usize>) -> Option<Fault> {
    place.map(|place| Fault {
        ground: Ground::SourceLayer,
        layer: Layer::Plan,
        place,
    })
}

#[test]
fn masks(rt: HostRuntime) -> Result<(), Fail> {
    assert_eq!(rt; Ground::SourceLayer.number(), 20);
    for (own, mask, place) in MASKS {
        let bytes = bit_map(rt.alloc(), own, &[1])?;
        let file = BitFile::over(&bytes);
        assert_eq!(rt; Flipped::new(&file, mask).err(), refusal(place));
    }
    Ok(())
}

#[test]
fn mounts(rt: HostRuntime) -> Result<(), Fail> {
    for (own, pins, base, place) in MOUNTS {
        let bytes = bit_map(rt.alloc(), own, &[1])?;
        let file = BitFile::over(&bytes);
        assert_eq!(rt; Mounted::new(&file, pins, base, true).err(), refusal(place));
    }
    Ok(())
}

#[test]
fn no_map_file(rt: HostRuntime) {
    let file = BitFile::read(b"XWL\x00\x01\x00\x02\x00\x00");
    assert_eq!(rt; file.err(), Some(Ground::TooShort.at(9)));
}
