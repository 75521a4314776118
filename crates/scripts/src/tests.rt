use crate::mistake::{Mistake, ParseError};
use crate::parsing::parse;
use crate::request::{Call, How, Layers, Map, Mount, Request};

#[test]
fn tells_mistakes(rt: HostRuntime) {
    for (line, mistake) in [
        ("fly 1", Mistake::UnknownCall),
        ("Used", Mistake::UnknownCall),
        ("plan", Mistake::MissingWord),
        ("draw 1 inverted bits", Mistake::MissingWord),
        ("issue now", Mistake::SurplusWord),
        ("list one two", Mistake::SurplusWord),
        ("erase one", Mistake::NotANumber),
        ("erase 0X1", Mistake::NotANumber),
        ("erase +1", Mistake::NotANumber),
        ("erase 256", Mistake::TooLarge),
        ("read 1 4294967296", Mistake::TooLarge),
        ("erase 99999999999999999999999", Mistake::TooLarge),
        ("plan 18446744073709551616", Mistake::TooLarge),
        ("join nor 1 2 3", Mistake::UnknownJoining),
        ("strap 1 2 up 3", Mistake::UnknownLevel),
        (
            "draw 1 mounted 2 0 0 flipped 1 bits f",
            Mistake::UnknownKind,
        ),
        ("draw 1 inverted settings f", Mistake::InvertedSettings),
        ("draw 1 mounted 2 0 2 ranges f", Mistake::NoEnd),
        ("draw 1 mounted 2 0 128 settings f", Mistake::NoEnd),
    ] {
        let told = parse(rt.alloc(), line.as_bytes()).err();
        assert_eq!(rt; told, Some(ParseError::Mistake(mistake)), "at {line}");
    }
}

#[test]
fn passes_over_lines(rt: HostRuntime) {
    for line in ["", " \t\r", "# used", "  # plan 4 0"] {
        assert!(rt;
            matches!(parse(rt.alloc(), line.as_bytes()), Ok(None)),
            "at {line}"
        );
    }
}

#[test]
fn reads_calls(rt: HostRuntime) {
    assert!(rt;
        matches!(
            parse(rt.alloc(), b"join overlay 0 0x1f 2\r"),
            Ok(Some(Request::Call(Call::Join {
                how: How::Overlay,
                left: 0,
                right: 31,
                line: 2,
            })))
        )
    );
    assert!(rt;
        matches!(
            parse(rt.alloc(), b" strap 1 2 high 3# up"),
            Ok(Some(Request::Call(Call::Strap {
                from: 1,
                pin: 2,
                high: true,
                line: 3,
            })))
        )
    );
    assert!(rt;
        matches!(
            parse(
                rt.alloc(),
                b"draw 4 inverted flipped 0xFF mounted 16 3 1 ranges f"
            ),
            Ok(Some(Request::Call(Call::Draw {
                line: 4,
                map: Map::Ranges {
                    inverted: true,
                    layers: Layers {
                        flipped: Some(255),
                        mounted: Some(Mount {
                            pins: 16,
                            base: 3,
                            fill: true,
                        }),
                    },
                },
                ..
            })))
        )
    );
}

#[test]
fn reads_orders(rt: HostRuntime) {
    match parse(rt.alloc(), b"plan 7 2 0 1") {
        Ok(Some(Request::Plan { nodes, order })) => {
            assert_eq!(rt; nodes, 7);
            assert_eq!(rt; order.as_slice(), [2, 0, 1].as_slice());
        }
        _other => assert!(rt; false),
    }
}
