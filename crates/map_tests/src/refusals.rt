// Damaged files, each with the refusal that comes first.
use crate::checking::check_verdict;
use files::format::Format;
use std::process::Abort;
use std::test::Fail;

struct Case {
    bytes: &'static [u8],
    told: &'static str,
}

const SWITCHES: [Case; 19] = [
    Case {
        bytes: b"SWL\x00\x01\x00\x02\x00\x00\x02\x00\x00\x01\x00\x00\x03",
        told: "ACCEPTED",
    },
    Case {
        bytes: b"SWL\x00\x01\x00\x02\x01\x00\x00",
        told: "ACCEPTED",
    },
    Case {
        bytes: b"",
        told: "REFUSED 1 F 0",
    },
    Case {
        bytes: b"XWL\x00\x01\x00\x02\x00\x00",
        told: "REFUSED 1 F 9",
    },
    Case {
        bytes: b"SWX\x00\x02\x01\x00\x02\x09\x00",
        told: "REFUSED 2 F 0",
    },
    Case {
        bytes: b"RNG\x00\x01\x00\x02\x00\x00\x00",
        told: "REFUSED 2 F 0",
    },
    Case {
        bytes: b"SWL\x01\x01\x01\x00\x02\x09\x00",
        told: "REFUSED 3 F 3",
    },
    Case {
        bytes: b"SWL\x00\x02\x01\x00\x02\x09\x00",
        told: "REFUSED 3 F 3",
    },
    Case {
        bytes: b"SWL\x00\x01\x01\x00\x02\x09\x00",
        told: "REFUSED 4 F 5",
    },
    Case {
        bytes: b"SWL\x00\x01\x00\x00\x02\x09\x00",
        told: "REFUSED 5 F 6",
    },
    Case {
        bytes: b"SWL\x00\x01\x00\x15\x02\x09\x00",
        told: "REFUSED 5 F 6",
    },
    Case {
        bytes: b"SWL\x00\x01\x00\x02\x02\x04\x01",
        told: "REFUSED 6 F 8",
    },
    Case {
        bytes: b"SWL\x00\x01\x00\x02\x02\x00\x01\x00\x00",
        told: "REFUSED 1 F 12",
    },
    Case {
        bytes: b"SWL\x00\x01\x00\x02\x02\x00\x01\x00\x00\x09\x07",
        told: "REFUSED 7 F 13",
    },
    Case {
        bytes: b"SWL\x00\x01\x00\x02\x02\x00\x01\x00\x00\x09",
        told: "REFUSED 10 M 0",
    },
    Case {
        bytes: b"SWL\x00\x01\x00\x02\x00\x00\x01\x00\x00\x04",
        told: "REFUSED 8 M 1",
    },
    Case {
        bytes: b"SWL\x00\x01\x00\x02\x00\x00\x01\x00\x00\x00",
        told: "REFUSED 9 M 1",
    },
    Case {
        bytes: b"SWL\x00\x01\x00\x02\x00\x00\x02\x00\x00\x02\x00\x00\x02",
        told: "REFUSED 9 M 2",
    },
    Case {
        bytes: b"SWL\x00\x01\x00\x02\x00\x00\x02\x00\x00\x02\x00\x00\x04",
        told: "REFUSED 8 M 2",
    },
];

const SETTINGS: [Case; 14] = [
    Case {
        bytes: b"SWL\x00\x01\x01\x02\x08\x00\x02\x00\x00\x01\x10\x00\x00\x02\x08",
        told: "ACCEPTED",
    },
    Case {
        bytes: b"SWL\x00\x01\x01\x02\x08\x00",
        told: "REFUSED 1 F 9",
    },
    Case {
        bytes: b"SWM\x00\x01\x01\x02\x08\x00\x00",
        told: "REFUSED 2 F 0",
    },
    Case {
        bytes: b"SWL\x00\x00\x01\x02\x08\x00\x00",
        told: "REFUSED 3 F 3",
    },
    Case {
        bytes: b"SWL\x00\x01\x00\x02\x08\x00\x00",
        told: "REFUSED 4 F 5",
    },
    Case {
        bytes: b"SWL\x00\x01\x01\x15\x08\x00\x00",
        told: "REFUSED 5 F 6",
    },
    Case {
        bytes: b"SWL\x00\x01\x01\x02\x08\xFF\xFF",
        told: "REFUSED 6 F 8",
    },
    Case {
        bytes: b"SWL\x00\x01\x01\x02\x08\x00\x01\x00\x00\x01",
        told: "REFUSED 1 F 13",
    },
    Case {
        bytes: b"SWL\x00\x01\x01\x02\x08\x00\x00\x00",
        told: "REFUSED 7 F 10",
    },
    Case {
        bytes: b"SWL\x00\x01\x01\x02\x80\x00\x00",
        told: "REFUSED 10 M 0",
    },
    Case {
        bytes: b"SWL\x00\x01\x01\x02\x08\x00\x01\x01\x00\x00\x80",
        told: "REFUSED 8 M 1",
    },
    Case {
        bytes: b"SWL\x00\x01\x01\x02\x08\x00\x01\x00\x00\x00\x80",
        told: "REFUSED 9 M 1",
    },
    Case {
        bytes: b"SWL\x00\x01\x01\x02\x08\x00\x01\x00\x00\x01\x80",
        told: "REFUSED 10 M 1",
    },
    Case {
        bytes: b"SWL\x00\x01\x01\x02\x08\x00\x01\x00\x00\x01\x08",
        told: "REFUSED 11 M 1",
    },
];

const RANGES: [Case; 15] = [
    Case {
        bytes: b"RNG\x00\x01\x03\x00\x02\x00\x00\x00\x00\x00\x01\x00\x00\x03\x00\x00\x07",
        told: "ACCEPTED",
    },
    Case {
        bytes: b"RNG\x00\x01\x03\x00\x00",
        told: "ACCEPTED",
    },
    Case {
        bytes: b"RNG\x00\x01\x03\x00",
        told: "REFUSED 1 F 7",
    },
    Case {
        bytes: b"SWL\x00\x01\x03\x00\x00",
        told: "REFUSED 2 F 0",
    },
    Case {
        bytes: b"RNG\x00\x03\x03\x00\x00",
        told: "REFUSED 3 F 3",
    },
    Case {
        bytes: b"RNG\x00\x01\x00\x00\x00",
        told: "REFUSED 5 F 5",
    },
    Case {
        bytes: b"RNG\x00\x01\x15\x00\x00",
        told: "REFUSED 5 F 5",
    },
    Case {
        bytes: b"RNG\x00\x01\x03\x04\x01",
        told: "REFUSED 6 F 6",
    },
    Case {
        bytes: b"RNG\x00\x01\x03\x00\x01\x00\x00\x00\x00\x00",
        told: "REFUSED 1 F 13",
    },
    Case {
        bytes: b"RNG\x00\x01\x03\x00\x00\x00",
        told: "REFUSED 7 F 8",
    },
    Case {
        bytes: b"RNG\x00\x01\x03\x00\x01\x00\x00\x08\x00\x00\x02",
        told: "REFUSED 8 M 1",
    },
    Case {
        bytes: b"RNG\x00\x01\x03\x00\x01\x00\x00\x02\x00\x00\x08",
        told: "REFUSED 8 M 1",
    },
    Case {
        bytes: b"RNG\x00\x01\x03\x00\x01\x00\x00\x02\x00\x00\x01",
        told: "REFUSED 9 M 1",
    },
    Case {
        bytes: b"RNG\x00\x01\x03\x00\x02\x00\x00\x00\x00\x00\x01\x00\x00\x02\x00\x00\x07",
        told: "REFUSED 9 M 2",
    },
    Case {
        bytes: b"RNG\x00\x01\x03\x00\x02\x00\x00\x03\x00\x00\x04\x00\x00\x00\x00\x00\x01",
        told: "REFUSED 9 M 2",
    },
];

fn check_all(rt: &(impl Abort + AllocGlobal), format: Format, cases: &[Case]) -> Result<(), Fail> {
    for case in cases {
        check_verdict(rt, case.bytes, format, case.told)?;
    }
    Ok(())
}

#[test]
fn switch_files_of_bits(rt: HostRuntime) -> Result<(), Fail> {
    check_all(&rt, Format::Bits, &SWITCHES)
}

#[test]
fn switch_files_of_settings(rt: HostRuntime) -> Result<(), Fail> {
    check_all(&rt, Format::Settings, &SETTINGS)
}

#[test]
fn range_files(rt: HostRuntime) -> Result<(), Fail> {
    check_all(&rt, Format::Ranges, &RANGES)
}
