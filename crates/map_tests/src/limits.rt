// The limits of the formats: what just passes, and what is just refused.
use crate::building::{bit_map, range_map, setting_map};
use crate::checking::check_verdict;
use files::format::Format;
use std::alloc::{AllocError, Global};
use std::test::Fail;

#[test]
fn twenty_pins(rt: HostRuntime) -> Result<(), Fail> {
    let bits = bit_map(rt.alloc(), 20, &[1])?;
    let settings = setting_map(rt.alloc(), 20, 127, &[])?;
    let ranges = range_map(rt.alloc(), 20, &[])?;
    check_verdict(&rt, &bits, Format::Bits, "ACCEPTED")?;
    check_verdict(&rt, &settings, Format::Settings, "ACCEPTED")?;
    check_verdict(&rt, &ranges, Format::Ranges, "ACCEPTED")
}

#[test]
fn not_one_pin_more(rt: HostRuntime) -> Result<(), Fail> {
    let bits = bit_map(rt.alloc(), 21, &[1])?;
    let settings = setting_map(rt.alloc(), 21, 127, &[])?;
    let ranges = range_map(rt.alloc(), 21, &[])?;
    check_verdict(&rt, &bits, Format::Bits, "REFUSED 5 F 6")?;
    check_verdict(&rt, &settings, Format::Settings, "REFUSED 5 F 6")?;
    check_verdict(&rt, &ranges, Format::Ranges, "REFUSED 5 F 5")
}

#[test]
fn top_address(rt: HostRuntime) -> Result<(), Fail> {
    for pins in 1..21u8 {
        let top = (1u32 << pins) - 1;
        let bits = bit_map(rt.alloc(), pins, &[top])?;
        let settings = setting_map(rt.alloc(), pins, 127, &[(top, 0)])?;
        let ranges = range_map(rt.alloc(), pins, &[(top, top)])?;
        check_verdict(&rt, &bits, Format::Bits, "ACCEPTED")?;
        check_verdict(&rt, &settings, Format::Settings, "ACCEPTED")?;
        check_verdict(&rt, &ranges, Format::Ranges, "ACCEPTED")?;
    }
    Ok(())
}

#[test]
fn not_one_address_more(rt: HostRuntime) -> Result<(), Fail> {
    for pins in 1..21u8 {
        let above = 1u32 << pins;
        let bits = bit_map(rt.alloc(), pins, &[above])?;
        let settings = setting_map(rt.alloc(), pins, 127, &[(above, 0)])?;
        let ranges = range_map(rt.alloc(), pins, &[(0, above)])?;
        check_verdict(&rt, &bits, Format::Bits, "REFUSED 8 M 1")?;
        check_verdict(&rt, &settings, Format::Settings, "REFUSED 8 M 1")?;
        check_verdict(&rt, &ranges, Format::Ranges, "REFUSED 8 M 1")?;
    }
    Ok(())
}

// Switches at the addresses 1 to `count`.
fn rising(heap: Global, count: u32) -> Result<Vec<u8>, AllocError> {
    let switches = (1..=count).collect::<Vec<u32>>(heap)?;
    bit_map(heap, 11, &switches)
}

#[test]
fn most_switches(rt: HostRuntime) -> Result<(), Fail> {
    let full = rising(rt.alloc(), 1024)?;
    let over = rising(rt.alloc(), 1025)?;
    check_verdict(&rt, &full, Format::Bits, "ACCEPTED")?;
    check_verdict(&rt, &over, Format::Bits, "REFUSED 6 F 8")
}

// Ranges of one address, with one address between two.
fn spaced(heap: Global, pins: u8, count: u32) -> Result<Vec<u8>, AllocError> {
    let ranges = (0..count)
        .map(|i| i.saturating_mul(2))
        .map(|at| (at, at))
        .collect::<Vec<(u32, u32)>>(heap)?;
    range_map(heap, pins, &ranges)
}

#[test]
fn most_ranges(rt: HostRuntime) -> Result<(), Fail> {
    let full = spaced(rt.alloc(), 11, 1024)?;
    let over = spaced(rt.alloc(), 12, 1025)?;
    check_verdict(&rt, &full, Format::Ranges, "ACCEPTED")?;
    check_verdict(&rt, &over, Format::Ranges, "REFUSED 6 F 6")
}

// Settings 5 and 6 by turns, at the addresses 1 to `count`.
fn turns(heap: Global, count: u32) -> Result<Vec<u8>, AllocError> {
    let switches = (1..=count)
        .zip([5, 6].into_iter().cycle())
        .collect::<Vec<(u32, u8)>>(heap)?;
    setting_map(heap, 11, 127, &switches)
}

#[test]
fn most_settings(rt: HostRuntime) -> Result<(), Fail> {
    let full = turns(rt.alloc(), 1024)?;
    let over = turns(rt.alloc(), 1025)?;
    check_verdict(&rt, &full, Format::Settings, "ACCEPTED")?;
    check_verdict(&rt, &over, Format::Settings, "REFUSED 6 F 8")
}
