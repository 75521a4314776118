// Map files of the examples. The files of bits have first end 0.

// One pin, no switch.
pub(crate) const CONSTANT: &'static [u8] = b"SWL\x00\x01\x00\x01\x00\x00\x00";

// One pin, switch 1.
pub(crate) const SINGLE: &'static [u8] = b"SWL\x00\x01\x00\x01\x00\x00\x01\x00\x00\x01";

// Two pins, switches 1 2 3.
pub(crate) const ALTERNATING: &'static [u8] =
    b"SWL\x00\x01\x00\x02\x00\x00\x03\x00\x00\x01\x00\x00\x02\x00\x00\x03";

// Two pins, switches 1 3.
pub(crate) const DIFFERING: &'static [u8] =
    b"SWL\x00\x01\x00\x02\x00\x00\x02\x00\x00\x01\x00\x00\x03";

// Two pins, switch 2.
pub(crate) const HALVED: &'static [u8] = b"SWL\x00\x01\x00\x02\x00\x00\x01\x00\x00\x02";

// Four pins, switch 5.
pub(crate) const FOUR_PINS: &'static [u8] = b"SWL\x00\x01\x00\x04\x00\x00\x01\x00\x00\x05";

// Two pins, chip settings: first code 8, switch 1 to 16, switch 2 to 8.
pub(crate) const CHIP_SETTINGS: &'static [u8] =
    b"SWL\x00\x01\x01\x02\x08\x00\x02\x00\x00\x01\x10\x00\x00\x02\x08";
