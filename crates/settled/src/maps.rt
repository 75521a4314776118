ghost use Rattle.settled.specs.Examples.{MapsSettle};

use crate::outcomes::Maps;
use crate::reckoning::reckon_file;
use crate::samples::{ALTERNATING, CHIP_SETTINGS, CONSTANT, DIFFERING, FOUR_PINS, SINGLE};
use readers::bit_file::Bits;
use readers::setting_file::Settings;

// Each map is accepted; then its tree is built, and it is drawn on a new plan and counted.
pub fn maps_settle() -> Maps
    ensures { MapsSettle result }
{
    Maps {
        constant: reckon_file::<Bits>(CONSTANT, &[0]),
        single: reckon_file::<Bits>(SINGLE, &[0]),
        alternating: reckon_file::<Bits>(ALTERNATING, &[0, 1]),
        differing: reckon_file::<Bits>(DIFFERING, &[0, 1]),
        in_order: reckon_file::<Bits>(FOUR_PINS, &[0, 1, 2, 3]),
        out_of_order: reckon_file::<Bits>(FOUR_PINS, &[3, 1, 0, 2]),
        chip_settings: reckon_file::<Settings>(CHIP_SETTINGS, &[0, 1]),
    }
}
