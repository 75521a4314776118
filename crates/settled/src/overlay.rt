ghost use Rattle.settled.specs.Examples.{OverlaysSettle};

use ends::joining::{Overlay, join_codes};

// Codes overlaid: 9 on 17, 17 on 9, and 16 on 1.
pub fn overlays_settle() -> [Option<u16>; 3]
    ensures { OverlaysSettle result }
{
    [
        join_codes(&Overlay, 17, 9),
        join_codes(&Overlay, 9, 17),
        join_codes(&Overlay, 1, 16),
    ]
}
