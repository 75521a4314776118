ghost use Rattle.ends.specs.Examples.{OverlaySettles};

// Overlay of codes 17, 9 is 17; of 9, 17 is 9; of 1, 16 is 16.
pub fn overlay_settles()
    ensures { OverlaySettles }
{}
