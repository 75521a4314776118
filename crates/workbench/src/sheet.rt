ghost use Rattle.std.specs.Prelude.{◌≤◌};

// How many pins and nodes a plan has.
#[derive(Clone, Copy)]
pub struct Sheet {
    pub(crate) pins: usize,
    pub(crate) nodes: usize,
    ghost few: { pins ≤ 20 },
    ghost sized: { nodes ≤ 4096 },
}
