ghost use Rattle.std.specs.Prelude.{◌≤◌};

use crate::source::Source;

// A source that stands at a base in more pins than its own, or as many. All other addresses have the fill end.
#[derive(Drop)]
pub struct Mounted<S: Source> {
    pub(crate) below: S,
    pub(crate) pins: u32,
    pub(crate) base: u32,
    pub(crate) fill: S::Of,
    ghost some: { 1 ≤ pins },
    ghost few: { pins ≤ 20 },
}
