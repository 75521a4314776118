ghost use Rattle.std.specs.Prelude.{◌≡◌, Decides};
ghost use Rattle.sources.specs.Blocks.{Inside, whole};

// The addresses whose top `level` bits are `number`.
#[derive(Clone, Copy, PartialEq, Eq, Debug)]
pub struct Block {
    pub level: u32,
    pub number: u32,
}

impl Block {
    // The block of all addresses.
    pub fn whole() -> Block
        ensures { result ≡ whole }
    {
        Block {
            level: 0,
            number: 0,
        }
    }

    // Whether a source of so many pins has the block.
    pub fn is_in(self, pins: u32) -> bool
        ensures { Decides result (Inside pins self.level self.number) }
    {
        self.level <= pins && (self.level >= 32 || self.number < 1 << self.level)
    }
}
