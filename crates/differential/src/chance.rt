// Numbers that look random, and are the same in every run: a shift register.
#[derive(Drop)]
pub struct Chance {
    state: u64,
    odds: u32,
}

impl Chance {
    pub fn new(seed: u64) -> Chance {
        Chance {
            state: seed.wrapping_mul(0x9E37_79B9_7F4A_7C15) | 1,
            odds: 24,
        }
    }

    fn next(&mut self) -> u64 {
        let mut state = self.state;
        state ^= state << 13;
        state ^= state >> 7;
        state ^= state << 17;
        self.state = state;
        state
    }

    // A number below the count; 0 where that is 0.
    pub fn below(&mut self, count: u32) -> u32 {
        let word = (self.next() >> 16 & 0xFFFF_FFFF) as u32;
        word.checked_rem(count).unwrap_or(0)
    }

    // The same of a count that fits in a byte.
    pub fn byte_below(&mut self, count: u8) -> u8 {
        u8::try_from(self.below(u32::from(count))).unwrap_or(0)
    }

    // The same of lengths and places in tables.
    pub fn place_below(&mut self, count: usize) -> usize {
        self.below(u32::try_from(count).unwrap_or(u32::MAX)) as usize
    }

    pub fn one_in(&mut self, count: u32) -> bool {
        self.below(count) == 0
    }

    // One of the choices, or the usual where there are none.
    pub fn pick<T: Copy>(&mut self, choices: &[T], usual: T) -> T {
        let place = self.place_below(choices.len());
        choices.get(place).copied().unwrap_or(usual)
    }

    // Before each call: how seldom its parts are chosen badly. Some calls have several bad parts at once.
    pub fn settle(&mut self) {
        self.odds = self.pick(&[2, 3, 5, 24, 24, 24, 24, 24], 24);
    }

    // Whether to choose badly.
    pub fn slips(&mut self) -> bool {
        self.one_in(self.odds)
    }
}
