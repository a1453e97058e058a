// Numbers that look random, and are the same in each run.
ghost use Rattle.std.specs.Prelude.{◌≡◌, ◌<◌, length, Contains};

#[derive(Clone, Copy)]
pub struct Dice {
    state: u64,
}

impl Dice {
    pub fn new(seed: u64) -> Dice {
        Dice { state: seed }
    }

    // A number below the limit, or 0 where that is 0.
    pub fn below(&mut self, limit: usize) -> usize
        ensures none { limit ≡ 0 → result ≡ 0 }
        ensures within { 0 < limit → result < limit }
    {
        self.state = self
            .state
            .wrapping_mul(6_364_136_223_846_793_005)
            .wrapping_add(1_442_695_040_888_963_407);
        let high = (self.state >> 33) as usize;
        high.checked_rem(limit).unwrap_or(0)
    }

    // True once in so many times.
    pub fn once_in(&mut self, times: usize) -> bool {
        self.below(times) == 0
    }

    pub fn byte(&mut self) -> u8 {
        self.below(256) as u8
    }

    // A character out of all that there are, or `?` where the number is that of none.
    pub fn character(&mut self) -> char {
        let most = self.one_of(&[0x100, 0x600, 0x10000, 0x110000]);
        char::from_u32(self.below(most) as u32).unwrap_or('?')
    }

    // One of the given things, or an empty one where there are none.
    pub fn one_of<T: Copy + Default>(&mut self, things: &[T]) -> T
        ensures { 0 < length things.now → Contains things.now result }
    {
        let place = self.below(things.len());
        things.get(place).copied().unwrap_or_default()
    }
}
