/// A generator of pseudo-random numbers by shifts; it always gives the same ones.
#[derive(Clone, Copy)]
pub struct Random {
    state: u64,
}

impl Random {
    /// The generator at its beginning.
    pub fn new() -> Random {
        Random {
            state: 0x1234_5678_9ABC_DEF1,
        }
    }

    /// A number below `count`, or 0 where that is 0.
    pub fn below(&mut self, count: u32) -> u32 {
        self.state ^= self.state << 13;
        self.state ^= self.state >> 7;
        self.state ^= self.state << 17;
        let high = self.state >> 32;
        (high.wrapping_mul(u64::from(count)) >> 32) as u32
    }
}
